ghost use Rattle.std.specs.Prelude.{◌≡◌, ◌≤◌, ◌++◌, length, drop};
ghost use Rattle.hmac_sha2.specs.Hmac.{xor_strings};

// Each of the first bytes of `sum`, as many as `bytes` has, becomes its exclusive or with that byte.
pub(crate) fn xor_into(sum: &mut [u8], bytes: &[u8])
    requires { length bytes.now ≤ length sum.old }
    ensures { sum.new ≡ xor_strings sum.old bytes.now ++ drop (length bytes.now) sum.old }
{
    for (i, byte) in bytes.iter().enumerate() {
        sum[i] ^= *byte;
    }
}
