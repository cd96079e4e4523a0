//! The random bytes that calls get.

ghost use Rattle.std.specs.Prelude.{◌≡◌, IfOk, length, vec_len};
ghost use Rattle.ck_calls.specs.Need.{random_bytes};

use ck_calls::{Call, need};
use std::alloc::Global;
use std::test::Fail;

/// The random bytes that a token gets, again and again.
pub(crate) const RANDOM: &[u8; 16] =
    b"\x76\xb8\xe0\xad\xa0\xf1\x3d\x90\x40\x5d\x6a\xe5\x53\x86\xbd\x28";

/// As many random bytes as the call takes.
pub fn random_for(alloc: Global, call: &Call) -> Result<Vec<u8>, Fail>
    ensures { IfOk result (λ random. vec_len random ≡ random_bytes call.now) }
{
    let mut random = vec![in alloc; 0u8; need(call)]?;
    put_random(&mut random);
    Ok(random)
}

fn put_random(bytes: &mut [u8])
    ensures { length bytes.new ≡ length bytes.old }
{
    for place in 0..bytes.len() {
        bytes[place] = RANDOM[place % 16];
    }
}
