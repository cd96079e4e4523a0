ghost use Rattle.std.specs.Prelude.{◌≡◌, ℕ, ◌≤◌, List, []};
ghost use Rattle.hmac_sha2.specs.Hmac.{hmac256};
ghost use Rattle.hmac_sha2.specs.Pbkdf2.{pbkdf2};
ghost use Rattle.hmac_sha2.specs.Stepwise.{HoldsMessage256};

use super::stepwise::Hmac;
use super::xor::xor_into;
use sha2::Sha256;

// INT (1), the number of the first block as four bytes, the highest first (RFC 8018, section 5.2).
const FIRST_BLOCK: [u8; 4] = [0, 0, 0, 1];

// The tag of a message under the key of `start`, which has taken nothing yet.
fn tag_from(start: &Hmac<Sha256>, message: &[u8]) -> [u8; 32]
    ensures { (key : List ℕ) → HoldsMessage256 start.now key [] → result ≡ hmac256 key message.now }
{
    let mut hmac = start.clone().unwrap();
    hmac.update(message);
    hmac.finalize()
}

/// PBKDF2 with HMAC-SHA-256 for a key of 32 bytes, which is one block (RFC 8018, section 5.2).
///
/// `password` and `salt` have any length, and `rounds`, the iteration count c, is at least 1.
/// The time rises with `rounds`: each takes two runs of SHA-256's compression function.
pub fn pbkdf2(password: &[u8], salt: &[u8], rounds: u32) -> [u8; 32]
    requires { 1 ≤ rounds }
    ensures { result ≡ pbkdf2 password.now salt.now rounds }
{
    let start = Hmac::<Sha256>::new(password);
    let mut first = start.clone().unwrap();
    first.update(salt);
    first.update(&FIRST_BLOCK);
    let mut iterate = first.finalize();
    let mut sum = iterate;
    'rounds: for _round in 1..rounds {
        iterate = tag_from(&start, &iterate);
        xor_into(&mut sum, &iterate);
    }
    sum
}
