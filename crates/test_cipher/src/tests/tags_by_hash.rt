use hmac_sha2::{HashFunction, Hmac, hmac224, hmac256, hmac384, hmac512, pbkdf2};
use sha2::{Sha224, Sha256, Sha384, Sha512};
use vectors::{DERIVATIONS, KEY_LENGTHS, RFC_4231, Tags};

pub(crate) mod vectors;

// The bytes of a tag that is given by its first 128 bits.
const TRUNCATED: usize = 16;

static DIGITS: [u8; 16] = *b"0123456789abcdef";

// Whether the digits spell the whole tag, or its first 128 bits.
pub(crate) fn spells(digits: &str, tag: &[u8]) -> bool {
    let digits = digits.as_bytes();
    if digits.len() != 2 * tag.len() && (digits.len() != 2 * TRUNCATED || tag.len() < TRUNCATED) {
        return false;
    }
    for i in 0..digits.len() / 2 {
        let byte = tag[i];
        if digits[2 * i] != DIGITS[(byte >> 4) as usize]
            || digits[2 * i + 1] != DIGITS[(byte & 15) as usize]
        {
            return false;
        }
    }
    true
}

// Whether the four functions give these tags.
fn are_tags(case: &Tags) -> bool {
    spells(case.sha224, &hmac224(case.key, case.message))
        && spells(case.sha256, &hmac256(case.key, case.message))
        && spells(case.sha384, &hmac384(case.key, case.message))
        && spells(case.sha512, &hmac512(case.key, case.message))
}

// Whether the message that comes in these parts has this tag.
fn is_tag_of_pieces<D: HashFunction>(digits: &str, key: &[u8], pieces: &[&[u8]]) -> bool
where
    D::Output: Drop,
{
    let mut hmac = Hmac::<D>::new(key);
    for piece in pieces {
        hmac.update(piece);
    }
    spells(digits, D::as_bytes(&hmac.finalize()))
}

#[test]
fn codes_are_those_of_rfc_4231(rt: HostRuntime) {
    for (i, case) in RFC_4231.iter().enumerate() {
        assert!(rt; are_tags(case), "test case {}", i + 1);
    }
}

#[test]
fn keys_about_as_long_as_a_block_have_the_codes_of_another_program(rt: HostRuntime) {
    for case in &KEY_LENGTHS {
        assert!(rt; are_tags(case), "a key of {} bytes", case.key.len());
    }
}

#[test]
fn a_message_in_pieces_has_the_code_of_the_whole(rt: HostRuntime) {
    let case = &RFC_4231[0];
    let pieces: [&[u8]; 3] = [b"Hi ", b"", b"There"];
    assert!(rt; is_tag_of_pieces::<Sha224>(case.sha224, case.key, &pieces));
    assert!(rt; is_tag_of_pieces::<Sha256>(case.sha256, case.key, &pieces));
    assert!(rt; is_tag_of_pieces::<Sha384>(case.sha384, case.key, &pieces));
    assert!(rt; is_tag_of_pieces::<Sha512>(case.sha512, case.key, &pieces));
}

#[test]
fn a_clone_goes_on_by_itself(rt: HostRuntime) {
    let mut hmac = Hmac::<Sha256>::new(b"key");
    hmac.update(b"Hi ");
    let mut other = hmac.clone().unwrap();
    hmac.update(b"There");
    other.update(b"Here");
    assert!(rt; hmac.finalize() == hmac256(b"key", b"Hi There"));
    assert!(rt; other.finalize() == hmac256(b"key", b"Hi Here"));
}

#[test]
fn derives_the_published_keys(rt: HostRuntime) {
    for (i, case) in DERIVATIONS.iter().enumerate() {
        assert!(rt; case.rounds >= 1);
        let key = pbkdf2(case.password, case.salt, case.rounds);
        assert!(rt; spells(case.key, &key), "row {i}");
    }
}
