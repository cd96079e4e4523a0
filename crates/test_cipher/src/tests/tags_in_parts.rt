use crate::tests::given::{TEXT, bytes_of};
use crate::tests::tags_by_cipher::vectors::SP_800_38B;
use crate::tests::tags_by_hash::spells;
use crate::tests::tags_by_hash::vectors::RFC_4231;
use macs::{Mac, Mechanism, Tag};
use std::test::Fail;

// How long the parts are that a message is cut into.
const LENGTHS: &[usize] = &[1, 15, 16, 17, 31];

// The tag of a message in parts of this length, where there is such a key.
fn tag_in_pieces(mechanism: Mechanism, key: &[u8], message: &[u8], length: usize) -> Option<Tag> {
    let mut mac = Mac::new(mechanism, key)?;
    for piece in message.chunks(length.max(1)) {
        mac.update(piece);
    }
    Some(mac.tag())
}

// The tag of a message, where it is the same in parts of each length.
fn tag_however_cut(mechanism: Mechanism, key: &[u8], message: &[u8]) -> Option<Tag> {
    let whole = tag_in_pieces(mechanism, key, message, message.len())?;
    for length in LENGTHS {
        let tag = tag_in_pieces(mechanism, key, message, *length)?;
        if tag.as_slice() != whole.as_slice() {
            return None;
        }
    }
    Some(whole)
}

// Whether the digits spell the tag of a message, however it is cut.
fn is_tag(mechanism: Mechanism, digits: &str, key: &[u8], message: &[u8]) -> bool {
    match tag_however_cut(mechanism, key, message) {
        Some(tag) => spells(digits, tag.as_slice()),
        None => false,
    }
}

#[test]
fn codes_by_cipher_are_those_of_the_standards_examples(rt: HostRuntime) -> Result<(), Fail> {
    let message = bytes_of(rt.alloc(), TEXT)?;
    for vector in &SP_800_38B {
        let source = vector.source;
        let key = bytes_of(rt.alloc(), vector.key)?;
        let part = message.get(..vector.len).ok_or("the message is shorter")?;
        let tag = tag_however_cut(Mechanism::AesCmac, &key, part).ok_or("not as the whole")?;
        assert!(rt;
            tag.as_slice() == vector.tag.to_be_bytes().as_slice(),
            "{source}"
        );
    }
    Ok(())
}

#[test]
fn codes_by_hash_are_those_of_rfc_4231(rt: HostRuntime) {
    for (i, case) in RFC_4231.iter().enumerate() {
        let are_tags = is_tag(Mechanism::Sha224Hmac, case.sha224, case.key, case.message)
            && is_tag(Mechanism::Sha256Hmac, case.sha256, case.key, case.message)
            && is_tag(Mechanism::Sha384Hmac, case.sha384, case.key, case.message)
            && is_tag(Mechanism::Sha512Hmac, case.sha512, case.key, case.message);
        assert!(rt; are_tags, "test case {}", i + 1);
    }
}

const MECHANISMS: &[Mechanism] = &[
    Mechanism::AesCmac,
    Mechanism::Sha224Hmac,
    Mechanism::Sha256Hmac,
    Mechanism::Sha384Hmac,
    Mechanism::Sha512Hmac,
];

// Whether a copy of a message's first part continues by itself, and the message continues behind its tag.
fn goes_on_by_itself(mechanism: Mechanism, key: &[u8]) -> Option<bool> {
    let mut mac = Mac::new(mechanism, key)?;
    mac.update(b"a first part");
    let first = mac.tag();
    let mut copy = mac.copied();
    mac.update(b", and more of it");
    copy.update(b" that ends otherwise");
    let whole = tag_in_pieces(mechanism, key, b"a first part, and more of it", 5)?;
    let other = tag_in_pieces(mechanism, key, b"a first part that ends otherwise", 7)?;
    Some(
        mac.tag().as_slice() == whole.as_slice()
            && copy.tag().as_slice() == other.as_slice()
            && first.as_slice() != whole.as_slice()
            && first.as_slice().len() == mechanism.tag_len(),
    )
}

#[test]
fn a_copy_goes_on_by_itself(rt: HostRuntime) {
    for mechanism in MECHANISMS {
        assert!(rt;
            goes_on_by_itself(*mechanism, &[7; 16]) == Some(true),
            "{mechanism:?}"
        );
    }
}

#[test]
fn it_is_told_whether_data_was_taken_and_by_which_mechanism(rt: HostRuntime) -> Result<(), Fail> {
    for mechanism in MECHANISMS {
        let mut mac = Mac::new(*mechanism, &[7; 16]).ok_or("no such key")?;
        mac.update(b"");
        let none = mac.has_taken();
        mac.update(b"a");
        assert!(rt; !none && mac.has_taken() && mac.copied().has_taken());
        assert!(rt; mac.mechanism() == *mechanism);
    }
    Ok(())
}
