ghost use Rattle.std.specs.Prelude.{◌≤◌};

use ck_types::{Label, UserType};
use pin_record::*;
use std::alloc::{AllocError, Global};
use std::process::Abort;
use std::test::Fail;

const LABEL: &[u8; 32] = b"a label of thirty-two characters";

const SO_PIN: &[u8; 6] = b"so-pin";

const SO_SALT: [u8; 16] = [0xa5; 16];

const USER_PIN: &[u8; 4] = b"1234";

const USER_SALT: [u8; 16] = [0, 1, 2, 3, 4, 5, 6, 7, 8, 9, 10, 11, 12, 13, 14, 15];

// The keys of both, by hashlib.pbkdf2_hmac of Python: the SO's for 20,000 rounds, the user's for 10,000.
const SO_KEY: [u8; 32] = [
    0x44, 0x30, 0x74, 0x2a, 0x3f, 0x4f, 0xfa, 0x34, 0x60, 0xae, 0xde, 0xbd, 0x89, 0x56, 0x1a, 0x2e,
    0x80, 0x82, 0x7c, 0x88, 0xd6, 0xed, 0x32, 0x9d, 0x84, 0xda, 0x32, 0xe5, 0x3b, 0x29, 0x10, 0x3a,
];

const USER_KEY: [u8; 32] = [
    0x91, 0xea, 0x05, 0x9b, 0xae, 0x03, 0x33, 0xa2, 0x96, 0x9f, 0xc8, 0xcc, 0xd7, 0xc7, 0x78, 0x51,
    0xdd, 0xa4, 0x3f, 0x5a, 0xdb, 0x96, 0xba, 0xee, 0xa2, 0x46, 0xa6, 0x24, 0xcd, 0xf4, 0x89, 0xec,
];

fn label() -> Label {
    match Label::from_slice(LABEL) {
        Some(label) => label,
        None => Label::BLANK,
    }
}

/// Adds a PIN that is set, as it is stored.
fn push_pin(
    bytes: &mut Vec<u8>,
    salt: &[u8; 16],
    rounds: &[u8; 4],
    key: &[u8; 32],
    tries: u8,
) -> Result<(), AllocError> {
    bytes.push(1)?;
    bytes.extend_from_slice(salt)?;
    bytes.extend_from_slice(rounds)?;
    bytes.extend_from_slice(key)?;
    bytes.push(tries)?;
    Ok(())
}

/// The stored form of a record with both PINs.
fn bytes_of_both(alloc: Global, so_tries: u8, user_tries: u8) -> Result<Vec<u8>, AllocError> {
    let mut bytes = Vec::new(alloc);
    bytes.extend_from_slice(&[2, 1])?;
    bytes.extend_from_slice(LABEL)?;
    push_pin(&mut bytes, &SO_SALT, &[0, 0, 0x4e, 0x20], &SO_KEY, so_tries)?;
    push_pin(
        &mut bytes,
        &USER_SALT,
        &[0, 0, 0x27, 0x10],
        &USER_KEY,
        user_tries,
    )?;
    Ok(bytes)
}

fn record_of_both(alloc: Global) -> Result<Record, Fail> {
    Ok(decode(&bytes_of_both(alloc, 0, 0)?)?)
}

fn verifier_of(record: &Record, who: UserType) -> Result<Verifier, Fail> {
    Ok(*record.verifier(who).ok_or("a PIN")?)
}

/// The bytes with another one at a place.
fn with_byte(alloc: Global, bytes: &[u8], at: usize, byte: u8) -> Result<Vec<u8>, AllocError> {
    let mut copy = Vec::from_slice(alloc, bytes)?;
    if at < copy.len() {
        copy[at] = byte;
    }
    Ok(copy)
}

/// The record after so many checks were begun, as far as they may be.
fn with_charges(record: Record, who: UserType, count: u8) -> Record {
    let mut charged = record;
    for _ in 0..count {
        if charged.verifier(who).is_some() && charged.tries(who) < TRIES_LIMIT {
            charged = begin_check(charged, who);
        }
    }
    charged
}

/// The record after a check, whose charge it has, ended right, while others are in progress.
fn ended_right(record: Record, who: UserType, under_way: u8) -> Record {
    if under_way < record.tries(who) {
        end_check(record, who, true, under_way)
    } else {
        record
    }
}

/// The record with a new user PIN, where the token is initialised.
fn with_user_pin(record: Record, verifier: Verifier, under_way: u8) -> Record
    requires { under_way ≤ 10 }
{
    if record.is_initialized() {
        record.with_pin(UserType::User, verifier, under_way)
    } else {
        record
    }
}

/// How many wrong PINs of the SO and of the user a record with both has seen, and whether the user's PIN is then set anew. And
/// the flags of the token by it.
const FLAGS: &[(u8, u8, bool, u64)] = &[
    (0, 0, false, 0x40d),
    (0, 1, false, 0x1040d),
    (0, 8, false, 0x1040d),
    (0, 9, false, 0x3040d),
    (0, 10, false, 0x5040d),
    (0, 11, false, 0x5040d),
    (0, 10, true, 0x40d),
    (1, 0, false, 0x10040d),
    (9, 0, false, 0x30040d),
    (10, 0, false, 0x50040d),
    (10, 10, false, 0x55040d),
];

/// The flags after so many wrong PINs, where the user's PIN is then set to this one, if there is one.
fn flags_after(both: Record, so: u8, user: u8, set: Option<Verifier>) -> u64 {
    let charged = with_charges(with_charges(both, UserType::So, so), UserType::User, user);
    let record = match set {
        Some(verifier) => with_user_pin(charged, verifier, 0),
        None => charged,
    };
    token_flags(&record)
}

#[test]
fn a_token_shows_its_pins_by_its_flags(rt: HostRuntime) -> Result<(), Fail> {
    let both = record_of_both(rt.alloc())?;
    let pin = verifier_of(&both, UserType::User)?;
    for (so, user, is_set, flags) in FLAGS {
        let got = flags_after(both, *so, *user, is_set.then_some(pin));
        assert_eq!(rt; got, *flags, "{so} and {user} wrong PINs");
    }
    Ok(())
}

#[test]
fn a_token_without_pins_shows_that(rt: HostRuntime) -> Result<(), Fail> {
    let both = record_of_both(rt.alloc())?;
    let so = verifier_of(&both, UserType::So)?;
    let initialized = token_flags(&Record::initialized(label(), so, 0));
    assert_eq!(rt; [token_flags(&Record::new()), initialized], [0x5, 0x405]);
    Ok(())
}

/// The tries of a user PIN of which so many checks were begun, after one ended right beside so many others.
fn tries_after(both: Record, begun: u8, others: u8) -> u8 {
    ended_right(
        with_charges(both, UserType::User, begun),
        UserType::User,
        others,
    )
    .tries(UserType::User)
}

/// Whether the user's PIN is locked by so many checks.
fn is_locked_by(both: Record, count: u8) -> bool {
    with_charges(both, UserType::User, count).is_locked(UserType::User)
}

/// Whether the tenth check of the user's PIN leaves its charge where it ends wrong, and none of the SO's.
fn is_charged_once(both: Record) -> bool {
    let tenth = with_charges(both, UserType::User, 10);
    let tries = [tenth.tries(UserType::User), tenth.tries(UserType::So)];
    tries == [10, 0] && end_check(tenth, UserType::User, false, 0) == tenth
}

#[test]
fn checks_that_overlap_are_charged_until_one_ends_right(rt: HostRuntime) -> Result<(), Fail> {
    let both = record_of_both(rt.alloc())?;
    assert!(rt; !is_locked_by(both, 9) && is_locked_by(both, 10));
    assert!(rt; is_charged_once(both));
    assert_eq!(rt; [tries_after(both, 10, 0), tries_after(both, 3, 2)], [0, 2]);
    Ok(())
}

#[test]
fn a_new_pin_keeps_the_checks_under_way(rt: HostRuntime) -> Result<(), Fail> {
    let both = record_of_both(rt.alloc())?;
    let pin = verifier_of(&both, UserType::User)?;
    let new = with_user_pin(with_charges(both, UserType::User, 3), pin, 1);
    assert_eq!(rt; new.tries(UserType::User), 1);
    Ok(())
}

#[test]
fn a_verifier_is_the_key_that_pbkdf2_makes_of_its_pin(rt: HostRuntime) -> Result<(), Fail> {
    let so = Verifier::made(SO_PIN, SO_SALT);
    let is_made = *so.salt() == SO_SALT && so.rounds() == 20_000 && *so.key() == SO_KEY;
    assert!(rt; is_made);
    let user = verifier_of(&record_of_both(rt.alloc())?, UserType::User)?;
    assert_eq!(rt; user.rounds(), 10_000);
    assert!(rt; user.accepts(USER_PIN) && !user.accepts(SO_PIN));
    Ok(())
}

#[test]
fn a_new_pin_has_its_verifier(rt: HostRuntime) -> Result<(), Fail> {
    let so = Verifier::made(SO_PIN, SO_SALT);
    let new = with_user_pin(record_of_both(rt.alloc())?, so, 0);
    let user = verifier_of(&new, UserType::User)?;
    assert_eq!(rt; user, so);
    Ok(())
}

#[test]
fn a_new_record_is_stored_in_38_bytes(rt: HostRuntime) -> Result<(), Fail> {
    let new = encode(rt.alloc(), &Record::default())?;
    let read = decode(&new)?;
    assert!(rt; new.len() == 38 && read == Record::new());
    Ok(())
}

/// Whether these are the bytes of a record with both PINs.
fn is_stored_as(
    alloc: Global,
    stored: &[u8],
    so_tries: u8,
    user_tries: u8,
) -> Result<bool, AllocError> {
    Ok(stored == bytes_of_both(alloc, so_tries, user_tries)?.as_slice())
}

#[test]
fn a_record_with_both_pins_is_stored_in_142_bytes(rt: HostRuntime) -> Result<(), Fail> {
    let charged = with_charges(record_of_both(rt.alloc())?, UserType::So, 3);
    let charged = with_charges(charged, UserType::User, 9);
    let stored = encode(rt.alloc(), &charged)?;
    assert_eq!(rt; stored.len(), 142);
    let is_stored = is_stored_as(rt.alloc(), &stored, 3, 9)?;
    assert!(rt; is_stored);
    let read = decode(&stored)?;
    assert!(rt; read == charged && read.label().as_slice() == LABEL.as_slice());
    Ok(())
}

/// Whether these bytes are no record.
fn is_refused(bytes: &[u8]) -> bool {
    matches!(decode(bytes), Err(DecodeFault::Form))
}

/// Sees that the bytes are a record, and that no part of them is one, nor they with one more.
fn expect_whole(rt: &impl Abort, alloc: Global, whole: &[u8]) -> Result<(), Fail> {
    assert!(rt; !is_refused(whole));
    for len in 0..whole.len() {
        assert!(rt; is_refused(whole.get(..len).unwrap_or(&[])), "{len} bytes");
    }
    let mut longer = Vec::from_slice(alloc, whole)?;
    longer.push(0)?;
    assert!(rt; is_refused(&longer));
    Ok(())
}

#[test]
fn a_cut_and_a_byte_more_are_no_record(rt: HostRuntime) -> Result<(), Fail> {
    expect_whole(&rt, rt.alloc(), &encode(rt.alloc(), &Record::new())?)?;
    expect_whole(&rt, rt.alloc(), &bytes_of_both(rt.alloc(), 3, 9)?)
}

/// What is wrong, by which byte at which place.
type Edit = (&'static str, usize, u8);

const EDITS_OF_NEW: &[Edit] = &[
    ("format 1", 0, 1),
    ("initialised without an SO PIN", 1, 1),
    ("a label before the token is initialised", 2, b'x'),
    ("a label that isn't padded", 33, 0),
    ("an SO PIN that is cut off", 34, 1),
    ("tries of an SO PIN that isn't set", 35, 1),
    ("tries of a user PIN that isn't set", 37, 1),
];

const EDITS_OF_BOTH: &[Edit] = &[
    ("format 1", 0, 1),
    ("format 3", 0, 3),
    ("not initialised, with an SO PIN", 1, 0),
    ("initialised, by another byte", 1, 2),
    ("a verifier behind another byte", 34, 2),
    ("20,001 rounds", 54, 0x21),
    ("11 tries of the SO's PIN", 87, 11),
    ("10,001 rounds", 108, 0x11),
    ("11 tries of the user's PIN", 141, 11),
];

fn expect_refused(
    rt: &impl Abort,
    alloc: Global,
    stored: &[u8],
    edits: &[Edit],
) -> Result<(), Fail> {
    for (why, at, byte) in edits {
        let edited = with_byte(alloc, stored, *at, *byte)?;
        assert!(rt; is_refused(&edited), "{why}");
    }
    Ok(())
}

#[test]
fn bytes_that_no_record_is_stored_as_are_refused(rt: HostRuntime) -> Result<(), Fail> {
    let new = encode(rt.alloc(), &Record::new())?;
    expect_refused(&rt, rt.alloc(), &new, EDITS_OF_NEW)?;
    let both = bytes_of_both(rt.alloc(), 3, 9)?;
    expect_refused(&rt, rt.alloc(), &both, EDITS_OF_BOTH)
}

#[test]
fn a_user_pin_without_an_so_pin_is_refused(rt: HostRuntime) -> Result<(), Fail> {
    let mut stored = encode(rt.alloc(), &Record::new())?;
    stored.truncate(36);
    push_pin(&mut stored, &USER_SALT, &[0, 0, 0x27, 0x10], &USER_KEY, 0)?;
    assert!(rt; is_refused(&stored));
    Ok(())
}
