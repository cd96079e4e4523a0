use super::given::{Given, object_of};
use attrs::Object;
use ck_types::{AttrType, ObjectClass, SessionState};
use guard::*;
use std::alloc::Global;
use std::test::Fail;

const STATES: [SessionState; 5] = [
    SessionState::RoPublic,
    SessionState::RoUser,
    SessionState::RwPublic,
    SessionState::RwUser,
    SessionState::RwSo,
];

const TOKEN: Given = (AttrType::Token, &[1]);

const PRIVATE: Given = (AttrType::Private, &[1]);

const SENSITIVE: Given = (AttrType::Sensitive, &[1]);

const EXTRACTABLE: Given = (AttrType::Extractable, &[1]);

/// A key that has these.
fn key(alloc: Global, given: &[Given]) -> Result<Object, Fail> {
    object_of(alloc, ObjectClass::SecretKey, given)
}

#[test]
fn sessions_write_token_objects_in_three_states(rt: HostRuntime) {
    let are_read_write = STATES.map(|state| is_read_write(state));
    assert_eq!(rt; are_read_write, [false, false, true, true, true]);
}

/// What the object has, and for the five states in order whether the object is seen, and written.
type Access = (&'static [Given<'static>], [bool; 5], [bool; 5]);

const ACCESS: &[Access] = &[
    (&[], [true; 5], [true; 5]),
    (&[TOKEN], [true; 5], [false, false, true, true, true]),
    (
        &[PRIVATE],
        [false, true, false, true, false],
        [false, true, false, true, false],
    ),
    (
        &[PRIVATE, TOKEN],
        [false, true, false, true, false],
        [false, false, false, true, false],
    ),
];

#[test]
fn private_objects_are_seen_by_the_user_and_token_objects_written_in_rw_sessions(
    rt: HostRuntime,
) -> Result<(), Fail> {
    for (given, seen, written) in ACCESS {
        let object = key(rt.alloc(), given)?;
        let access = (seen_in(&object), written_in(&object));
        assert!(rt; access == (*seen, *written), "{given:?}");
    }
    Ok(())
}

/// In which of the states the object is seen.
fn seen_in(object: &Object) -> [bool; 5] {
    STATES.map(|state| visible(state, object))
}

/// Whether it is written in a state: it is seen, and in a R/W session where it is a token object.
fn may_write(state: SessionState, object: &Object) -> bool {
    visible(state, object) && !needs_read_write(is_read_write(state), object.flag(AttrType::Token))
}

/// In which of the states it is written.
fn written_in(object: &Object) -> [bool; 5] {
    STATES.map(|state| may_write(state, object))
}

/// What the key has, and whether its value is masked.
const MASKED: &[(&[Given], bool)] = &[
    (&[], true),
    (&[EXTRACTABLE], false),
    (&[SENSITIVE], true),
    (&[SENSITIVE, EXTRACTABLE], true),
];

/// Whether the object's value is masked or not, as it should be, and nothing else is.
fn keeps_back(object: &Object, is_masked: bool) -> bool {
    masked(object) == is_masked
        && reveals(object, AttrType::Value) != is_masked
        && reveals_number(object, 0x11) != is_masked
        && reveals(object, AttrType::ValueLen)
        && reveals_number(object, 0x161)
        && reveals_number(object, 0x9999_9999)
}

#[test]
fn sensitive_and_unextractable_keys_keep_their_value_back(rt: HostRuntime) -> Result<(), Fail> {
    for (given, is_masked) in MASKED {
        let object = key(rt.alloc(), given)?;
        assert!(rt; keeps_back(&object, *is_masked), "{given:?}");
    }
    Ok(())
}
