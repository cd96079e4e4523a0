//! What the scripts speak of beside what all do: objects and templates that find them.

use ck_types::AttrType;
use test_scripts::given::*;
use test_scripts::{Given, Row, Step, Told};

/// A data object of the token with a label, and one of a session.
pub(super) const LABELLED: Given = &[
    (AttrType::Class, DATA),
    (AttrType::Token, YES),
    (AttrType::Private, NO),
    (AttrType::Label, b"k1"),
];

pub(super) const LABELLED_HERE: Given = &[
    (AttrType::Class, DATA),
    (AttrType::Token, NO),
    (AttrType::Private, NO),
    (AttrType::Label, b"k1"),
];

pub(super) const LABELLED_OTHERWISE: Given = &[
    (AttrType::Class, DATA),
    (AttrType::Token, YES),
    (AttrType::Private, NO),
    (AttrType::Label, b"k2"),
];

/// An AES key of the token whose value may be read.
pub(super) const READABLE_KEY: Given = &[
    (AttrType::Class, SECRET_KEY),
    (AttrType::KeyType, AES),
    (AttrType::Value, KEY_BYTES),
    (AttrType::Private, NO),
    (AttrType::Token, YES),
    (AttrType::Sensitive, NO),
    (AttrType::Extractable, YES),
];

/// Keys whose value is masked: as it is sensitive, and as it is unextractable.
pub(super) const SENSITIVE_KEY: Given = &[
    (AttrType::Class, SECRET_KEY),
    (AttrType::KeyType, AES),
    (AttrType::Value, KEY_BYTES),
    (AttrType::Private, NO),
    (AttrType::Token, YES),
    (AttrType::Sensitive, YES),
    (AttrType::Extractable, YES),
];

pub(super) const UNEXTRACTABLE_KEY: Given = &[
    (AttrType::Class, SECRET_KEY),
    (AttrType::KeyType, AES),
    (AttrType::Value, KEY_BYTES),
    (AttrType::Private, NO),
    (AttrType::Token, YES),
    (AttrType::Sensitive, NO),
    (AttrType::Extractable, NO),
];

pub(super) const BY_LABEL: Given = &[(AttrType::Label, b"k1")];

pub(super) const BY_VALUE: Given = &[(AttrType::Value, KEY_BYTES)];

/// What a search without a match returns, and one that has no more to return.
pub(super) const NONE: Told = Told::Objects(&[]);

/// A session of A and one of B.
pub(super) const OPENED: &[Row] = &[(A, OPEN, Told::Session(1)), (B, OPEN, Told::Session(1))];

/// Begins the search for all objects in the first session, returns some of what it finds, and ends it.
pub(super) const FINDS_ALL: Step = Step::FindObjectsInit(1, NOTHING);

pub(super) const TELLS: Step = Step::FindObjects(1, 16);

pub(super) const ENDS: Step = Step::FindObjectsFinal(1);
