//! The rows of a script: steps of applications, and what these get.

use ck_calls::SessionInfo;
use ck_types::{AttrType, Rv};

/// A row of a script: the application, what it does, and what it gets.
pub type Row = (u64, Step, Told);

/// The attributes of a template.
pub type Given = &'static [(AttrType, &'static [u8])];

/// The wanted attributes, each with the length of its buffer.
pub type Asked = &'static [(u64, Option<u64>)];

/// What is returned of each attribute: its length and its value.
pub type Values = &'static [(u64, Option<&'static [u8]>)];

/// The type of a mechanism, and its parameter.
pub type GivenMechanism = (u64, &'static [u8]);

/// What an application does. The steps up to `Finish` are calls.
#[derive(Clone, Copy, Debug)]
pub enum Step {
    /// Of a slot.
    GetTokenInfo(u64),
    /// Of a slot.
    GetMechanismList(u64),
    /// Of a slot, of a mechanism's type.
    GetMechanismInfo(u64, u64),
    /// In a slot, with the SO's PIN and a label.
    InitToken(u64, &'static [u8], &'static [u8]),
    /// In a session, with the user's new PIN.
    InitPin(u64, &'static [u8]),
    /// In a session, from one PIN to another.
    SetPin(u64, &'static [u8], &'static [u8]),
    /// In a session, of a user type, with a PIN.
    Login(u64, u64, &'static [u8]),
    Logout(u64),
    /// In a slot, with flags.
    OpenSession(u64, u64),
    CloseSession(u64),
    CloseAllSessions(u64),
    GetSessionInfo(u64),
    CreateObject(u64, Given),
    CopyObject(u64, u64, Given),
    DestroyObject(u64, u64),
    GetObjectSize(u64, u64),
    GetAttributeValue(u64, u64, Asked),
    SetAttributeValue(u64, u64, Given),
    /// In a session, by a template.
    FindObjectsInit(u64, Given),
    /// In a session, by a template with one attribute, of this type, which may be none that is known.
    FindByNumber(u64, u64, &'static [u8]),
    /// In a session, as many as this at most.
    FindObjects(u64, u64),
    FindObjectsFinal(u64),
    /// In a session, by a mechanism if there is one, under a key.
    EncryptInit(u64, Option<GivenMechanism>, u64),
    /// In a session, of a text, with the length of the output buffer.
    Encrypt(u64, &'static [u8], Option<u64>),
    EncryptUpdate(u64, &'static [u8], Option<u64>),
    EncryptFinal(u64, Option<u64>),
    DecryptInit(u64, Option<GivenMechanism>, u64),
    Decrypt(u64, &'static [u8], Option<u64>),
    DecryptUpdate(u64, &'static [u8], Option<u64>),
    DecryptFinal(u64, Option<u64>),
    /// In a session, by a mechanism if there is one, under a key.
    SignInit(u64, Option<GivenMechanism>, u64),
    /// In a session, of a text, with the length of the signature's buffer.
    Sign(u64, &'static [u8], Option<u64>),
    SignUpdate(u64, &'static [u8]),
    SignFinal(u64, Option<u64>),
    VerifyInit(u64, Option<GivenMechanism>, u64),
    /// In a session, of a text, with its signature.
    Verify(u64, &'static [u8], &'static [u8]),
    VerifyUpdate(u64, &'static [u8]),
    VerifyFinal(u64, &'static [u8]),
    /// In a session, by a mechanism, under a wrapping key, of a key, with the length of the wrapped key's buffer.
    WrapKey(u64, GivenMechanism, u64, u64, Option<u64>),
    /// In a session, by a mechanism, under an unwrapping key, of a wrapped key, by a template.
    UnwrapKey(u64, GivenMechanism, u64, &'static [u8], Given),
    /// In a session, by a mechanism and a template.
    GenerateKey(u64, GivenMechanism, Given),
    /// In a session, so many bytes.
    GenerateRandom(u64, u64),
    /// The job of the application's pending call is run, and the call is answered.
    Finish,
    /// The job of another application's pending call is run, and its result handed in as one's own.
    FinishOf(u64),
    Goes,
}

/// What an application gets.
#[derive(Clone, Copy)]
pub enum Told {
    /// Nothing yet: its call is pending, or nothing is returned.
    Nothing,
    Code(Rv),
    /// A label, flags, and how many sessions there are, and how many of them may write.
    TokenInfo(&'static [u8], u64, u64, u64),
    MechanismList(&'static [u64]),
    /// The least and the greatest size of its keys, and flags.
    MechanismInfo(u64, u64, u64),
    Session(u64),
    SessionInfo(SessionInfo),
    Object(u64),
    ObjectSize(u64),
    /// The handles that are returned.
    Objects(&'static [u64]),
    AttributeValues(Rv, Values),
    Length(u64),
    Data(&'static [u8]),
    BufferTooSmall(u64),
    Random(&'static [u8]),
}
