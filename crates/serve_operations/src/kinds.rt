//! What differs between the kinds of operations, and what they have alike.

ghost use Rattle.std.specs.Prelude.{◌≡◌};
ghost use Rattle.ck_types.specs.declared.rv.Rv.TheVariants as rv;
ghost use Rattle.ck_calls.specs.declared.reply.Reply.TheVariants.{Code};
ghost use Rattle.precede.specs.Condition.{code_of};
ghost use Rattle.sessions.specs.Sessions.{session_at};
ghost use Rattle.model_answers.specs.Cipher.{last_function, update_function};
ghost use Rattle.model_answers.specs.CipherInit.{place_for};
ghost use Rattle.model_answers.specs.Mac.{mac_update_function, sign_function, verify_function};
ghost use Rattle.model_answers.specs.OperationInit.{is_in_progress, permission, purpose_for};
ghost use Rattle.serve_operations.specs.Beginning.{table_without};
ghost use Rattle.serve_operations.specs.Steps.{refused_row};

use aes_modes::{Direction, ModeFault};
use ck_calls::{Function, Reply};
use ck_mechanisms::Purpose;
use ck_types::{AttrType, Bytes, Rv};
use desk::Desk;
use ops::{Kind, MacPlace, Place};
use precede::Condition;

/// The place of the operation of a direction.
pub(crate) fn place_for(direction: Direction) -> Place
    ensures { result ≡ place_for direction }
{
    match direction {
        Direction::Encrypt => Place::Encrypt,
        Direction::Decrypt => Place::Decrypt,
    }
}

/// The attribute by which a key permits it.
pub(crate) fn permission(kind: Kind) -> AttrType
    ensures { result ≡ permission kind }
{
    match kind {
        Kind::Cipher(Direction::Encrypt) => AttrType::Encrypt,
        Kind::Cipher(Direction::Decrypt) => AttrType::Decrypt,
        Kind::Mac(MacPlace::Sign) => AttrType::Sign,
        Kind::Mac(MacPlace::Verify) => AttrType::Verify,
    }
}

/// What its mechanism is for.
pub(crate) fn purpose_for(kind: Kind) -> Purpose
    ensures { result ≡ purpose_for kind }
{
    match kind {
        Kind::Cipher(_) => Purpose::Cipher,
        Kind::Mac(_) => Purpose::Mac,
    }
}

/// Whether such an operation is in progress.
pub(crate) fn is_in_progress(desk: &Desk, kind: Kind, session: u64) -> bool
    ensures { result ≡ is_in_progress kind (session_at desk.now.sessions.sessions session) }
{
    match kind {
        Kind::Cipher(direction) => desk.operation(session, place_for(direction)).is_some(),
        Kind::Mac(place) => desk.mac(session, place).is_some(),
    }
}

/// The operation ends, if there is one, with the code of a condition.
pub(crate) fn end(desk: &mut Desk, kind: Kind, session: u64, row: Condition) -> Reply
    ensures reply { result ≡ Code (code_of rv.Ok row) }
    ensures ended { desk.new ≡ record desk.old { sessions = table_without desk.old.sessions session kind } }
{
    match kind {
        Kind::Cipher(direction) => desk.set_operation(session, place_for(direction), None),
        Kind::Mac(place) => desk.set_mac(session, place, None),
    }
    Reply::Code(row.code(Rv::Ok))
}

/// The condition for which data is refused: for its length, or since the mechanism has no counter for each block.
pub(crate) fn refused_row(direction: Direction, fault: ModeFault) -> Condition
    ensures { result ≡ refused_row direction fault }
{
    if fault == ModeFault::CounterEnd {
        return Condition::DataLength;
    }
    match direction {
        Direction::Encrypt => Condition::DataLength,
        Direction::Decrypt => Condition::EncryptedDataLength,
    }
}

/// C_EncryptUpdate, C_DecryptUpdate.
pub(crate) fn update_function(direction: Direction) -> Function
    ensures { result ≡ update_function direction }
{
    match direction {
        Direction::Encrypt => Function::EncryptUpdate,
        Direction::Decrypt => Function::DecryptUpdate,
    }
}

/// C_Encrypt, C_Decrypt, or C_EncryptFinal, C_DecryptFinal where no data is given.
pub(crate) fn last_function(direction: Direction, all: &Option<Bytes>) -> Function
    ensures { result ≡ last_function direction all.now }
{
    match (direction, all) {
        (Direction::Encrypt, Some(_)) => Function::Encrypt,
        (Direction::Encrypt, None) => Function::EncryptFinal,
        (Direction::Decrypt, Some(_)) => Function::Decrypt,
        (Direction::Decrypt, None) => Function::DecryptFinal,
    }
}

/// C_SignUpdate, C_VerifyUpdate.
pub(crate) fn mac_update_function(place: MacPlace) -> Function
    ensures { result ≡ mac_update_function place }
{
    match place {
        MacPlace::Sign => Function::SignUpdate,
        MacPlace::Verify => Function::VerifyUpdate,
    }
}

/// C_Sign, or C_SignFinal where no data is given.
pub(crate) fn sign_function(all: &Option<Bytes>) -> Function
    ensures { result ≡ sign_function all.now }
{
    match all {
        Some(_) => Function::Sign,
        None => Function::SignFinal,
    }
}

/// C_Verify, or C_VerifyFinal where no data is given.
pub(crate) fn verify_function(all: &Option<Bytes>) -> Function
    ensures { result ≡ verify_function all.now }
{
    match all {
        Some(_) => Function::Verify,
        None => Function::VerifyFinal,
    }
}
