//! C_Encrypt, C_EncryptUpdate, C_EncryptFinal and C_Decrypt, C_DecryptUpdate, C_DecryptFinal (PKCS #11 v3.1, 5.2, 5.8 and
//! 5.10).

ghost use Rattle.std.specs.Prelude.{◌≡◌, ◌<◌, ◌^◌, IfOk, None, Some};
ghost use Rattle.ck_calls.specs.declared.reply.Output.TheVariants.{Data};
ghost use Rattle.ck_calls.specs.declared.reply.Reply.TheVariants.{Code, Output as OutputReply};
ghost use Rattle.ops.specs.Operations.{operation_of, table_with_operation};
ghost use Rattle.ck_types.specs.declared.rv.Rv.TheVariants as rv;
ghost use Rattle.model_answers.specs.Cipher.{cipher_last, cipher_update};
ghost use Rattle.model_answers.specs.CipherInit.{place_for};
ghost use Rattle.serve_base.specs.Refusing.{AtDeskIf};
ghost use Rattle.serve_base.specs.Short.{IsShortData};
ghost use Rattle.serve_base.specs.Shown.{IsFor, RepliesAtOnce, said_of};
ghost use Rattle.serve_operations.specs.Steps.{IsShortLast};

use crate::data::{is_late, or_empty};
use crate::kinds::{end, last_function, place_for, refused_row, update_function};
use aes_modes::Direction;
use ck_calls::{Output, Reply};
use ck_types::{Bytes, Rv};
use desk::Desk;
use mech::Work;
use ops::Kind;
use precede::Condition;
use serve_base::{Out, Refusal, ask_within};
use std::alloc::Global;
use streams::{Part, Stream};

/// C_EncryptUpdate, C_DecryptUpdate (PKCS #11 v3.1, 5.8 and 5.10).
/// Codes: the checks of C_EncryptUpdate and C_DecryptUpdate (`precede`). Returns a job for what a part of any length adds to the output.
/// Without a buffer it returns the length of that, in bytes; with a short one `CKR_BUFFER_TOO_SMALL`. Where the mechanism has no counter
/// for each block the operation ends.
pub fn update(
    alloc: Global,
    app: u64,
    desk: &mut Desk,
    direction: Direction,
    session: u64,
    input: Bytes,
    buffer_len: Option<u64>,
) -> Result<Out, Refusal>
    requires { desk.old.next_question < 2 ^ 63 }
    ensures serves { AtDeskIf (IsShortData input buffer_len) said_of (λ v. cipher_update direction v session input buffer_len) desk.old result desk.new }
    ensures asker { IfOk result (IsFor app) }
    ensures small { buffer_len ≡ None → RepliesAtOnce Refusal.Memory result }
{
    let kind = Kind::Cipher(direction);
    let _ = desk.state(session).ok_or(Condition::NoSession)?;
    let operation = desk
        .operation(session, place_for(direction))
        .ok_or(Condition::NoOperation)?;
    let Ok(wanted) = operation.output_len(Part::Update, input.as_slice()) else {
        return Ok(Out::Reply(end(desk, kind, session, Condition::CounterEnd)));
    };
    let stream = operation.copied();
    let work = Work::Cipher {
        stream,
        part: Part::Update,
        input,
    };
    Ok(ask_within(
        alloc,
        app,
        desk,
        update_function(direction),
        session,
        work,
        wanted as u64,
        buffer_len,
    )?)
}

/// C_Encrypt, C_Decrypt with all data, and C_EncryptFinal, C_DecryptFinal with none (PKCS #11 v3.1, 5.8 and 5.10).
/// Codes: the checks of each (`precede`). Returns a job for the output of the data, or for the final part of the output. Without a
/// buffer it returns the length of that, in bytes; with a short one `CKR_BUFFER_TOO_SMALL`; then the operation stays. All data after
/// earlier data, and data that is no text of the mechanism, ends the operation.
pub fn serve_final(
    alloc: Global,
    app: u64,
    desk: &mut Desk,
    direction: Direction,
    session: u64,
    all: Option<Bytes>,
    buffer_len: Option<u64>,
) -> Result<Out, Refusal>
    requires { desk.old.next_question < 2 ^ 63 }
    ensures serves { AtDeskIf (IsShortLast all buffer_len) said_of (λ v. cipher_last direction v session all buffer_len) desk.old result desk.new }
    ensures asker { IfOk result (IsFor app) }
    ensures small { buffer_len ≡ None → RepliesAtOnce Refusal.Memory result }
{
    let kind = Kind::Cipher(direction);
    let _ = desk.state(session).ok_or(Condition::NoSession)?;
    let operation = desk
        .operation(session, place_for(direction))
        .ok_or(Condition::NoOperation)?;
    if is_late(&all, operation.has_taken()) {
        return Ok(Out::Reply(end(desk, kind, session, Condition::DataTaken)));
    }
    let function = last_function(direction, &all);
    let input = or_empty(alloc, all);
    let wanted = match operation.output_len(Part::Last, input.as_slice()) {
        Ok(wanted) => wanted as u64,
        Err(fault) => {
            let row = refused_row(direction, fault);
            return Ok(Out::Reply(end(desk, kind, session, row)));
        }
    };
    let stream = operation.copied();
    let work = Work::Cipher {
        stream,
        part: Part::Last,
        input,
    };
    Ok(ask_within(
        alloc, app, desk, function, session, work, wanted, buffer_len,
    )?)
}

/// What a part adds to the output. The operation that has taken it continues.
pub fn update_done(desk: &mut Desk, session: u64, output: Bytes, stream: Stream) -> Reply
    ensures reply { result ≡ OutputReply (Data output) }
    ensures left { desk.new ≡ record desk.old {
      sessions = table_with_operation desk.old.sessions session (place_for stream.direction)
          (Some (operation_of stream));
    } }
{
    let place = place_for(stream.direction());
    desk.set_operation(session, place, Some(stream));
    Reply::Output(Output::Data(output))
}

/// The final part of the output. The operation ends.
pub fn final_done(desk: &mut Desk, session: u64, direction: Direction, output: Bytes) -> Reply
    ensures reply { result ≡ OutputReply (Data output) }
    ensures left { desk.new ≡ record desk.old { sessions = table_with_operation desk.old.sessions session (place_for direction) None } }
{
    desk.set_operation(session, place_for(direction), None);
    Reply::Output(Output::Data(output))
}

/// The padding is wrong: `CKR_ENCRYPTED_DATA_INVALID`. The operation ends.
pub fn bad_padding(desk: &mut Desk, session: u64, direction: Direction) -> Reply
    ensures reply { result ≡ Code rv.EncryptedDataInvalid }
    ensures left { desk.new ≡ record desk.old { sessions = table_with_operation desk.old.sessions session (place_for direction) None } }
{
    desk.set_operation(session, place_for(direction), None);
    Reply::Code(Rv::EncryptedDataInvalid)
}
