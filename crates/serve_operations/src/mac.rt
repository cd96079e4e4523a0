//! C_Sign, C_SignUpdate, C_SignFinal and C_Verify, C_VerifyUpdate, C_VerifyFinal (PKCS #11 v3.1, 5.2, 5.13 and 5.15).

ghost use Rattle.std.specs.Prelude.{◌≡◌, ◌<◌, ◌^◌, ◌==◌, IfOk, None, Some, if◌then◌else◌, length};
ghost use Rattle.ck_types.specs.declared.rv.Rv.TheVariants as rv;
ghost use Rattle.ck_calls.specs.declared.reply.Output.TheVariants.{Data};
ghost use Rattle.ck_calls.specs.declared.reply.Reply.TheVariants.{Code, Output as OutputReply};
ghost use Rattle.macs.specs.Tags.{tag_length};
ghost use Rattle.ops.specs.declared.place.MacPlace.TheVariants as places;
ghost use Rattle.ops.specs.Operations.{mac_of, table_with_mac};
ghost use Rattle.model_answers.specs.Mac.{mac_update, sign, verify};
ghost use Rattle.serve_base.specs.Refusing.{AtDesk};
ghost use Rattle.serve_base.specs.Shown.{IsFor, RepliesAtOnce, said_of};

use crate::data::{is_late, or_empty};
use crate::kinds::{end, mac_update_function, sign_function, verify_function};
use ck_calls::{Output, Reply};
use ck_types::{Bytes, Rv};
use desk::Desk;
use macs::Mac;
use mech::Work;
use ops::{Kind, MacPlace};
use precede::Condition;
use serve_base::{Out, Refusal, ask, ask_within};
use std::alloc::Global;

/// C_Sign with all data, and C_SignFinal with none (PKCS #11 v3.1, 5.13).
/// Codes: the checks of each (`precede`). Returns a job for the signature of the data. Without a buffer it returns the signature's
/// length, in bytes; with a short one `CKR_BUFFER_TOO_SMALL`; then the operation stays. All data after earlier data ends the operation.
pub fn sign(
    alloc: Global,
    app: u64,
    desk: &mut Desk,
    session: u64,
    all: Option<Bytes>,
    buffer_len: Option<u64>,
) -> Result<Out, Refusal>
    requires { desk.old.next_question < 2 ^ 63 }
    ensures serves { AtDesk said_of (λ v. sign v session all buffer_len) desk.old result desk.new }
    ensures asker { IfOk result (IsFor app) }
    ensures small { buffer_len ≡ None → RepliesAtOnce Refusal.Memory result }
{
    let kind = Kind::Mac(MacPlace::Sign);
    let _ = desk.state(session).ok_or(Condition::NoSession)?;
    let mac = desk
        .mac(session, MacPlace::Sign)
        .ok_or(Condition::NoOperation)?;
    if is_late(&all, mac.has_taken()) {
        return Ok(Out::Reply(end(desk, kind, session, Condition::DataTaken)));
    }
    let wanted = mac.mechanism().tag_len() as u64;
    let mac = mac.copied();
    let function = sign_function(&all);
    let input = or_empty(alloc, all);
    let work = Work::Sign { mac, input };
    Ok(ask_within(
        alloc, app, desk, function, session, work, wanted, buffer_len,
    )?)
}

/// C_Verify with all data, and C_VerifyFinal with none (PKCS #11 v3.1, 5.15).
/// Codes: the checks of each (`precede`). Returns a job that compares a signature with that of the data. All data after earlier data,
/// and a signature of another length than the mechanism's, ends the operation.
pub fn verify(
    alloc: Global,
    app: u64,
    desk: &mut Desk,
    session: u64,
    all: Option<Bytes>,
    signature: Bytes,
) -> Result<Out, Refusal>
    requires { desk.old.next_question < 2 ^ 63 }
    ensures serves { AtDesk said_of (λ v. verify v session all signature) desk.old result desk.new }
    ensures asker { IfOk result (IsFor app) }
{
    let kind = Kind::Mac(MacPlace::Verify);
    let _ = desk.state(session).ok_or(Condition::NoSession)?;
    let mac = desk
        .mac(session, MacPlace::Verify)
        .ok_or(Condition::NoOperation)?;
    if is_late(&all, mac.has_taken()) {
        return Ok(Out::Reply(end(desk, kind, session, Condition::DataTaken)));
    }
    if !has_its_length(mac, signature.as_slice()) {
        return Ok(Out::Reply(end(desk, kind, session, Condition::SignatureLength)));
    }
    let mac = mac.copied();
    let function = verify_function(&all);
    let input = or_empty(alloc, all);
    let work = Work::Verify {
        mac,
        input,
        signature,
    };
    Ok(Out::Ask(ask(alloc, app, desk, function, session, work)?))
}

/// C_SignUpdate, C_VerifyUpdate (PKCS #11 v3.1, 5.13 and 5.15).
/// Codes: the checks of C_SignUpdate and C_VerifyUpdate (`precede`). Returns a job that takes a part of any length.
pub fn update(
    alloc: Global,
    app: u64,
    desk: &mut Desk,
    place: MacPlace,
    session: u64,
    input: Bytes,
) -> Result<Out, Refusal>
    requires { desk.old.next_question < 2 ^ 63 }
    ensures serves { AtDesk said_of (λ v. mac_update place v session input) desk.old result desk.new }
    ensures asker { IfOk result (IsFor app) }
{
    let _ = desk.state(session).ok_or(Condition::NoSession)?;
    let mac = desk.mac(session, place).ok_or(Condition::NoOperation)?;
    let mac = mac.copied();
    let work = Work::Take { place, mac, input };
    Ok(Out::Ask(ask(alloc, app, desk, mac_update_function(place), session, work)?))
}

/// Whether a signature is as long as those of an operation.
fn has_its_length(mac: &Mac, signature: &[u8]) -> bool
    ensures { result ≡ (length signature.now == tag_length mac.now.mechanism) }
{
    signature.len() == mac.mechanism().tag_len()
}

/// A part was taken. The operation that has taken it continues.
pub fn update_done(desk: &mut Desk, session: u64, place: MacPlace, mac: Mac) -> Reply
    ensures reply { result ≡ Code rv.Ok }
    ensures left { desk.new ≡ record desk.old { sessions = table_with_mac desk.old.sessions session place (Some (mac_of mac)) } }
{
    desk.set_mac(session, place, Some(mac));
    Reply::Code(Rv::Ok)
}

/// The signature of all data. The operation ends.
pub fn sign_done(desk: &mut Desk, session: u64, signature: Bytes) -> Reply
    ensures reply { result ≡ OutputReply (Data signature) }
    ensures left { desk.new ≡ record desk.old { sessions = table_with_mac desk.old.sessions session places.Sign None } }
{
    desk.set_mac(session, MacPlace::Sign, None);
    Reply::Output(Output::Data(signature))
}

/// Whether the signature is that of all data; if not, `CKR_SIGNATURE_INVALID`. The operation ends.
pub fn verify_done(desk: &mut Desk, session: u64, right: bool) -> Reply
    ensures reply { result ≡ Code (if right then rv.Ok else rv.SignatureInvalid) }
    ensures left { desk.new ≡ record desk.old { sessions = table_with_mac desk.old.sessions session places.Verify None } }
{
    desk.set_mac(session, MacPlace::Verify, None);
    Reply::Code(if right { Rv::Ok } else { Rv::SignatureInvalid })
}
