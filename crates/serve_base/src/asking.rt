//! Jobs of a call.

ghost use Rattle.std.specs.Prelude.{◌≡◌, ℕ, ◌<◌, ◌^◌, IfErr, IfOk, IsTrue, None, Some, length};
ghost use Rattle.desk.specs.Desks.{with_question};
ghost use Rattle.keep.specs.Contents.{Contents};
ghost use Rattle.desk.specs.Jobs.{is_runnable};
ghost use Rattle.ck_calls.specs.declared.reply.Output.TheVariants.{Length};
ghost use Rattle.ck_calls.specs.declared.reply.Reply.TheVariants.{Output as OutputReply};
ghost use Rattle.serve_base.specs.declared.out.Out.TheVariants.{Ask, Reply as OutReply};
ghost use Rattle.serve_base.specs.Asking.{asks_within};
ghost use Rattle.serve_base.specs.Short.{IsShortSaid, IsShortTask};
ghost use Rattle.serve_base.specs.Shown.{Fits, GivesAnswer, IsFor, question_of, said_of, task_of, view_of};

use crate::out::Out;
use ck_calls::{Function, Output, Reply};
use desk::Desk;
use mech::{Job, Work};
use std::alloc::{AllocError, Global};

/// The job of a call, with the next number. It allocates.
pub fn new_job(
    alloc: Global,
    app: u64,
    desk: &Desk,
    function: Function,
    session: u64,
    work: Work,
) -> Result<Job, AllocError>
    requires { IsTrue (is_runnable work) }
    ensures asker { IfOk result (λ job. job.app ≡ app) }
    ensures question { IfOk result (λ job. question_of job ≡ record {
      number = desk.now.next_question;
      function = function;
      session = session;
      task = task_of work;
    }) }
    ensures short { IsShortTask (task_of work) → IfOk result (λ job. IsShortSaid (said_of (Ask job))) }
{
    Job::new(alloc, app, desk.next_question(), function, session, work)
}

/// Makes a call pending, and returns the job that answers it. It allocates; where an allocation fails no call is pending.
pub fn ask(
    alloc: Global,
    app: u64,
    desk: &mut Desk,
    function: Function,
    session: u64,
    work: Work,
) -> Result<Job, AllocError>
    requires below { desk.old.next_question < 2 ^ 63 }
    requires runnable { IsTrue (is_runnable work) }
    ensures asker { IfOk result (λ job. job.app ≡ app) }
    ensures question { IfOk result (λ job. question_of job ≡ record {
      number = desk.old.next_question;
      function = function;
      session = session;
      task = task_of work;
    }) }
    ensures asked { IfOk result (λ job. desk.new ≡ with_question desk.old job) }
    ensures refused { IfErr result (λ error. desk.new ≡ desk.old) }
    ensures short { IsShortTask (task_of work) → IfOk result (λ job. IsShortSaid (said_of (Ask job))) }
{
    let job = new_job(alloc, app, desk, function, session, work)?;
    desk.ask(&job);
    Ok(job)
}

/// Returns a job where the output buffer has the length `wanted`, in bytes; else returns that length, and the operation
/// stays. With the job it allocates; where an allocation fails no call is pending.
pub fn ask_within(
    alloc: Global,
    app: u64,
    desk: &mut Desk,
    function: Function,
    session: u64,
    work: Work,
    wanted: u64,
    buffer_len: Option<u64>,
) -> Result<Out, AllocError>
    requires below { desk.old.next_question < 2 ^ 63 }
    requires runnable { IsTrue (is_runnable work) }
    ensures gives { (c : Contents) → Fits c desk.old.handles.entries
        → IfOk result
        (λ out. GivesAnswer (asks_within function session (task_of work) wanted buffer_len (view_of c desk.old)) desk.old.sessions.login c
        (said_of out) c desk.new) }
    ensures asker { IfOk result (IsFor app) }
    ensures refused { IfErr result (λ error. desk.new ≡ desk.old) }
    ensures length { buffer_len ≡ None → result ≡ Ok (OutReply (OutputReply (Length wanted))) }
    ensures short { ((n : ℕ) → buffer_len ≡ Some n → IsShortTask (task_of work)) → IfOk result (λ out. IsShortSaid (said_of out)) }
{
    let Some(buffer_len) = buffer_len else {
        return Ok(Out::Reply(Reply::Output(Output::Length(wanted))));
    };
    if buffer_len < wanted {
        return Ok(Out::Reply(Reply::BufferTooSmall(wanted)));
    }
    Ok(Out::Ask(ask(alloc, app, desk, function, session, work)?))
}

/// The 16 random bytes of a call.
pub fn random_block(random: &[u8]) -> [u8; 16]
    requires { length random.now ≡ 16 }
    ensures { result ≡ random.now }
{
    let mut block = [0; 16];
    block.copy_from_slice(random);
    block
}
