//! The result of a pending call, at its desk: the one place where an outcome finds the function that takes it.

ghost use Rattle.std.specs.Prelude.{◌≡◌};
ghost use Rattle.desk.specs.Desks.{over};
ghost use Rattle.model_runs.specs.Applications.{Finishes, reveal_by_job};
ghost use Rattle.token.specs.Endings.{OutcomeEndsBy, settled_reply, under_way_of};

use ck_calls::{Output, Reply};
use ck_types::{Rv, UserType};
use desk::Desk;
use keep::Keep;
use mech::{Done, Outcome};
use model_views::Fault;
use serve_base::{Refusal, Store};
use serve_keys::unwrap_key;
use serve_operations::{cipher, mac};
use serve_sessions::{init_pin, init_token, login, set_pin};

/// What the other applications have in progress.
#[derive(Clone, Copy, Debug)]
pub(crate) struct Others {
    /// How many of them check the SO's PIN, and the user's.
    pub so_checks: usize,
    pub user_checks: usize,
    /// Whether one has a session.
    pub others_have_sessions: bool,
}

impl Others {
    fn checks(&self, who: UserType) -> usize
        ensures { result ≡ under_way_of self.now who }
    {
        match who {
            UserType::So => self.so_checks,
            UserType::User => self.user_checks,
        }
    }
}

/// The result of the pending call, which is pending no more.
pub(crate) fn finish_at<K: Keep>(
    desk: &mut Desk,
    store: &mut Store<K>,
    done: Done,
    others: &Others,
) -> Result<Reply, Fault>
    ensures { Finishes K.terms done.job.value
        (reveal_by_job done.job.value (under_way_of others.now) others.now.others_have_sessions) store.old store.new desk.old result desk.new }
{
    let session = match desk.question() {
        Some(question) => question.session(),
        None => return Ok(Reply::Code(Rv::FunctionFailed)),
    };
    desk.end_question();
    match done.into_outcome() {
        Ok(outcome) => settle_reply(serve_outcome(desk, store, session, outcome, others)),
        Err(_) => Err(Fault::Memory),
    }
}

/// The outcome of a call that is pending no more.
fn serve_outcome<K: Keep>(
    desk: &mut Desk,
    store: &mut Store<K>,
    session: u64,
    outcome: Outcome,
    others: &Others,
) -> Result<Reply, Refusal>
    requires { over desk.old ≡ desk.old }
    ensures { OutcomeEndsBy K.terms session outcome others.now store.old store.new desk.old result desk.new }
{
    match outcome {
        // Encryption and decryption (PKCS #11 v3.1, 5.8 and 5.10).
        Outcome::Piece { output, stream } => Ok(cipher::update_done(desk, session, output, stream)),
        Outcome::Rest { direction, output } => Ok(cipher::final_done(
            desk, session, direction, output,
        )),
        Outcome::BadPadding(direction) => Ok(cipher::bad_padding(desk, session, direction)),
        // Signing and verifying (5.13 and 5.15).
        Outcome::Taken { place, mac } => Ok(mac::update_done(desk, session, place, mac)),
        Outcome::Signature(signature) => Ok(mac::sign_done(desk, session, signature)),
        Outcome::RightSignature => Ok(mac::verify_done(desk, session, true)),
        Outcome::WrongSignature => Ok(mac::verify_done(desk, session, false)),
        // Key management (5.18).
        Outcome::Wrapped(bytes) => Ok(Reply::Output(Output::Data(bytes))),
        Outcome::Unwrapped(object) => unwrap_key::unwrapped(desk, store, session, object),
        Outcome::BadWrapping => Err(Refusal::Code(Rv::WrappedKeyInvalid)),
        // PINs (5.5 and 5.6).
        Outcome::WrongPin => Err(Refusal::Code(Rv::PinIncorrect)),
        Outcome::RightPin(who) => login::log_in(desk, store, who, others.checks(who)),
        Outcome::PinMade(verifier) => init_pin::store_pin(
            desk,
            store,
            verifier,
            others.user_checks,
        ),
        Outcome::PinChanged { who, verifier } => {
            set_pin::store_pin(desk, store, who, verifier, others.checks(who))
        }
        Outcome::TokenMade { label, verifier } => {
            init_token::initialize(desk, store, label, verifier, others.others_have_sessions)
        }
        Outcome::TokenReset { label } => {
            init_token::reinitialize(
                desk,
                store,
                label,
                others.so_checks,
                others.others_have_sessions,
            )
        }
    }
}

/// What is returned at the end of a pending call.
fn settle_reply(outcome: Result<Reply, Refusal>) -> Result<Reply, Fault>
    ensures { result ≡ settled_reply outcome }
{
    match outcome {
        Ok(reply) => Ok(reply),
        Err(refusal) => Ok(Reply::Code(refusal.code()?)),
    }
}
