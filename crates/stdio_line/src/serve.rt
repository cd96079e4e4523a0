//! Answers the frames of a reader to a writer.

ghost use Rattle.std.specs.Prelude.{◌≡◌, ◌+◌, ◌≤◌, ◌∷◌, ℕ, [], length};
ghost use Rattle.ck_calls.specs.Need.{random_bytes};
ghost use Rattle.model_worlds.specs.Worlds.{World};
ghost use Rattle.token.specs.States.{HasIds, HasJobs, Shows, AccountsFor, MayLeave, blames};
ghost use Rattle.serve_base.specs.Short.{IsShort, IsShortCall};
ghost use Rattle.stdio_line.specs.Lines.{Calls, Finishes, LeadsAway, Moved};
ghost use Rattle.stdio_line.specs.Serve.{ReadsBy, Serves, WritesBy};
ghost use Rattle.stdio_line.specs.Parts.{Ends, IsFresh, block_at, fault_at, line_outcome};

use crate::fault::LineFault;
use ck_calls::{Call, Reply};
use door::{Free, Sink, Source};
use keep::Keep;
use line::{Connection, Ending, Next, Words};
use std::alloc::Global;
use std::mem;
use token::{Out, Token};
use watched::Watched;

/// How many bytes are read at once.
const PIECE_LEN: usize = 4096;

/// The reply to a call; the job that it returns is run at once.
fn answer_call<K: Keep>(
    alloc: Global,
    token: &mut Token<K>,
    app: u64,
    call: Call,
    random: Vec<u8>,
) -> Reply
    requires { length random.items ≡ random_bytes call }
    ensures moved { K.terms.doubt token.new.store.keep ≡ 0 → (w : World) → Shows K.terms token.old w → HasJobs w []
        → Moved (Shows K.terms token.new) (MayLeave K.terms token.old) (MayLeave K.terms token.new) w
        ((app, Calls call random.items) ∷ (app, Finishes) ∷ []) ((app, result) ∷ []) }
    ensures doubt { K.terms.doubt token.old.store.keep ≤ K.terms.doubt token.new.store.keep }
    ensures failures { K.terms.failures token.old.store.keep ≤ K.terms.failures token.new.store.keep }
    ensures accounts { AccountsFor (K.terms.failures token.old.store.keep) (K.terms.failures token.new.store.keep) (result ∷ []) }
    ensures ids { (count : ℕ) → HasIds K.terms token.old [] (count + 2) → (blames (result ∷ []) ≡ 0) × HasIds K.terms token.new [] count }
    // A call with data that fits into a frame has a reply that is as short.
    ensures short { IsShortCall call → IsShort result }
{
    match token.call(alloc, app, call, &random) {
        Out::Reply(reply) => reply,
        Out::Ask(job) => token.finish(alloc, app, job.run(alloc)),
    }
}

/// How a line ends whose connection ends so, after so many replies.
fn outcome(ending: Ending, count: u64) -> Result<u64, LineFault>
    ensures { result ≡ line_outcome ending count }
{
    match ending {
        Ending::Closed => Ok(count),
        Ending::Cut => Err(LineFault::Cut),
        Ending::TooLong => Err(LineFault::TooLong),
        Ending::Read(_) => Err(LineFault::Read),
        Ending::Write(_) => Err(LineFault::Write),
        Ending::Memory => Err(LineFault::Memory),
    }
}

/// Why a line ends at a connection that took a reply, if it does: it ended, or a write would block.
fn fault_now(connection: &Connection) -> Option<LineFault>
    ensures { result ≡ fault_at connection.now.ended connection.now.pending }
{
    match connection.ended() {
        Some(Ending::Write(_)) => Some(LineFault::Write),
        Some(_) => Some(LineFault::Memory),
        None => {
            if connection.is_pending() {
                Some(LineFault::Write)
            } else {
                None
            }
        }
    }
}

/// Why a line ends where nothing came: a write would block, or a read.
fn block_of(connection: &Connection) -> LineFault
    ensures { result ≡ block_at connection.now.pending }
{
    if connection.is_pending() {
        LineFault::Write
    } else {
        LineFault::Read
    }
}

/// Answers the calls of a connection of which nothing was read yet, as `serve_one` does, for an application that stays.
fn serve_calls<R: Source, W: Sink<Free>, K: Keep>(
    alloc: Global,
    reader: &mut Watched<R>,
    writer: &mut Watched<W>,
    token: &mut Token<K>,
    app: u64,
    connection: &mut Connection,
) -> Result<u64, LineFault>
    requires { IsFresh connection.old }
    ensures { Ends K.terms app token.old token.new connection.old.words connection.new.words R.reading W.writing reader.old reader.new
        writer.old writer.new result }
{
    let mut piece = [0u8; PIECE_LEN];
    'calls: for _turn in 0..u64::MAX {
        match connection.next_call(alloc, reader, writer, &Free, &mut piece) {
            Next::Call(asked) => {
                let reply = answer_call(alloc, token, app, asked.call, asked.random);
                connection.reply(alloc, writer, &Free, &reply);
                if let Some(fault) = fault_now(connection) {
                    return Err(fault);
                }
            }
            Next::Nothing => return Err(block_of(connection)),
            Next::Ended(ending) => return outcome(ending, connection.answered()),
        }
    }
    Err(LineFault::Memory)
}

/// Answers the frames of a reader, as `serve_one` does, for an application that stays. Its words are lent to a connection.
fn serve_frames<R: Source, W: Sink<Free>, K: Keep>(
    alloc: Global,
    reader: &mut Watched<R>,
    writer: &mut Watched<W>,
    token: &mut Token<K>,
    app: u64,
    words: &mut Words,
) -> Result<u64, LineFault>
    ensures { Ends K.terms app token.old token.new words.old words.new R.reading W.writing reader.old reader.new writer.old writer.new result }
{
    let own = mem::replace(words, Words::for_app([0; 32], app));
    let mut connection = Connection::new(alloc, own);
    let ended = serve_calls(alloc, reader, writer, token, app, &mut connection);
    *words = connection.into_words();
    ended
}

/// Answers the frames of a reader, for the application of `words`, until the reader ends. Each is answered as soon as it is
/// whole. It returns how many replies were written; that count stays at its greatest value. After any outcome the application
/// is disconnected.
///
/// What was written is the frames of the replies to the messages of what was read, in order. The parts in which the reader
/// gives and the writer takes don't matter. Each reply has a frame. The reply to a payload that is no call is
/// `CKR_ARGUMENTS_BAD`, and `CKR_FUNCTION_NOT_SUPPORTED` where it names no known function. Neither changes the token nor takes
/// random bytes. Each call takes the next of `words` that it needs, whether or not it succeeds, and is answered by the token.
///
/// # Errors
///
/// - `Read` only where the reader counts a failure; one that would block is one. A read that was interrupted is made again.
/// - `Write` only where the writer counts a failure, and after 2^64 - 1 writes of one frame, or as many flushes. A write that
///   would block is a failure. One that was interrupted is made again, and counts. The replies before the last were written, and
///   perhaps a part of the last.
/// - `TooLong` for a frame above the limit.
/// - `Cut` where the reader ends within a frame.
/// - `Memory` where an allocation failed, but for a call's own work, which then returns `CKR_HOST_MEMORY`. Perhaps the last
///   reply was not written, and a payload that was read is perhaps not answered. It comes too after 2^64 - 1 calls, and after as
///   many payloads and reads without a call.
///
/// No failure of the reader or the writer is passed over. At `Read`, `TooLong` and `Cut` the replies to
/// all whole frames before were written.
pub fn serve_one<R: Source, W: Sink<Free>, K: Keep>(
    alloc: Global,
    reader: &mut Watched<R>,
    writer: &mut Watched<W>,
    token: &mut Token<K>,
    words: &mut Words,
) -> Result<u64, LineFault>
    // No call is pending.
    requires { (w : World) → Shows K.terms token.old w → HasJobs w [] }
    // The bytes written are the frames of the replies to the messages of the bytes read. While the store is faithful, these are a
    // run of the token from each world that it refined. It refines the world after that, without the application.
    ensures serves { Serves (LeadsAway K.terms words.old.stream token.old token.new words.old words.new) (R.reading reader.old.inner)
        (R.reading reader.new.inner) (W.writing writer.old.inner) (W.writing writer.new.inner) result }
    // `Read` comes only where a read failed, and no failure is passed over.
    ensures reads { ReadsBy reader.old reader.new result }
    // `Write` comes only where a write or a flush failed, or after 2^64 - 1, and no failure is passed over. Else all that was written
    // was flushed.
    ensures writes { WritesBy writer.old writer.new result }
    // No call is pending.
    ensures idle { K.terms.doubt token.new.store.keep ≡ 0 → (v : World) → Shows K.terms token.old v → (w : World) → Shows K.terms token.new w → HasJobs w [] }
    // No fault of the disk is forgotten.
    ensures doubt { K.terms.doubt token.old.store.keep ≤ K.terms.doubt token.new.store.keep }
{
    let app = words.app();
    let ended = serve_frames(alloc, reader, writer, token, app, words);
    token.gone(app);
    ended
}
