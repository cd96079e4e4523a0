//! A connection: the frames of one application, the calls in them, and the replies to them.

ghost use Rattle.std.specs.Prelude.{◌≡◌, ◌==◌, ◌-◌, ◌^◌, ◌<◌, ◌++◌, [], None, Some, not, length, min};
ghost use Rattle.line.specs.declared.ending.Ending.{Ending as TheEnding};
ghost use Rattle.line.specs.declared.next.Next.TheVariants as next;
ghost use Rattle.line.specs.Words.{words_for};
ghost use Rattle.wire.specs.Stream.{IsPartial};
ghost use Rattle.line.specs.Connecting.{Comes, Flushes, Hears, Sends, standing};
ghost use Rattle.line.specs.Permits.{Knows, Permits, PermitsOn};
ghost use Rattle.line.specs.Turns.{reply_frame};
ghost use Rattle.serve_base.specs.Short.{IsShort};

use crate::asked::{Asked, Piece, Wrote};
use crate::ending::Ending;
use crate::front::asked_at;
use crate::next::Next;
use crate::outbox::Outbox;
use crate::take::{give_back, take_piece};
use crate::words::Words;
use ck_calls::Reply;
use door::{Licence, Sink, Source};
use keep::WriteCount as AnswerCount;
use lists::GhostBytes;
use std::alloc::Global;
use std::marker::Model;
use watched::Watched;
use wire::{FrameReader, WireFault};

/// A connection of one application: the frames that it sends, the calls in them, and the replies to them.
///
/// `next_call` returns a call, `reply` takes the reply to it, and so on in turn. Its reader and its writer are passed to each, the
/// same ones every time. They may be non-blocking: where a read would block, nothing has come, and where a write would block, the
/// rest is kept and written later. A flush that would block ends the connection.
///
/// Its view has the bytes that it holds, which were read and not consumed, and the words from the next on. It has all bytes that were
/// ever read and written, those that are pending, how many payloads were answered, and why it ended. `accounts` says what that
/// comes to over a whole connection.
///
/// No clause counts memory. A frame has at most 2^20 + 4 bytes. So a connection takes at most 4 MiB for what it reads and 2 MiB for
/// a reply. The calls that it returned take memory of their own. What a frame above 65,536 bytes took is given back: of a reply once
/// it is written, and of a call once no byte after it is held. Without such frames a connection takes less than 1/2 MiB, where at
/// most 32,768 bytes are read at once.
#[derive(Drop)]
pub struct Connection {
    frames: FrameReader,
    words: Words,
    out: Outbox,
    /// How many payloads were answered; at its greatest value the count stays.
    count: u64,
    answered: AnswerCount,
    /// A long frame was consumed since its memory was last given back.
    has_grown: bool,
    read: GhostBytes,
    /// Why nothing more is read or written.
    ended: Option<Ending>,
}

impl Model for Connection {
    ghost use Rattle.std.specs.Prelude.{◌≡◌, ◌-◌, ◌^◌, min, false};
    ghost use Rattle.line.specs.State.{Connected};

    ghost Value = { Connected };

    ghost view = { λ c. record {
      held = c.frames.bytes;
      words = c.words;
      read = c.read.bytes;
      written = c.out.written;
      pending = c.out.pending;
      answered = c.answered;
      ended = c.ended;
    } };

    ghost invariant = { λ c. (c.frames.failed ≡ false) × (c.count ≡ min c.answered (2 ^ 64 - 1)) };
}

impl Connection {
    /// A connection of which nothing was read yet. Its calls get the words from the next on: from the first, where `words` are
    /// those that `Words::for_app` returns.
    pub fn new(alloc: Global, words: Words) -> Connection
        ensures { result ≡ record { held = []; words = words; read = []; written = []; pending = []; answered = 0; ended = None } }
    {
        Connection {
            frames: FrameReader::new(alloc),
            words,
            out: Outbox::new(alloc),
            count: 0,
            answered: AnswerCount::new(),
            has_grown: false,
            read: GhostBytes::new(),
            ended: None,
        }
    }

    /// Why it ended, if it has.
    pub fn ended(&self) -> Option<Ending>
        ensures { result ≡ self.now.ended }
    {
        self.ended
    }

    /// Whether bytes of replies are to be written yet.
    pub fn is_pending(&self) -> bool
        ensures { result ≡ not (length self.now.pending == 0) }
    {
        !self.out.is_empty()
    }

    /// How many payloads were answered; at its greatest value the count stays.
    pub fn answered(&self) -> u64
        ensures { result ≡ min self.now.answered (2 ^ 64 - 1) }
    {
        self.count
    }

    /// The random bytes of its application, from the next on.
    pub fn into_words(self) -> Words
        ensures { result ≡ self.words }
    {
        self.words
    }

    /// The next call of the application, with the next of its words.
    ///
    /// First what is pending is written, and where that would block, nothing comes. Then payloads at the front that are no calls
    /// are answered, each as soon as it is whole: `CKR_ARGUMENTS_BAD`, or `CKR_FUNCTION_NOT_SUPPORTED` where no function is known
    /// by the number. They take no words. Bytes are read where no whole frame is held, at most as many at once as `piece` has.
    ///
    /// # Outcomes
    ///
    /// - `Call`: all that was to be written is written and flushed, and the call is owed a reply.
    /// - `Nothing`: a write would block, where `is_pending` then holds, or else a read.
    /// - `Ended`: why the connection ended, now or at an earlier call. Then nothing is read or written any more.
    ///
    /// The reader and the writer count a failure where a read, a write or a flush would block or failed. No failure is passed over.
    /// One that was interrupted is made again, and writes and flushes of one frame up to 2^64 - 1 times.
    pub fn next_call<L: Licence, R: Source, W: Sink<L>>(
        &mut self,
        alloc: Global,
        reader: &mut Watched<R>,
        writer: &mut Watched<W>,
        licence: &L,
        piece: &mut [u8],
    ) -> Next
        requires room { 0 < length piece.old }
        // What is to be written may be, and the refusals of what is no call.
        requires may { self.old.ended ≡ None → PermitsOn R.given (L.allows licence.now) (R.reading reader.old.inner)
            (W.writing writer.old.inner) self.old }
        // A connection that ended stays so.
        ensures over { (why : TheEnding) → self.old.ended ≡ Some why → (result ≡ next.Ended why) × (self.new ≡ self.old)
            × (reader.new ≡ reader.old) × (writer.new ≡ writer.old) }
        // What was read, its reader has given.
        ensures given { Knows R.given (R.reading reader.old.inner) (R.reading reader.new.inner) }
        ensures comes { self.old.ended ≡ None → Comes R.reading W.writing reader.old reader.new writer.old writer.new self.old self.new (Some result) }
    {
        if let Some(ending) = self.ended {
            return Next::Ended(ending);
        }
        self.come(alloc, reader, writer, licence, piece)
    }

    /// Takes a reply, and writes its frame after all that is pending, as much as the writer takes. Once all is written, the writer
    /// is flushed. Of a connection that ended nothing is written.
    ///
    /// It ends where a write or a flush failed (`Write`), or there was no memory for the frame (`Memory`); then nothing of the reply is
    /// written. A short reply has a frame.
    pub fn reply<L: Licence, W: Sink<L>>(
        &mut self,
        alloc: Global,
        writer: &mut Watched<W>,
        licence: &L,
        reply: &Reply,
    )
        requires short { self.old.ended ≡ None → IsShort reply.now }
        // What is to be written may be, and the reply.
        requires may { self.old.ended ≡ None → Permits (L.allows licence.now) (W.writing writer.old.inner)
            (self.old.pending ++ reply_frame reply.now) }
        ensures over { (why : TheEnding) → self.old.ended ≡ Some why → (self.new ≡ self.old) × (writer.new ≡ writer.old) }
        ensures sends { self.old.ended ≡ None → Sends W.writing writer.old writer.new self.old self.new reply.now }
    {
        if self.ended.is_none() {
            self.answer(alloc, writer, licence, reply);
        }
    }

    /// The next call of a connection that has not ended.
    fn come<L: Licence, R: Source, W: Sink<L>>(
        &mut self,
        alloc: Global,
        reader: &mut Watched<R>,
        writer: &mut Watched<W>,
        licence: &L,
        piece: &mut [u8],
    ) -> Next
        requires room { 0 < length piece.old }
        requires going { self.old.ended ≡ None }
        requires on { PermitsOn R.given (L.allows licence.now) (R.reading reader.old.inner)
            (W.writing writer.old.inner) self.old }
        ensures comes { Comes R.reading W.writing reader.old reader.new writer.old writer.new self.old self.new (Some result) }
        ensures given { Knows R.given (R.reading reader.old.inner) (R.reading reader.new.inner) }
    {
        self.write_out(alloc, writer, licence);
        if let Some(next) = self.standing() {
            return next;
        }
        'steps: for _turn in 0..u64::MAX {
            if let Some(next) = self.step(alloc, reader, writer, licence, piece) {
                return next;
            }
        }
        self.end(Ending::Memory);
        Next::Ended(Ending::Memory)
    }

    /// One payload, or one read.
    fn step<L: Licence, R: Source, W: Sink<L>>(
        &mut self,
        alloc: Global,
        reader: &mut Watched<R>,
        writer: &mut Watched<W>,
        licence: &L,
        piece: &mut [u8],
    ) -> Option<Next>
        requires room { 0 < length piece.old }
        requires going { self.old.ended ≡ None }
        requires clear { self.old.pending ≡ [] }
        requires on { PermitsOn R.given (L.allows licence.now) (R.reading reader.old.inner)
            (W.writing writer.old.inner) self.old }
        ensures comes { Comes R.reading W.writing reader.old reader.new writer.old writer.new self.old self.new result }
        ensures given { Knows R.given (R.reading reader.old.inner) (R.reading reader.new.inner) }
    {
        match asked_at(
            alloc,
            &mut self.frames,
            &mut self.words,
            &mut self.has_grown,
        ) {
            Asked::Call(call) => Some(Next::Call(call)),
            Asked::Refused(reply) => {
                self.answer(alloc, writer, licence, &reply);
                self.standing()
            }
            Asked::Lacking => self.read_piece(alloc, reader, piece),
            Asked::TooLong => {
                self.end(Ending::TooLong);
                Some(Next::Ended(Ending::TooLong))
            }
            Asked::Memory => {
                self.end(Ending::Memory);
                Some(Next::Ended(Ending::Memory))
            }
        }
    }

    /// One read, where what is held is less than a frame.
    fn read_piece<R: Source>(
        &mut self,
        alloc: Global,
        reader: &mut Watched<R>,
        piece: &mut [u8],
    ) -> Option<Next>
        requires room { 0 < length piece.old }
        requires going { self.old.ended ≡ None }
        requires clear { self.old.pending ≡ [] }
        requires partial { IsPartial self.old.held }
        ensures hears { Hears R.reading reader.old reader.new self.old self.new result }
        ensures given { Knows R.given (R.reading reader.old.inner) (R.reading reader.new.inner) }
    {
        give_back(alloc, &mut self.frames, &mut self.has_grown);
        match take_piece(reader, &mut self.read, &mut self.frames, piece) {
            Piece::More => None,
            Piece::Nothing => Some(Next::Nothing),
            Piece::Ended(ending) => {
                self.end(ending);
                Some(Next::Ended(ending))
            }
        }
    }

    /// What comes before a payload: an end, or a wait until the writer takes more.
    fn standing(&self) -> Option<Next>
        ensures { result ≡ standing self.now.ended self.now.pending }
    {
        if let Some(ending) = self.ended {
            return Some(Next::Ended(ending));
        }
        if self.out.is_empty() {
            None
        } else {
            Some(Next::Nothing)
        }
    }

    fn end(&mut self, ending: Ending)
        ensures { self.new ≡ record self.old { ended = Some ending } }
    {
        self.ended = Some(ending);
    }

    /// Takes a reply of a connection that has not ended.
    fn answer<L: Licence, W: Sink<L>>(
        &mut self,
        alloc: Global,
        writer: &mut Watched<W>,
        licence: &L,
        reply: &Reply,
    )
        requires going { self.old.ended ≡ None }
        requires short { IsShort reply.now }
        requires may { Permits (L.allows licence.now) (W.writing writer.old.inner)
            (self.old.pending ++ reply_frame reply.now) }
        ensures { Sends W.writing writer.old writer.new self.old self.new reply.now }
    {
        match self.out.queue(alloc, reply) {
            Ok(()) => {
                self.count = self.count.saturating_add(1);
                self.answered.add();
                self.write_out(alloc, writer, licence);
            }
            Err(fault) => match fault {
                WireFault::Memory => self.ended = Some(Ending::Memory),
                _ => unreachable!(),
            },
        }
    }

    /// Writes what is pending of a connection that has not ended.
    fn write_out<L: Licence, W: Sink<L>>(
        &mut self,
        alloc: Global,
        writer: &mut Watched<W>,
        licence: &L,
    )
        requires going { self.old.ended ≡ None }
        requires may { Permits (L.allows licence.now) (W.writing writer.old.inner) self.old.pending }
        ensures { Flushes W.writing writer.old writer.new self.old self.new }
    {
        if self.out.is_empty() {
            return;
        }
        if let Wrote::Failed(error) = self.out.send(alloc, writer, licence) {
            self.ended = Some(Ending::Write(error));
        }
    }
}
