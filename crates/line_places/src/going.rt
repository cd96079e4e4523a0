//! What a client does.

ghost use Rattle.std.specs.Prelude.{◌≡◌, ◌==◌, ◌<◌, [], length, not, true, false};
ghost use Rattle.line.specs.Permits.{Knows};
ghost use Rattle.line_places.specs.Coming.{ClientGave, IsShortNext, SameApp, Sent, ClientTakes, Went};
ghost use Rattle.line_places.specs.Permitting.{MayGoOn, MayTake};

use crate::client::Client;
use ck_calls::Reply;
use door::{Licence, Sink, Source};
use line::{Connection, Next, Words, accounts};
use lists::GhostList;
use std::alloc::Global;
use std::snapshot::Snapshot;
use watched::Watched;

impl<R, W> Client<R, W> {
    /// A client of the application of these words, of which nothing was read yet. Its calls get the words from these on.
    pub fn new(alloc: Global, reader: R, writer: W, words: Words) -> Client<R, W>
        ensures app { result.app ≡ words.stream }
        ensures first { result.first.value ≡ words }
        ensures asked { result.asked.items ≡ [] }
        ensures told { result.told.items ≡ [] }
        ensures idle { result.is_owed ≡ false }
        // Its ends are these, and nothing was read or written.
        ensures ends { (result.reader.inner ≡ reader) × (result.writer.inner ≡ writer) }
        ensures fresh { (result.connection.read ≡ []) × (result.connection.written ≡ []) }
    {
        accounts();
        let app = words.app();
        let first = Snapshot::of(&words);
        Client {
            reader: Watched::new(reader),
            writer: Watched::new(writer),
            connection: Connection::new(alloc, words),
            app,
            is_owed: false,
            first,
            asked: GhostList::new(),
            told: GhostList::new(),
        }
    }

    /// Whether bytes of replies are to be written yet.
    pub fn is_pending(&self) -> bool
        ensures { result ≡ not (length self.now.connection.pending == 0) }
    {
        self.connection.is_pending()
    }
}

impl<R: Source, W> Client<R, W> {
    /// The next call, as `line::Connection::next_call` returns it. Where its last call is owed a reply yet, nothing is read and
    /// nothing comes.
    pub fn next_call<L: Licence>(&mut self, alloc: Global, licence: &L, piece: &mut [u8]) -> Next
    where
        W: Sink<L>,
        requires room { 0 < length piece.old }
        requires may { MayGoOn R.given (L.allows licence.now) R.reading W.writing self.old }
        ensures same { SameApp self.old self.new }
        ensures gave { ClientGave self.old self.new result }
        ensures short { IsShortNext result }
        // It was read by its own reader, and what was to be written was by its own writer.
        ensures went { Went R.reading W.writing self.old self.new result }
        // What was read, its reader has given.
        ensures given { Knows R.given (R.reading self.old.reader.inner) (R.reading self.new.reader.inner) }
    {
        if self.is_owed {
            return Next::Nothing;
        }
        accounts();
        match self
            .connection
            .next_call(alloc, &mut self.reader, &mut self.writer, licence, piece)
        {
            Next::Call(call) => {
                self.is_owed = true;
                self.asked.push(&call);
                Next::Call(call)
            }
            Next::Nothing => Next::Nothing,
            Next::Ended(ending) => Next::Ended(ending),
        }
    }

    /// Takes the reply to its last call, and writes as much of it as its peer takes now. Where that fails, the connection ends.
    pub fn reply<L: Licence>(&mut self, alloc: Global, licence: &L, reply: &Reply)
    where
        W: Sink<L>,
        requires owed { self.old.is_owed ≡ true }
        requires may { MayTake (L.allows licence.now) W.writing self.old reply.now }
        ensures same { SameApp self.old self.new }
        ensures takes { ClientTakes self.old self.new reply.now }
        // It was written by its own writer.
        ensures sent { Sent W.writing self.old self.new reply.now }
    {
        accounts();
        self.connection
            .reply(alloc, &mut self.writer, licence, reply);
        self.told.push(reply);
        self.is_owed = false;
    }
}
