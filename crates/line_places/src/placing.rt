//! What becomes of the clients of one worker.

ghost use Rattle.std.specs.Prelude.{◌≡◌, ◌<◌, ◌≤◌, ◌∷◌, [], ◌++◌, length, ℕ, IfOk, IfSome, IfNone, IsTrue, IsFalse};
ghost use Rattle.line_places.specs.declared.places.TheConstants.{MAX_CLIENTS};
ghost use Rattle.line_places.specs.Arriving.{HasCome, IsNext, KeepsCome, OthersStay};
ghost use Rattle.line_places.specs.Coming.{IsShortNext};
ghost use Rattle.line_places.specs.Happening.{Closes, ClientComes, PlaceGives, PlacesAreQuiet, SameWorker, SentAt, WentAt};
ghost use Rattle.line_places.specs.Keeping.{IsClientAt, IsFree, IsOwed};
ghost use Rattle.line_places.specs.Permitting.{MayGoOnAt, MayTakeAt};
ghost use Rattle.line_places.specs.Tying.{AreEndsOf, StaysTied};

use crate::client::Client;
use crate::place::Place;
use crate::places::Places;
use ck_calls::Reply;
use door::{Licence, Sink, Source, Taker};
use line::{Next, Words};
use lists::GhostList;
use std::alloc::{AllocError, Global};

/// How many clients a place has at most, one after the other, so that no application's number is above 2^64.
const TURNS: u64 = 1 << 55;

impl<R: Drop, W: Drop> Places<R, W> {
    /// The places of the worker with a number from 0 to 3, with no client. There are 1 to `MAX_CLIENTS`.
    pub fn new(
        alloc: Global,
        seed: [u8; 32],
        number: u64,
        count: usize,
    ) -> Result<Places<R, W>, AllocError>
        requires number { number < 4 }
        requires count { count ≤ MAX_CLIENTS }
        ensures worker { IfOk result (λ p. (p.seed ≡ seed) × (p.number ≡ number) × (length p.places.items ≡ count)) }
        ensures none { IfOk result (λ p. (p.past.items ≡ []) × (p.asked.items ≡ []) × (p.told.items ≡ [])) }
        ensures empty { IfOk result (λ p. (j : ℕ) (c : Client R W) → ¬ IsClientAt p.places.items j c) }
    {
        let mut places = Vec::with_capacity(alloc, count)?;
        'places: for place in 0..count {
            let _ = place;
            places.push(Place {
                turn: 0,
                client: None,
            })?;
        }
        Ok(Places {
            seed,
            number,
            places,
            past: GhostList::new(),
            asked: GhostList::new(),
            told: GhostList::new(),
        })
    }

    /// How many places there are.
    pub fn len(&self) -> usize
        ensures { result ≡ length self.now.places.items }
    {
        self.places.len()
    }

    /// Whether a client may come to a place: nobody is there, and fewer than 2^55 clients were.
    pub fn is_free(&self, place: usize) -> bool
        ensures free { IsTrue result → IsFree self.now.places.items place }
        ensures taken { IsFalse result → ¬ IsFree self.now.places.items place }
    {
        self.next_app(place).is_some()
    }

    /// The application of the client that comes next to a place, where one may come.
    pub fn next_app(&self, place: usize) -> Option<u64>
        ensures next { IfSome result (λ app. IsNext self.now.number self.now.places.items place app) }
        ensures none { IfNone result (¬ IsFree self.now.places.items place) }
    {
        if place >= self.places.len() {
            return None;
        }
        let count = self.places.len() as u64;
        let it = &self.places[place];
        let turn = it.turn;
        if turn >= TURNS {
            return None;
        }
        let None = &it.client else {
            return None;
        };
        Some(self.number + 4 * (place as u64 + count * turn))
    }

    /// The client at a place, if there is one.
    pub fn client(&self, place: usize) -> Option<&Client<R, W>>
        ensures there { IfSome result (λ c. IsClientAt self.now.places.items place c.now) }
        ensures nobody { IfNone result ((c : Client R W) → ¬ IsClientAt self.now.places.items place c) }
    {
        match self.places.get(place) {
            Some(it) => it.client.as_ref(),
            None => None,
        }
    }
}

impl<R: Source + Drop, W: Taker + Drop> Places<R, W> {
    /// Nobody comes to a place that is free, and its next application never does. Elsewhere nothing is done.
    pub fn pass(&mut self, place: usize)
        ensures same { SameWorker self.old self.new }
        ensures quiet { PlacesAreQuiet self.old self.new }
        ensures past { self.new.past.items ≡ self.old.past.items }
        ensures passes { (app : ℕ) → IsNext self.old.number self.old.places.items place app → HasCome self.new.number self.new.places.items app }
        ensures still { KeepsCome self.old self.new }
        ensures others { OthersStay self.old self.new place }
        // As before, who is there or was has read and written by ends of its own.
        ensures tied { StaysTied R.given R.reading W.writing self.old self.new }
    {
        if self.next_app(place).is_none() {
            return;
        }
        let turn = self.places[place].turn + 1;
        self.places[place] = Place { turn, client: None };
    }

    /// A client comes to a place that is free, of that place's next application. Its reader and its writer are those of its
    /// connection. Where the place is not free, they are dropped.
    pub fn open(&mut self, alloc: Global, place: usize, reader: R, writer: W)
        ensures same { SameWorker self.old self.new }
        ensures quiet { PlacesAreQuiet self.old self.new }
        ensures past { self.new.past.items ≡ self.old.past.items }
        ensures comes { IsFree self.old.places.items place → ClientComes self.old self.new place }
        ensures refused { ¬ IsFree self.old.places.items place → self.new ≡ self.old }
        ensures come { (app : ℕ) → IsNext self.old.number self.old.places.items place app → HasCome self.new.number self.new.places.items app }
        ensures still { KeepsCome self.old self.new }
        ensures others { OthersStay self.old self.new place }
        // With ends of the next application, who is there or was has read and written by ends of its own.
        ensures tied { (app : ℕ) → IsNext self.old.number self.old.places.items place app → AreEndsOf app (R.reading reader) (W.writing writer)
            → StaysTied R.given R.reading W.writing self.old self.new }
    {
        let Some(app) = self.next_app(place) else {
            return;
        };
        let turn = self.places[place].turn;
        let words = Words::for_app(self.seed, app);
        self.places[place] = Place {
            turn,
            client: Some(Client::new(alloc, reader, writer, words)),
        };
    }

    /// The client at a place is there no more. Its application, if a client was there.
    pub fn close(&mut self, place: usize) -> Option<u64>
        ensures same { SameWorker self.old self.new }
        ensures quiet { PlacesAreQuiet self.old self.new }
        ensures closes { Closes self.old self.new place result }
        ensures nobody { IfNone result ((c : Client R W) → ¬ IsClientAt self.old.places.items place c) }
        ensures still { KeepsCome self.old self.new }
        ensures others { OthersStay self.old self.new place }
        // As before, who is there or was has read and written by ends of its own.
        ensures tied { StaysTied R.given R.reading W.writing self.old self.new }
    {
        if place >= self.places.len() {
            return None;
        }
        let it = &mut self.places[place];
        let Some(client) = it.client.take() else {
            return None;
        };
        it.turn += 1;
        let app = client.app;
        self.past.push(&client);
        drop(client);
        Some(app)
    }

    /// The next call of the client at a place, as `Client::next_call` returns it. `Nothing` where there is no client.
    pub fn next_call<L: Licence>(
        &mut self,
        alloc: Global,
        place: usize,
        licence: &L,
        piece: &mut [u8],
    ) -> Next
    where
        W: Sink<L>,
        requires room { 0 < length piece.old }
        requires may { MayGoOnAt R.given (L.allows licence.now) R.reading W.writing self.old.places.items place }
        ensures same { SameWorker self.old self.new }
        ensures past { self.new.past.items ≡ self.old.past.items }
        ensures gives { PlaceGives self.old self.new place result }
        ensures short { IsShortNext result }
        // The client at the place went on, and the others stay as they were.
        ensures went { WentAt R.reading W.writing self.old self.new place result }
        ensures still { KeepsCome self.old self.new }
        ensures others { OthersStay self.old self.new place }
        // As before, who is there or was has read and written by ends of its own.
        ensures tied { StaysTied R.given R.reading W.writing self.old self.new }
    {
        if place >= self.places.len() {
            return Next::Nothing;
        }
        let Some(client) = &mut self.places[place].client else {
            return Next::Nothing;
        };
        match client.next_call(alloc, licence, piece) {
            Next::Call(call) => {
                self.asked.push(&call);
                Next::Call(call)
            }
            Next::Nothing => Next::Nothing,
            Next::Ended(ending) => Next::Ended(ending),
        }
    }

    /// The client at a place takes the reply to its last call.
    pub fn reply<L: Licence>(
        &mut self,
        alloc: Global,
        place: usize,
        licence: &L,
        app: u64,
        reply: Reply,
    )
    where
        W: Sink<L>,
        requires owed { IsOwed self.old.places.items place app }
        requires may { MayTakeAt (L.allows licence.now) W.writing self.old.places.items place reply }
        ensures same { SameWorker self.old self.new }
        ensures past { self.new.past.items ≡ self.old.past.items }
        ensures asked { self.new.asked.items ≡ self.old.asked.items }
        ensures told { self.new.told.items ≡ self.old.told.items ++ (app, reply) ∷ [] }
        ensures sent { SentAt W.writing self.old self.new place reply }
        ensures still { KeepsCome self.old self.new }
        ensures others { OthersStay self.old self.new place }
        // As before, who is there or was has read and written by ends of its own.
        ensures tied { StaysTied R.given R.reading W.writing self.old self.new }
    {
        let told = (app, reply);
        self.told.push(&told);
        if let Some(client) = &mut self.places[place].client {
            client.reply(alloc, licence, &told.1);
        }
    }
}
