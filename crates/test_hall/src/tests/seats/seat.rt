//! A seat that plays its rows of a script, each in its turn.

ghost use Rattle.std.specs.Prelude.{◌≡◌, ◌<◌, ◌%◌, ◌∷◌, [], List, true, vec_len, vec_capacity, IfOk, IfSome, IsTrue};
ghost use Rattle.hall.specs.SeatEvents.{heard_in, seat_app};
ghost use Rattle.hall_log.specs.Histories.{Exchange};
ghost use Rattle.ck_calls.specs.declared.app_call.AppCall.{AppCall};
ghost use Rattle.test_hall.specs.Gone.{AllGone, NotesGone, is_gone};

use super::turns::{Turns, is_finish};
use ck_calls::{AppCall, Reply};
use hall::{Seat, SeatEvent};
use hall_log::{Naming, Told};
use std::alloc::Global;
use std::collections::LinkedList;
use std::sync::Arc;
use std::test::Fail;
use std::time::Clock;
use test_scripts::{Row, Step, call_of, random_for};

#[derive(Drop)]
pub(crate) struct TurnSeat<R: Clock + Drop> {
    rt: R,
    turns: Arc<Turns, Global>,
    number: u64,
    /// What is still to be put, each with the index of its row.
    events: LinkedList<(usize, SeatEvent)>,
    /// The application that disconnects by the row that was begun last.
    going: Option<u64>,
    gone: Vec<u64>,
    /// What its applications got, in order.
    told: Vec<(u64, Reply)>,
    has_ended: bool,
}

impl<R: Clock + Drop> TurnSeat<R> {
    /// The seat with this number, which plays those of the rows that are its own.
    pub(crate) fn new(
        rt: R,
        alloc: Global,
        turns: Arc<Turns, Global>,
        rows: &[Row],
        number: u64,
    ) -> Result<TurnSeat<R>, Fail>
        ensures number { IfOk result (λ seat. seat.number ≡ number) }
        ensures none { IfOk result (λ seat. seat.told.items ≡ []) }
    {
        let events = events_of(alloc, rows, number)?;
        Ok(TurnSeat {
            rt,
            turns,
            number,
            events,
            going: None,
            gone: Vec::new(alloc),
            told: Vec::new(alloc),
            has_ended: false,
        })
    }

    /// What its applications got, in order.
    pub(crate) fn into_told(self) -> Vec<(u64, Reply)> {
        self.told
    }

    /// The next of its events, in its turn.
    fn next_event(&mut self) -> Option<SeatEvent>
        ensures number { self.new.number ≡ self.old.number }
        ensures gone { self.new.gone ≡ self.old.gone }
        ensures told { self.new.told ≡ self.old.told }
    {
        if let Some(app) = self.going.take() {
            self.turns.go_on(app);
        }
        let (place, event) = self.events.pop_front()?;
        if self.turns.wait_for(&self.rt, place) {
            Some(event)
        } else {
            drop(event);
            None
        }
    }

    /// Whether one more reply fits.
    fn has_room(&mut self) -> bool
        ensures number { self.new.number ≡ self.old.number }
        ensures gone { self.new.gone ≡ self.old.gone }
        ensures told { self.new.told.items ≡ self.old.told.items }
        ensures room { IsTrue result → vec_len self.new.told < vec_capacity self.new.told }
    {
        self.told.reserve(1).is_ok()
    }

    /// Whether the event is one of its applications, and none that has disconnected before. A disconnect is recorded; false where an
    /// allocation failed.
    fn may_put(&mut self, event: &SeatEvent) -> bool
        ensures number { self.new.number ≡ self.old.number }
        ensures told { self.new.told ≡ self.old.told }
        ensures own { IsTrue result → seat_app event.now % 4 ≡ self.old.number }
        ensures there { IsTrue result → ¬ IsTrue (is_gone self.old.gone.items (seat_app event.now)) }
        ensures goes { IsTrue result → NotesGone self.new.gone.items event.now }
        ensures gone { (app : _) → IsTrue (is_gone self.old.gone.items app) → IsTrue (is_gone self.new.gone.items app) }
    {
        let app = app_of(event);
        if app % 4 != self.number || self.gone.contains(&app) {
            return false;
        }
        match event {
            SeatEvent::Call(_) => true,
            SeatEvent::Gone { app } => {
                self.going = Some(*app);
                self.gone.push(*app).is_ok()
            }
        }
    }

    /// The next of its events, if it may be put, once one more reply fits.
    fn ready_event(&mut self) -> Option<SeatEvent>
        ensures number { self.new.number ≡ self.old.number }
        ensures told { self.new.told.items ≡ self.old.told.items }
        ensures gone { (app : _) → IsTrue (is_gone self.old.gone.items app) → IsTrue (is_gone self.new.gone.items app) }
        ensures own { IfSome result (λ e. seat_app e % 4 ≡ self.old.number) }
        ensures there { IfSome result (λ e. ¬ IsTrue (is_gone self.old.gone.items (seat_app e))) }
        ensures goes { IfSome result (NotesGone self.new.gone.items) }
        ensures room { IfSome result (λ _. vec_len self.new.told < vec_capacity self.new.told) }
    {
        let event = self.next_event()?;
        if self.has_room() && self.may_put(&event) {
            return Some(event);
        }
        drop(event);
        None
    }
}

fn app_of(event: &SeatEvent) -> u64
    ensures { result ≡ seat_app event.now }
{
    match event {
        SeatEvent::Call(call) => call.app,
        SeatEvent::Gone { app } => *app,
    }
}

/// The events of the rows that a seat begins, each with the index of its row. A pending call is begun by its call.
fn events_of(
    alloc: Global,
    rows: &[Row],
    number: u64,
) -> Result<LinkedList<(usize, SeatEvent)>, Fail> {
    let mut events = LinkedList::new(alloc);
    for (place, (app, step, _)) in rows.iter().enumerate() {
        if app % 4 == number && !is_finish(*step) {
            events.push_back((place, event_of(alloc, *app, *step)?))?;
        }
    }
    Ok(events)
}

fn event_of(alloc: Global, app: u64, step: Step) -> Result<SeatEvent, Fail> {
    if let Step::Goes = step {
        return Ok(SeatEvent::Gone { app });
    }
    let call = call_of(alloc, step)?;
    let random = random_for(alloc, &call)?;
    Ok(SeatEvent::Call(AppCall { app, call, random }))
}

impl<J: Naming, R: Clock + Drop> Seat<J> for TurnSeat<R> {
    ghost number = { λ s. s.number };

    ghost over = { λ s. s.has_ended ≡ true };

    ghost fixed = { λ s. s.number ∷ [] };

    ghost knows = { λ fixed. (before : List Exchange) (call : AppCall) → J.was_read before call };

    ghost stands = { λ s xs. (s.told.items ≡ heard_in xs) × AllGone s.gone.items xs };

    ghost waits = { λ s before call. (s.told.items ≡ heard_in before) × AllGone s.gone.items before × (vec_len s.told < vec_capacity s.told) };

    fn next(&mut self, _told: &Told<J>) -> Option<SeatEvent> {
        let event = self.ready_event();
        if event.is_none() {
            self.has_ended = true;
        }
        event
    }

    fn take(&mut self, app: u64, reply: Reply, _told: &Told<J>) {
        self.told.push_reserved((app, reply));
        self.turns.go_on(app);
    }
}
