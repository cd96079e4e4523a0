//! Rows that four seats play.

ghost use Rattle.std.specs.Prelude.{◌≡◌, [], List, IfOk};
ghost use Rattle.hall_log.specs.Histories.{Exchange, History};
ghost use Rattle.ck_calls.specs.declared.app_call.AppCall.{AppCall};
ghost use Rattle.hall.specs.Given.{Serves};
ghost use Rattle.hall.specs.Terms.{token_terms};

use super::gate::TurnGate;
use super::seat::TurnSeat;
use super::turns::Turns;
use ck_calls::Reply;
use hall::{HallFault, Held, USUAL_STACKS, hold};
use hall_log::{Naming, Opened};
use keep::{Keep, ListKeep};
use pin_record::Record;
use std::alloc::Global;
use std::marker::Brand;
use std::sync::{Arc, Wait};
use std::test::Fail;
use std::thread::Threads;
use std::time::Clock;
use test_scripts::{Row, Script, cached_list, reply_of, token_over};
use token::Token;

type Seats<R> = (TurnSeat<R>, TurnSeat<R>, TurnSeat<R>, TurnSeat<R>);

/// What the applications of a seat got.
type Told = Vec<(u64, Reply)>;

/// Sees it over a list with this record, and over one behind a cache.
pub(crate) fn hold_over_lists<R: Threads + Wait + Clock + Copy + Send + Sync + Drop + 'static>(
    rt: R,
    alloc: Global,
    record: Record,
    script: Script<'_>,
) -> Result<(), Fail> {
    hold_rows(rt, alloc, ListKeep::new(alloc, record), script)?;
    hold_rows(rt, alloc, cached_list(alloc, record)?, script)
}

/// Sees that four seats play the rows of a script before a new token over the keeper and get what is written. Each row has its
/// turn. An application makes no step while its own call is pending, and none where another one of its seat waits.
pub(crate) fn hold_rows<K: Keep, R: Threads + Wait + Clock + Copy + Send + Sync + Drop + 'static>(
    rt: R,
    alloc: Global,
    keep: K,
    (name, rows): Script<'_>,
) -> Result<(), Fail> {
    let turns = Arc::new(alloc, Turns::new(Vec::from_slice(alloc, rows)?))?;
    expect_all(
        alloc,
        (name, rows),
        told_by_seats(rt, alloc, keep, rows, &turns)?,
    )?;
    if turns.went_on() {
        Ok(())
    } else {
        Err(Fail::new(format_args!("{name}: a turn never came")))
    }
}

/// What the applications of each seat got.
fn told_by_seats<K: Keep, R: Threads + Wait + Clock + Copy + Send + Sync + Drop + 'static>(
    rt: R,
    alloc: Global,
    keep: K,
    rows: &[Row],
    turns: &Arc<Turns, Global>,
) -> Result<(Told, Told, Told, Told), Fail> {
    let token = token_over(alloc, keep)?;
    let gate = gate_in(rt, alloc, turns)?;
    let seats = seats_in(rt, alloc, turns, rows)?;
    match hold_named::<Brand, K, R>(rt, alloc, Opened::new(), token, seats, &gate) {
        Ok(held) => {
            let Held { seats, .. } = held;
            Ok(told_of(seats))
        }
        Err(fault) => {
            drop(fault);
            Err("the seats were not held".into())
        }
    }
}

/// Holds the seats before a token, over a log with this name.
fn hold_named<
    J: Naming + Send + Sync + 'static,
    K: Keep,
    R: Threads + Wait + Clock + Copy + Send + Sync + Drop + 'static,
>(
    rt: R,
    alloc: Global,
    opened: Opened,
    token: Token<K>,
    seats: Seats<R>,
    gate: &Arc<TurnGate<R>, Global>,
) -> Result<Held<Token<K>, TurnSeat<R>>, (HallFault, Token<K>)>
    requires book { opened.seen.book ≡ J.book }
    requires means { (h : History) → J.served h → Serves (token_terms K.terms) J.was_read token h }
    requires all { (h : History) → Serves (token_terms K.terms) J.was_read token h → J.served h }
    requires read { (before : List Exchange) (call : AppCall) → J.was_read before call }
    requires numbers { (seats.0.number ≡ 0) × (seats.1.number ≡ 1) × (seats.2.number ≡ 2) × (seats.3.number ≡ 3) }
    requires told { (seats.0.told.items ≡ []) × (seats.1.told.items ≡ []) × (seats.2.told.items ≡ []) × (seats.3.told.items ≡ []) }
{
    hold::<J, Token<K>, TurnSeat<R>, TurnGate<R>, R>(
        rt,
        alloc,
        opened,
        token,
        seats,
        gate,
        USUAL_STACKS,
    )
}

fn gate_in<R: Clock + Copy + Drop>(
    rt: R,
    alloc: Global,
    turns: &Arc<Turns, Global>,
) -> Result<Arc<TurnGate<R>, Global>, Fail> {
    let turns = Arc::try_clone(turns)?;
    Ok(Arc::new(alloc, TurnGate { rt, turns })?)
}

fn seats_in<R: Clock + Copy + Drop>(
    rt: R,
    alloc: Global,
    turns: &Arc<Turns, Global>,
    rows: &[Row],
) -> Result<Seats<R>, Fail>
    ensures numbers { IfOk result (λ seats. (seats.0.number ≡ 0) × (seats.1.number ≡ 1) × (seats.2.number ≡ 2) × (seats.3.number ≡ 3)) }
    ensures told { IfOk result (λ seats. (seats.0.told.items ≡ []) × (seats.1.told.items ≡ [])
        × (seats.2.told.items ≡ []) × (seats.3.told.items ≡ [])) }
{
    let first = TurnSeat::new(rt, alloc, Arc::try_clone(turns)?, rows, 0)?;
    let second = TurnSeat::new(rt, alloc, Arc::try_clone(turns)?, rows, 1)?;
    let third = TurnSeat::new(rt, alloc, Arc::try_clone(turns)?, rows, 2)?;
    let fourth = TurnSeat::new(rt, alloc, Arc::try_clone(turns)?, rows, 3)?;
    Ok((first, second, third, fourth))
}

fn told_of<R: Clock + Drop>(seats: Seats<R>) -> (Told, Told, Told, Told) {
    (
        seats.0.into_told(),
        seats.1.into_told(),
        seats.2.into_told(),
        seats.3.into_told(),
    )
}

/// Sees that the applications of all seats got what the rows have.
fn expect_all(
    alloc: Global,
    script: Script<'_>,
    told: (Told, Told, Told, Told),
) -> Result<(), Fail> {
    expect(alloc, script, 0, &told.0)
        .and_then(|()| expect(alloc, script, 1, &told.1))
        .and_then(|()| expect(alloc, script, 2, &told.2))
        .and_then(|()| expect(alloc, script, 3, &told.3))
}

/// Sees that the applications of a seat got what the rows have.
fn expect(
    alloc: Global,
    (name, rows): Script<'_>,
    seat: u64,
    told: &[(u64, Reply)],
) -> Result<(), Fail> {
    let mut rest = told;
    for (number, (app, step, wanted)) in rows.iter().enumerate() {
        if app % 4 != seat {
            continue;
        }
        if let Some(reply) = reply_of(alloc, *wanted)? {
            if rest.first() != Some(&(*app, reply)) {
                return Err(Fail::new(format_args!(
                    "{name}, row {number} of seat {seat}: got {:?}, by {step:?}",
                    rest.first()
                )));
            }
            rest = rest.get(1..).unwrap_or(&[]);
        }
    }
    if rest.is_empty() {
        Ok(())
    } else {
        Err("replies that no row tells".into())
    }
}
