//! Four seats on sockets before the token.

ghost use Rattle.std.specs.Prelude.{◌≡◌, ℕ, List, IfOk, IfErr};
ghost use Rattle.token.specs.States.{Shows, MayLeave};
ghost use Rattle.hall_log.specs.Histories.{Exchange, History};
ghost use Rattle.ck_calls.specs.declared.app_call.AppCall.{AppCall};
ghost use Rattle.hall.specs.Terms.{token_terms};
ghost use Rattle.hall.specs.Given.{IsLed, Serves};
ghost use Rattle.hall.specs.SpareIds.{HasSpareIds};
ghost use Rattle.hall_sockets.specs.Served.{WereServed};
ghost use Rattle.hall_sockets.specs.Staying.{AreNew, SeatIsDone};
ghost use Rattle.hall_sockets.specs.Writing.{IsRead};

use crate::leave::Leave;
use crate::seat::SocketSeat;
use door::Outgoing;
use hall::laws::own_seat;
use hall::{Gate, HallFault, Held, USUAL_STACKS, hold};
use hall_log::{Naming, Opened};
use keep::Keep;
use line::accounts;
use log::Log;
use std::alloc::Global;
use std::marker::Brand;
use std::os::unix::net::UnixStream;
use std::sync::{Arc, Wait};
use std::thread::Threads;
use std::time::Clock;
use token::Token;

/// The four seats, seat 0 first.
pub type Seats<S, L, C> = (
    SocketSeat<S, L, C>,
    SocketSeat<S, L, C>,
    SocketSeat<S, L, C>,
    SocketSeat<S, L, C>,
);

/// Holds four new seats on sockets before the token, until each has no more, as `hall::hold` does. They have one seed. `J` names the
/// new log, and it is required what its members mean.
///
/// Each write to a connection is made by a seat's licence (`Leave`), whatever the sockets are. So at the moment of the write, whether
/// this call ever returns or not, the bytes begin what is due to the connection by a history that the token has served (`MayWrite`).
/// Of any two such histories one begins the other (`hall_log::one_order`). Each call in them was read by its application's own reader,
/// and each event was one that its seat might put (`Serves`).
///
/// Once it returns: there is one history of all calls, which is a run of the token's. For each application, what was
/// read of its connection are the frames of its calls in that history, in order. What was written are the frames of the answers
/// that the history has to them, in that order, with the answers to what is no call at their places. Where the connection ended
/// otherwise than by its reader or by a frame that is too long, that is a beginning of it.
///
/// Over a steady keeper, as one in memory, no answer is `CKR_DEVICE_ERROR` while there is an id for each call and each result.
///
/// # Errors
///
/// As `hall::hold`.
pub fn hold_over<
    J: Naming + Send + Sync + 'static,
    K: Keep,
    S: Outgoing<Leave<J>> + Drop + Send + Sync + 'static,
    L: Log + Drop + Send + 'static,
    C: Clock + Drop + Send + 'static,
    G: Gate + Send + Sync + Drop + 'static,
    R: Threads + Wait + Clock + Copy + Send + Drop + 'static,
>(
    rt: R,
    alloc: Global,
    opened: Opened,
    token: Token<K>,
    seats: Seats<S, L, C>,
    gate: &Arc<G, Global>,
) -> Result<Held<Token<K>, SocketSeat<S, L, C>>, (HallFault, Token<K>)>
    requires new { AreNew seats.0.clients.seed seats }
    requires book { opened.seen.book ≡ J.book }
    requires seed { J.seed ≡ seats.0.clients.seed }
    // What it means that a history was served: the token has served it, and each event in it was one that its seat might put.
    requires means { (h : History) → J.served h → Serves (token_terms K.terms) J.was_read token h }
    requires all { (h : History) → Serves (token_terms K.terms) J.was_read token h → J.served h }
    // What it means that bytes were given: a socket's read gave them.
    requires given { (app : ℕ) (bytes : List ℕ) → J.given app bytes → S.given app bytes }
    requires gives { (app : ℕ) (bytes : List ℕ) → S.given app bytes → J.given app bytes }
    // What it means that a call was read.
    requires was_read { (before : List Exchange) (call : AppCall) → J.was_read before call → ∥ IsRead J.given J.seed before call ∥₁ }
    requires reads { (before : List Exchange) (call : AppCall) → ∥ IsRead J.given J.seed before call ∥₁ → J.was_read before call }
    // Each connection was served by one history, which is a run of the token's, and the log's.
    ensures served { IfOk result (λ h. WereServed (token_terms K.terms) J.served S.given seats.0.clients.seed h.seats token h.token) }
    // Each seat ended where it might: it failed, or was told to, or had its connections. Nobody is left at a place of it.
    ensures over { IfOk result (λ h. SeatIsDone h.seats.0 × SeatIsDone h.seats.1 × SeatIsDone h.seats.2 × SeatIsDone h.seats.3) }
    // Where an allocation failed, the token is as it was.
    ensures memory { IfErr result (λ e. e.0 ≡ HallFault.Memory → e.1 ≡ token) }
    // At any fault some history leads to the token that is returned.
    ensures led { IfErr result (λ e. IsLed (token_terms K.terms) token e.1) }
{
    accounts();
    own_seat();
    let stacks = USUAL_STACKS;
    hold::<J, Token<K>, SocketSeat<S, L, C>, G, R>(rt, alloc, opened, token, seats, gate, stacks)
}

/// Holds four new seats on Unix sockets, of whose bytes nothing is known, over a log that `J` names.
fn hold_named<
    J: Naming + Send + Sync + 'static,
    K: Keep,
    L: Log + Drop + Send + 'static,
    C: Clock + Drop + Send + 'static,
    G: Gate + Send + Sync + Drop + 'static,
    R: Threads + Wait + Clock + Copy + Send + Drop + 'static,
>(
    rt: R,
    alloc: Global,
    opened: Opened,
    token: Token<K>,
    seats: Seats<UnixStream, L, C>,
    gate: &Arc<G, Global>,
) -> Result<Held<Token<K>, SocketSeat<UnixStream, L, C>>, (HallFault, Token<K>)>
    requires new { AreNew seats.0.clients.seed seats }
    requires book { opened.seen.book ≡ J.book }
    requires seed { J.seed ≡ seats.0.clients.seed }
    requires means { (h : History) → J.served h → Serves (token_terms K.terms) J.was_read token h }
    requires all { (h : History) → Serves (token_terms K.terms) J.was_read token h → J.served h }
    requires gives { (app : ℕ) (bytes : List ℕ) → J.given app bytes }
    requires was_read { (before : List Exchange) (call : AppCall) → J.was_read before call → ∥ IsRead J.given J.seed before call ∥₁ }
    requires reads { (before : List Exchange) (call : AppCall) → ∥ IsRead J.given J.seed before call ∥₁ → J.was_read before call }
    ensures served { IfOk result (λ h. WereServed (token_terms K.terms) J.served (λ app bytes. Unit {0}) seats.0.clients.seed h.seats token h.token) }
    ensures over { IfOk result (λ h. SeatIsDone h.seats.0 × SeatIsDone h.seats.1 × SeatIsDone h.seats.2 × SeatIsDone h.seats.3) }
    ensures memory { IfErr result (λ e. e.0 ≡ HallFault.Memory → e.1 ≡ token) }
    ensures led { IfErr result (λ e. IsLed (token_terms K.terms) token e.1) }
{
    hold_over::<J, K, UnixStream, L, C, G, R>(rt, alloc, opened, token, seats, gate)
}

/// Holds four new seats on Unix sockets before the token, over a new log, as `hold_over` does: the log's histories are just those that the
/// token serves.
pub fn hold_sockets<
    K: Keep,
    L: Log + Drop + Send + 'static,
    C: Clock + Drop + Send + 'static,
    G: Gate + Send + Sync + Drop + 'static,
    R: Threads + Wait + Clock + Copy + Send + Drop + 'static,
>(
    rt: R,
    alloc: Global,
    token: Token<K>,
    seats: Seats<UnixStream, L, C>,
    gate: &Arc<G, Global>,
) -> Result<Held<Token<K>, SocketSeat<UnixStream, L, C>>, (HallFault, Token<K>)>
    requires { AreNew seats.0.clients.seed seats }
    ensures served { IfOk result (λ h. WereServed (token_terms K.terms)
        (Serves (token_terms K.terms) (λ before call. ∥ IsRead (λ app bytes. Unit {0}) seats.0.clients.seed before call ∥₁) token)
        (λ app bytes. Unit {0}) seats.0.clients.seed h.seats token h.token) }
    ensures over { IfOk result (λ h. SeatIsDone h.seats.0 × SeatIsDone h.seats.1 × SeatIsDone h.seats.2 × SeatIsDone h.seats.3) }
    ensures memory { IfErr result (λ e. e.0 ≡ HallFault.Memory → e.1 ≡ token) }
    ensures led { IfErr result (λ e. IsLed (token_terms K.terms) token e.1) }
{
    hold_named::<Brand, K, L, C, G, R>(rt, alloc, Opened::new(), token, seats, gate)
}
