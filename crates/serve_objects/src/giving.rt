//! Handles of what is found.

ghost use Rattle.std.specs.Prelude.{◌≡◌, ◌+◌, ◌<◌, ◌≤◌, ◌^◌, ◌++◌, length, vec_len, vec_capacity};
ghost use Rattle.std.specs.List.{AllByRecursion};
ghost use Rattle.handles.specs.Handles.{HasRoomFor};
ghost use Rattle.serve_base.specs.Searching.{MayFind};
ghost use Rattle.serve_objects.specs.Giving.{given, numbers, with_one, number_of_one};

use desk::Desk;
use serve_base::Match;

/// Gives the next handle to each of the token objects that has none, in their order, and collects the handles of all that was
/// found. Allocates nothing.
pub(crate) fn give_handles(desk: &mut Desk, matches: &[Match], handles: &mut Vec<u64>)
    requires below { desk.old.handles.next_number + length matches.now < 2 ^ 64 }
    requires room { HasRoomFor desk.old.handles (length matches.now) }
    requires free { vec_len handles.old + length matches.now ≤ vec_capacity handles.old }
    requires may { AllByRecursion (MayFind desk.old.sessions.login) matches.now }
    ensures given { desk.new ≡ record desk.old { handles = given desk.old.handles matches.now } }
    ensures numbers { handles.new.items ≡ handles.old.items ++ numbers desk.old.handles matches.now }
{
    for found in matches {
        handles.push_reserved(give_one(desk, *found));
    }
}

/// The handle of what is found, which a token object without one is given.
fn give_one(desk: &mut Desk, found: Match) -> u64
    requires below { desk.old.handles.next_number + 1 < 2 ^ 64 }
    requires room { HasRoomFor desk.old.handles 1 }
    requires may { MayFind desk.old.sessions.login found }
    ensures given { desk.new ≡ record desk.old { handles = with_one desk.old.handles found } }
    ensures number { result ≡ number_of_one desk.old.handles found }
{
    match found {
        Match::TokenObject { id, private } => desk.give_handle(id, private),
        Match::SessionObject { handle } => handle,
    }
}
