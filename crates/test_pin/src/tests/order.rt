//! Of two faults of a call, the code is that of the first in the call's table.

mod cases;

use super::given::*;
use super::stored::{bench_over, record_with};
use cases::{CASES, Case, LEFT_OUT, SECONDS, Store};
use ck_types::Rv;
use pin_record::Record;
use precede::Condition as Fault;
use std::alloc::Global;
use std::test::*;
use test_scripts::given::*;
use test_scripts::{Bench, Pair, Step, Told, expect_neighbours};

/// What a call returns whose first fault this is.
fn told_of(fault: Fault) -> Result<Told, Fail> {
    Ok(match fault {
        Fault::Busy => FAILED,
        Fault::NoSession => NO_SESSION,
        Fault::NoSlot => NO_SLOT,
        Fault::LabelLength | Fault::UnknownFlag => BAD_ARGUMENTS,
        Fault::SessionOpen => SESSION_EXISTS,
        Fault::PinLength => PIN_LENGTH,
        Fault::PinLocked => LOCKED,
        Fault::PinNotSet => PIN_NOT_SET,
        Fault::NotSo | Fault::NobodyLoggedIn => NOT_LOGGED_IN,
        Fault::SessionReadOnly => READ_ONLY_SESSION,
        Fault::NotSerial => Told::Code(Rv::SessionParallelNotSupported),
        Fault::SoLoggedIn => Told::Code(Rv::SessionReadWriteSoExists),
        Fault::SessionLimit => SESSION_LIMIT,
        Fault::UnknownUserType => Told::Code(Rv::UserTypeInvalid),
        Fault::SameUserLoggedIn => Told::Code(Rv::UserAlreadyLoggedIn),
        Fault::OtherUserLoggedIn => Told::Code(Rv::UserAnotherAlreadyLoggedIn),
        Fault::ReadOnlySessionOpen => Told::Code(Rv::SessionReadOnlyExists),
        _ => return Err("no call of these has this fault".into()),
    })
}

fn record_of(store: Store) -> Result<Record, Fail> {
    match store {
        Store::New => Ok(Record::new()),
        Store::Set => record_with(0, 0),
        Store::Locked => record_with(10, 10),
    }
}

/// A bench on which the second fault of the case holds alone.
fn bench_for(alloc: Global, case: &Case) -> Result<Bench, Fail> {
    let mut bench = bench_over(alloc, record_of(case.store)?)?;
    bench.play(case.before)?;
    if case.second == Fault::SessionLimit {
        bench.fill((A, OPEN), 2, 64)?;
    }
    Ok(bench)
}

/// Sees that the second fault's code is returned where it holds alone, and the first's where both do.
fn expect_order(bench: &mut Bench, case: &Case) -> Result<(), Fail> {
    let (first, second) = (case.first, case.second);
    bench.expect(second, (A, case.alone, told_of(second)?))?;
    bench.play(case.between)?;
    bench.expect((first, second), (A, case.both, told_of(first)?))
}

#[test]
fn of_two_faults_the_first_is_told(rt: HostRuntime) -> Result<(), Fail> {
    for case in CASES {
        let mut bench = bench_for(rt.alloc(), case)?;
        expect_order(&mut bench, case)?;
    }
    Ok(())
}

/// Sees that each call with its second fault returns that one's code.
fn expect_seconds(bench: &mut Bench) -> Result<(), Fail> {
    for (fault, step) in SECONDS {
        bench.expect(fault, (A, *step, told_of(*fault)?))?;
    }
    Ok(())
}

/// Sees that each of them fails while a check is in progress.
fn expect_busy(bench: &mut Bench) -> Result<(), Fail> {
    bench.expect("the check", (A, WRONG_LOGIN, Told::Nothing))?;
    for (fault, step) in SECONDS {
        bench.expect((Fault::Busy, fault), (A, *step, FAILED))?;
    }
    bench.expect("its end", (A, Step::Finish, WRONG))
}

#[test]
fn a_check_under_way_comes_before_every_fault(rt: HostRuntime) -> Result<(), Fail> {
    let mut bench = bench_over(rt.alloc(), record_with(0, 0)?)?;
    bench.expect("a session", (A, OPEN, Told::Session(1)))?;
    expect_seconds(&mut bench)?;
    expect_busy(&mut bench)
}

/// The faults of the cases, each two with the call that has both.
fn pairs(alloc: Global) -> Result<Vec<Pair>, Fail> {
    let mut pairs = Vec::new(alloc);
    for case in CASES {
        pairs.push((case.first, case.second, case.both))?;
    }
    Ok(pairs)
}

#[test]
fn each_pair_of_neighbours_has_a_case_or_is_left_out(rt: HostRuntime) -> Result<(), Fail> {
    expect_neighbours(rt.alloc(), SECONDS, &pairs(rt.alloc())?, LEFT_OUT)
}
