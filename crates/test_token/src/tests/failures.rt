//! A keeper that fails at its n-th call: the event is refused by the code of the failure, and nothing has changed, so the
//! same event then goes as if nothing had been.

use ck_calls::Reply;
use ck_types::Rv;
use keep::{Keep, KeepFault, ListKeep};
use pin_record::Record;
use std::alloc::Global;
use std::process::Abort;
use std::test::*;
use test_keepers::{FailingKeep, Failure};
use test_scripts::given::*;
use test_scripts::{Asked, BenchOver, Row, Step, Told, Values, expect_row, run_over};
use token::Token;

const ASKED: Asked = &[(LABEL, Some(2))];

const NAMED: Values = &[(2, Some(b"k1"))];

/// Each call that uses the keeper.
const ROWS: &[Row] = &[
    (A, OPEN, Told::Session(1)),
    (A, Step::CreateObject(1, TOKEN_KEY), Told::Object(1)),
    (A, Step::SetAttributeValue(1, 1, NEW_LABEL), OK),
    (
        A,
        Step::GetAttributeValue(1, 1, ASKED),
        Told::AttributeValues(Rv::Ok, NAMED),
    ),
    (A, Step::CopyObject(1, 1, NOTHING), Told::Object(2)),
    (A, Step::DestroyObject(1, 1), OK),
    (A, Step::GetAttributeValue(1, 1, ASKED), NO_OBJECT),
    (A, Step::GetObjectSize(1, 2), Told::ObjectSize(311)),
    (A, Step::EncryptInit(1, ECB, 2), OK),
    (A, Step::Encrypt(1, TEXT, Some(16)), Told::Nothing),
    (A, Step::Finish, CIPHERTEXT),
    (A, Step::DestroyObject(1, 2), OK),
];

/// How often these calls, and the token's making before them, ask the keeper for what may be refused.
const CALLS: u64 = 13;

/// A keeper in memory whose n-th call fails.
fn failing(alloc: Global, n: u64, failure: Failure) -> FailingKeep<ListKeep> {
    FailingKeep::new(ListKeep::new(alloc, Record::new()), n, failure)
}

/// The code of a call that fails so.
pub(super) fn code_of(failure: Failure) -> Rv {
    match failure {
        Failure::Memory => Rv::HostMemory,
        Failure::Device => Rv::DeviceError,
    }
}

/// The index of the row that is refused where the n-th call fails. It goes as it is written when it comes again, and each other
/// one goes so at once.
fn refused_row(
    rt: &impl Abort,
    alloc: Global,
    n: u64,
    failure: Failure,
) -> Result<Option<usize>, Fail> {
    let mut bench = BenchOver::over(alloc, failing(alloc, n, failure))?;
    let refused = refused_on(rt, alloc, &mut bench, code_of(failure));
    drop(bench);
    refused
}

fn refused_on(
    rt: &impl Abort,
    alloc: Global,
    bench: &mut BenchOver<FailingKeep<ListKeep>>,
    code: Rv,
) -> Result<Option<usize>, Fail> {
    let mut refused = None;
    for (place, row) in ROWS.iter().enumerate() {
        if is_refused(alloc, bench, place, *row, code)? {
            assert!(rt; refused.is_none(), "a second refusal");
            refused = Some(place);
            bench.expect(place, *row)?;
        }
    }
    Ok(refused)
}

/// Whether a row is refused by the code. If not, it goes as it is written.
fn is_refused(
    alloc: Global,
    bench: &mut BenchOver<FailingKeep<ListKeep>>,
    place: usize,
    row: Row,
    code: Rv,
) -> Result<bool, Fail> {
    let got = bench.told(row.0, row.1)?;
    if is_code(&got, code) {
        drop(got);
        return Ok(true);
    }
    expect_row(alloc, place, row, got)?;
    Ok(false)
}

fn is_code(told: &Option<Reply>, code: Rv) -> bool {
    match told {
        Some(Reply::Code(told)) => *told == code,
        _ => false,
    }
}

/// The rows, of which the one at the place is refused when it comes first.
fn rows_with_refusal(alloc: Global, place: usize, failure: Failure) -> Result<Vec<Row>, Fail> {
    let mut rows = Vec::new(alloc);
    for (number, row) in ROWS.iter().enumerate() {
        let (app, step, _) = *row;
        if number == place {
            rows.push((app, step, Told::Code(code_of(failure))))?;
        }
        rows.push(*row)?;
    }
    Ok(rows)
}

/// Sees that each failure is returned once, by calls one after the other and in a list of events.
fn expect_refusals(rt: &impl Abort, alloc: Global, failure: Failure) -> Result<(), Fail> {
    for n in 2..=CALLS {
        match refused_row(rt, alloc, n, failure)? {
            Some(place) => {
                let rows = rows_with_refusal(alloc, place, failure)?;
                run_over(alloc, failing(alloc, n, failure), &rows)?;
            }
            None => panic!(rt; "the failure of call {n} was not told"),
        }
    }
    let after_all = refused_row(rt, alloc, CALLS + 1, failure)?;
    assert!(rt; after_all.is_none(), "there are more calls");
    Ok(())
}

#[test]
fn a_failed_device_is_told_once_and_changes_nothing(rt: HostRuntime) -> Result<(), Fail> {
    expect_refusals(&rt, rt.alloc(), Failure::Device)
}

#[test]
fn want_of_memory_is_told_once_and_changes_nothing(rt: HostRuntime) -> Result<(), Fail> {
    expect_refusals(&rt, rt.alloc(), Failure::Memory)
}

#[test]
fn a_keeper_whose_ids_cannot_be_read_comes_back(rt: HostRuntime) {
    match Token::new(rt.alloc(), failing(rt.alloc(), 1, Failure::Device)) {
        Ok(_) => panic!(rt; "the failure was not told"),
        Err((fault, keep)) => {
            assert_eq!(rt; (fault, keep.failures()), (KeepFault::Device, 1));
        }
    }
}
