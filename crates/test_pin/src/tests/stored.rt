//! Tokens that start from a store in which both PINs are set, and how scripts go on them.

use keep::ListKeep;
use pin_record::Record;
use std::alloc::Global;
use std::test::Fail;
pub(super) use test_scripts::record_with;
use test_scripts::{Bench, BenchOver, Row, cached_list, run_over, with_finishes};

/// A bench over this record.
pub(super) fn bench_over(alloc: Global, record: Record) -> Result<Bench, Fail> {
    BenchOver::over(alloc, ListKeep::new(alloc, record))
}

/// Sees that a token over the record goes as the rows are written: by calls one after the other over a list, and in one list of
/// events over a list behind a cache. They leave no call pending.
pub(super) fn play_and_run(alloc: Global, record: Record, rows: &[Row]) -> Result<(), Fail> {
    bench_over(alloc, record)?.play(rows)?;
    let rows = with_finishes(alloc, rows)?;
    run_over(alloc, cached_list(alloc, record)?, &rows)
}

/// The same for rows some of which leave a call pending until its own row.
pub(super) fn play_and_run_questions(
    alloc: Global,
    record: Record,
    rows: &[Row],
) -> Result<(), Fail> {
    bench_over(alloc, record)?.play(rows)?;
    run_over(alloc, cached_list(alloc, record)?, rows)
}
