//! The keepers over which each test runs.

use cache::Cached;
use keep::{Keep, ListKeep};
use keep_sql::SqlKeep;
use pin_record::Record;
use sqlite::MemStore;
use std::alloc::Global;
use std::test::*;
use test_scripts::{cached, questions_at, record_at, run_script, script_at, with_finishes};

/// What is to be seen of a new token over a keeper.
pub(super) trait Script {
    fn see<K: Keep>(&self, alloc: Global, keep: K) -> Result<(), Fail>;
}

/// What is to be seen of two new tokens, each over a keeper of one kind.
pub(super) trait Comparison {
    fn see<K: Keep>(&self, alloc: Global, one: K, other: K) -> Result<(), Fail>;
}

/// Sees it over a new keeper of each kind with this record.
pub(super) fn see_over_each<S: Script>(
    alloc: Global,
    record: Record,
    script: &S,
) -> Result<(), Fail> {
    script.see(alloc, ListKeep::new(alloc, record))?;
    script.see(alloc, cached_list(alloc, record)?)?;
    script.see(alloc, sql_keep(alloc, record)?)?;
    script.see(alloc, cached_sql(alloc, record)?)
}

/// Sees it over two new keepers of each kind, which both have this record.
pub(super) fn compare_over_each<C: Comparison>(
    alloc: Global,
    record: Record,
    comparison: &C,
) -> Result<(), Fail> {
    let list = ListKeep::new(alloc, record);
    comparison.see(alloc, list, ListKeep::new(alloc, record))?;
    let list = cached_list(alloc, record)?;
    comparison.see(alloc, list, cached_list(alloc, record)?)?;
    let sql = sql_keep(alloc, record)?;
    comparison.see(alloc, sql, sql_keep(alloc, record)?)?;
    let sql = cached_sql(alloc, record)?;
    comparison.see(alloc, sql, cached_sql(alloc, record)?)
}

fn cached_list(alloc: Global, record: Record) -> Result<Cached<ListKeep>, Fail> {
    cached(alloc, ListKeep::new(alloc, record), 128)
}

fn cached_sql(alloc: Global, record: Record) -> Result<Cached<SqlKeep<MemStore>>, Fail> {
    cached(alloc, sql_keep(alloc, record)?, 128)
}

/// A new keeper over SQL in memory, with this record.
pub(super) fn sql_keep(alloc: Global, record: Record) -> Result<SqlKeep<MemStore>, Fail> {
    let mut keep = SqlKeep::in_memory(alloc)?;
    keep.set_record(record)?;
    Ok(keep)
}

/// A script that a token takes as one list of events.
#[derive(Clone, Copy)]
struct InARun<'a>(test_scripts::Script<'a>);

impl Script for InARun<'_> {
    fn see<K: Keep>(&self, alloc: Global, keep: K) -> Result<(), Fail> {
        run_script(alloc, keep, self.0)
    }
}

#[test]
fn each_script_goes_so_over_each_keeper(rt: HostRuntime) -> Result<(), Fail> {
    let mut played = 0_usize;
    for place in 0..usize::MAX {
        let Some((name, rows)) = script_at(place) else {
            break;
        };
        let rows = with_finishes(rt.alloc(), rows)?;
        see_over_each(rt.alloc(), Record::new(), &InARun((name, &rows)))?;
        played = place.saturating_add(1);
    }
    assert_eq!(rt; played, 9);
    Ok(())
}

#[test]
fn each_script_of_questions_goes_so_over_each_keeper(rt: HostRuntime) -> Result<(), Fail> {
    let mut played = 0_usize;
    for place in 0..usize::MAX {
        let Some(script) = questions_at(place) else {
            break;
        };
        see_over_each(rt.alloc(), record_at(place)?, &InARun(script))?;
        played = place.saturating_add(1);
    }
    assert_eq!(rt; played, 5);
    Ok(())
}
