//! How many sessions an application has.

use super::keepers::{Script, see_over_each};
use keep::Keep;
use pin_record::Record;
use std::alloc::Global;
use std::test::*;
use test_scripts::BenchOver;
use test_scripts::given::*;

#[derive(Clone, Copy)]
struct AllSessions;

impl Script for AllSessions {
    fn see<K: Keep>(&self, alloc: Global, keep: K) -> Result<(), Fail> {
        let mut bench = BenchOver::over(alloc, keep)?;
        let seen = fill(&mut bench);
        drop(bench);
        seen
    }
}

fn fill<K: Keep>(bench: &mut BenchOver<K>) -> Result<(), Fail> {
    bench.fill((A, OPEN), 1, 64)?;
    bench.expect(65, (A, OPEN, SESSION_LIMIT))?;
    bench.fill((B, OPEN), 1, 64)
}

#[test]
fn an_application_has_at_most_64_sessions(rt: HostRuntime) -> Result<(), Fail> {
    see_over_each(rt.alloc(), Record::new(), &AllSessions)
}
