//! A bench for scripts: a token that takes the steps of rows one after the other.

use crate::calls::call_of;
use crate::keepers::cached_list;
use crate::random::random_for;
use crate::replies::reply_of;
use crate::steps::{Row, Step, Told};
use crate::tokens::token_over;
use ck_calls::{Call, Reply};
use keep::{Keep, ListKeep};
use pin_record::Record;
use std::alloc::Global;
use std::fmt::Debug;
use std::test::Fail;
use token::{Job, Out, Token};

/// A token over a keeper, with the jobs of the pending calls.
#[derive(Drop)]
pub struct BenchOver<K: Keep> {
    alloc: Global,
    token: Token<K>,
    out: Vec<(u64, Job)>,
}

/// A token over a list.
pub type Bench = BenchOver<ListKeep>;

impl BenchOver<ListKeep> {
    pub fn new(alloc: Global) -> Result<Bench, Fail> {
        BenchOver::over(alloc, ListKeep::new(alloc, Record::new()))
    }
}

impl<K: Keep> BenchOver<K> {
    pub fn over(alloc: Global, keep: K) -> Result<BenchOver<K>, Fail> {
        let token = token_over(alloc, keep)?;
        Ok(BenchOver {
            alloc,
            token,
            out: Vec::new(alloc),
        })
    }

    /// The token's keeper, once the token has stopped.
    pub fn into_keep(self) -> K {
        let BenchOver { token, .. } = self;
        token.into_keep()
    }

    /// Sees that each row goes as it is written.
    pub fn play(&mut self, rows: &[Row]) -> Result<(), Fail> {
        for (number, row) in rows.iter().enumerate() {
            self.expect(number, *row)?;
        }
        Ok(())
    }

    /// Sees that a step, again and again, returns the sessions or objects from `first` to `last`.
    pub fn fill(&mut self, (app, step): (u64, Step), first: u64, last: u64) -> Result<(), Fail> {
        for number in first..=last {
            let told = match step {
                Step::OpenSession(..) => Told::Session(number),
                _ => Told::Object(number),
            };
            self.expect(number, (app, step, told))?;
        }
        Ok(())
    }

    /// Sees that a row goes as it is written. A job is run and its result taken at once, if the row has a reply to it.
    pub fn expect(&mut self, place: impl Debug + Drop, row: Row) -> Result<(), Fail> {
        let (app, step, told) = row;
        let wanted = reply_of(self.alloc, told)?;
        match self.told_at_last(app, step, wanted.is_some()) {
            Ok(got) => expect_so(place, (app, step), wanted, got),
            Err(fault) => {
                drop(wanted);
                Err(fault)
            }
        }
    }

    /// What the application gets: at once, or, if it is to get something, for the job's result.
    fn told_at_last(&mut self, app: u64, step: Step, is_told: bool) -> Result<Option<Reply>, Fail> {
        match self.told(app, step)? {
            None if is_told => self.told(app, Step::Finish),
            told => Ok(told),
        }
    }

    /// What the application gets at once.
    pub fn told(&mut self, app: u64, step: Step) -> Result<Option<Reply>, Fail> {
        match step {
            Step::Finish => Ok(self.finish(app, app)),
            Step::FinishOf(asker) => Ok(self.finish(app, asker)),
            Step::Goes => {
                drop(take_job(&mut self.out, app));
                self.token.gone(app);
                Ok(None)
            }
            _ => {
                let call = call_of(self.alloc, step)?;
                self.call(app, call)
            }
        }
    }

    fn call(&mut self, app: u64, call: Call) -> Result<Option<Reply>, Fail> {
        match random_for(self.alloc, &call) {
            Ok(random) => {
                let out = self.token.call(self.alloc, app, call, &random);
                self.take_out(app, out)
            }
            Err(fault) => {
                drop(call);
                Err(fault)
            }
        }
    }

    fn take_out(&mut self, app: u64, out: Out) -> Result<Option<Reply>, Fail> {
        match out {
            Out::Reply(reply) => Ok(Some(reply)),
            Out::Ask(job) => match self.out.push((app, job)).ok() {
                Some(()) => Ok(None),
                None => Err("no memory for a job".into()),
            },
        }
    }

    /// What an application gets for the result of the caller's job.
    fn finish(&mut self, app: u64, asker: u64) -> Option<Reply> {
        let job = take_job(&mut self.out, asker)?;
        let done = job.run(self.alloc);
        Some(self.token.finish(self.alloc, app, done))
    }
}

fn take_job(out: &mut Vec<(u64, Job)>, asker: u64) -> Option<Job> {
    let place = out.iter().position(|job| asker == job.0)?;
    Some(out.remove(place).1)
}

fn expect_so(
    place: impl Debug + Drop,
    step: (u64, Step),
    wanted: Option<Reply>,
    got: Option<Reply>,
) -> Result<(), Fail> {
    let told = expect_told(place, step, &wanted, &got);
    drop(wanted);
    drop(got);
    told
}

/// Sees that the step at an index got what is wanted.
pub fn expect_told(
    place: impl Debug + Drop,
    (app, step): (u64, Step),
    wanted: &Option<Reply>,
    got: &Option<Reply>,
) -> Result<(), Fail> {
    if got == wanted {
        return Ok(());
    }
    Err(Fail::new(format_args!(
        "row {place:?}: wanted {wanted:?}, got {got:?}, where {app} makes {step:?}"
    )))
}

/// Sees that a row got what is written. What it got is dropped.
pub fn expect_row(
    alloc: Global,
    place: impl Debug + Drop,
    (app, step, told): Row,
    got: Option<Reply>,
) -> Result<(), Fail> {
    match reply_of(alloc, told) {
        Ok(wanted) => expect_so(place, (app, step), wanted, got),
        Err(fault) => {
            drop(got);
            Err(fault)
        }
    }
}

/// Sees that a new token over the keeper goes as the rows are written, and returns the keeper.
pub fn play_over<K: Keep>(alloc: Global, keep: K, rows: &[Row]) -> Result<K, Fail> {
    let mut bench = BenchOver::over(alloc, keep)?;
    match bench.play(rows) {
        Ok(()) => Ok(bench.into_keep()),
        Err(fault) => {
            drop(bench);
            Err(fault)
        }
    }
}

/// Sees that a new token goes as the rows are written, by calls one after the other.
pub fn play(alloc: Global, rows: &[Row]) -> Result<(), Fail> {
    Bench::new(alloc)?.play(rows)?;
    BenchOver::over(alloc, cached_list(alloc, Record::new())?)?.play(rows)
}
