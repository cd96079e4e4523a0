//! The ten tries of the user's PIN where its checks overlap. The replies are those of a count of charges, and there is never an
//! eleventh check that ends wrong or abandoned before one ends right.

mod charges;
mod numbers;
mod three;

use super::given::*;
use super::stored::record_with;
use charges::Charges;
use keep::ListKeep;
use numbers::Numbers;
use std::alloc::Global;
use std::test::*;
use test_scripts::given::*;
use test_scripts::{Row, Step, Told, run_over};

/// What an application does to its check.
#[derive(Clone, Copy)]
enum Deed {
    /// It begins one, with the right PIN or a wrong one.
    Begins(bool),
    /// Its result is handed in.
    Ends,
    /// The application disconnects, and comes again.
    Goes,
}

/// The rows of what applications do, from a store with some tries on, and the charges after them.
#[derive(Drop)]
struct Walk {
    tries: u8,
    last: u64,
    rows: Vec<Row>,
    charges: Charges,
}

impl Walk {
    /// Each application up to the last opens a session.
    fn new(alloc: Global, tries: u8, last: u64) -> Result<Walk, Fail> {
        let mut rows = Vec::new(alloc);
        for app in 1..=last {
            rows.push((app, OPEN, Told::Session(1)))?;
        }
        Ok(Walk {
            tries,
            last,
            rows,
            charges: Charges::new(alloc, tries as u64),
        })
    }

    /// Adds what the application does and gets, and the flags that are returned then.
    fn add(&mut self, app: u64, deed: Deed) -> Result<(), Fail> {
        match deed {
            Deed::Begins(is_right) => self.begin(app, is_right)?,
            Deed::Ends => self.end(app)?,
            Deed::Goes => self.go(app)?,
        }
        let flags = self.charges.flags();
        self.push((ASKER, TOKEN_INFO, Told::TokenInfo(NAME, flags, 0, 0)))
    }

    fn begin(&mut self, app: u64, is_right: bool) -> Result<(), Fail> {
        let step = if is_right { LOGIN } else { WRONG_LOGIN };
        let told = if self.charges.begin(app, is_right)? {
            Told::Nothing
        } else {
            LOCKED
        };
        self.push((app, step, told))
    }

    /// Who was let in logs out again.
    fn end(&mut self, app: u64) -> Result<(), Fail> {
        if self.charges.end(app)? {
            self.push((app, Step::Finish, OK))?;
            self.push((app, LOGOUT, OK))
        } else {
            self.push((app, Step::Finish, WRONG))
        }
    }

    fn go(&mut self, app: u64) -> Result<(), Fail> {
        self.charges.lose(app)?;
        self.push((app, Step::Goes, Told::Nothing))?;
        self.push((app, OPEN, Told::Session(1)))
    }

    fn push(&mut self, row: Row) -> Result<(), Fail> {
        self.rows.push(row)?;
        Ok(())
    }

    /// Sees that a token goes as the rows are written, in one list of events. At the end all applications disconnect.
    fn see(&mut self, alloc: Global) -> Result<(), Fail> {
        for app in 1..=self.last {
            self.push((app, Step::Goes, Told::Nothing))?;
        }
        let keep = ListKeep::new(alloc, record_with(0, self.tries)?);
        run_over(alloc, keep, &self.rows)
    }
}

/// What an application does next. Few results are handed in, since each takes the work of its check.
fn next_deed(numbers: &mut Numbers, is_under_way: bool) -> Deed {
    if !is_under_way {
        Deed::Begins(numbers.next(2) == 0)
    } else if numbers.next(6) == 0 {
        Deed::Ends
    } else {
        Deed::Goes
    }
}

/// Sees what each of ten applications gets in an order that the numbers give.
fn see_ten(alloc: Global, numbers: &mut Numbers) -> Result<(), Fail> {
    let tries = numbers.next(11) as u8;
    let mut walk = Walk::new(alloc, tries, 10)?;
    for _ in 0..30 {
        let app = 1 + numbers.next(10);
        let deed = next_deed(numbers, walk.charges.is_under_way(app));
        walk.add(app, deed)?;
    }
    walk.see(alloc)
}

/// Sees that for 250 orders, those that numbers give from a first one on.
fn see_orders_of_ten(alloc: Global, first: u64) -> Result<(), Fail> {
    let mut numbers = Numbers::new(first);
    for _ in 0..250 {
        see_ten(alloc, &mut numbers)?;
    }
    Ok(())
}

#[test]
fn ten_applications_keep_to_ten_tries(rt: HostRuntime) -> Result<(), Fail> {
    see_orders_of_ten(rt.alloc(), 1)
}

#[test]
fn ten_applications_keep_to_ten_tries_in_other_orders(rt: HostRuntime) -> Result<(), Fail> {
    see_orders_of_ten(rt.alloc(), 2)
}

#[test]
fn ten_applications_keep_to_ten_tries_in_a_third_list_of_orders(
    rt: HostRuntime,
) -> Result<(), Fail> {
    see_orders_of_ten(rt.alloc(), 3)
}

#[test]
fn ten_applications_keep_to_ten_tries_in_a_fourth_list_of_orders(
    rt: HostRuntime,
) -> Result<(), Fail> {
    see_orders_of_ten(rt.alloc(), 4)
}
