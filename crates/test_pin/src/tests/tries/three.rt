//! Three applications, in all orders of so many steps of each.

use super::{Deed, Walk};
use crate::tests::given::C;
use std::alloc::Global;
use std::test::*;
use test_scripts::given::*;

/// The application that makes the step at an index of an order. An order is a number of as many digits to the base of three as it
/// has steps.
fn app_at(order: u64, place: u64) -> u64 {
    let mut rest = order;
    for _ in 0..place {
        rest /= 3;
    }
    1 + rest % 3
}

/// How many of the steps of an order are the application's.
fn steps_of(order: u64, steps: u64, app: u64) -> u64 {
    let mut count = 0u64;
    for place in 0..steps {
        if app_at(order, place) == app {
            count = count.saturating_add(1);
        }
    }
    count
}

/// Whether the first steps of an order are made by these applications.
fn begins_by(order: u64, beginning: &[u64]) -> bool {
    let mut rest = order;
    for app in beginning {
        if 1 + rest % 3 != *app {
            return false;
        }
        rest /= 3;
    }
    true
}

/// Sees what each application gets in this order, each step of which begins or ends a check. One of them has the right
/// PIN, if it is one of them.
fn see_order(alloc: Global, tries: u8, order: u64, steps: u64, knows: u64) -> Result<(), Fail> {
    let mut walk = Walk::new(alloc, tries, 3)?;
    for step in 0..steps {
        let app = app_at(order, step);
        let deed = if walk.charges.is_under_way(app) {
            Deed::Ends
        } else {
            Deed::Begins(app == knows)
        };
        walk.add(app, deed)?;
    }
    walk.see(alloc)
}

/// How many steps orders have, how many numbers of so many digits there are, and by which applications the first steps are
/// made.
#[derive(Clone, Copy)]
struct Orders {
    steps: u64,
    numbers: u64,
    beginning: &'static [u64],
}

impl Orders {
    /// Whether the order is one of these, and A and B make two steps each in it, and so C the others.
    fn has(&self, order: u64) -> bool {
        begins_by(order, self.beginning)
            && steps_of(order, self.steps, A) == 2
            && steps_of(order, self.steps, B) == 2
    }
}

/// Two steps of each.
const SIX: Orders = Orders {
    steps: 6,
    numbers: 729,
    beginning: &[],
};

/// Two steps of A, two of B and four of C.
const fn eight(beginning: &'static [u64]) -> Orders {
    Orders {
        steps: 8,
        numbers: 6_561,
        beginning,
    }
}

/// Sees that for each of the orders. Returns how many these are.
fn see_orders(alloc: Global, tries: u8, orders: Orders, knows: u64) -> Result<u64, Fail> {
    let mut count = 0u64;
    for order in 0..orders.numbers {
        if orders.has(order) {
            see_order(alloc, tries, order, orders.steps, knows)?;
            count = count.saturating_add(1);
        }
    }
    Ok(count)
}

/// No application.
const NOBODY: u64 = 0;

#[test]
fn three_wrong_checks_begin_where_three_tries_are_left(rt: HostRuntime) -> Result<(), Fail> {
    assert_eq!(rt; see_orders(rt.alloc(), 7, SIX, NOBODY)?, 90);
    Ok(())
}

#[test]
fn of_three_wrong_checks_as_many_begin_as_tries_are_left(rt: HostRuntime) -> Result<(), Fail> {
    for tries in [8, 9, 10] {
        assert_eq!(rt; see_orders(rt.alloc(), tries, SIX, NOBODY)?, 90);
    }
    Ok(())
}

#[test]
fn a_right_check_leaves_those_beside_it_charged(rt: HostRuntime) -> Result<(), Fail> {
    assert_eq!(rt; see_orders(rt.alloc(), 8, SIX, C)?, 90);
    Ok(())
}

/// Sees that C's two right checks leave those beside them charged, in the orders of eight steps that begin so. Returns how many
/// these are.
fn see_two_right_checks(alloc: Global, beginning: &'static [u64]) -> Result<u64, Fail> {
    see_orders(alloc, 8, eight(beginning), C)
}

#[test]
fn two_right_checks_leave_others_charged_where_a_begins(rt: HostRuntime) -> Result<(), Fail> {
    assert_eq!(rt; see_two_right_checks(rt.alloc(), &[A])?, 105);
    Ok(())
}

#[test]
fn two_right_checks_leave_others_charged_where_b_begins(rt: HostRuntime) -> Result<(), Fail> {
    assert_eq!(rt; see_two_right_checks(rt.alloc(), &[B])?, 105);
    Ok(())
}

#[test]
fn two_right_checks_leave_others_charged_where_a_is_second(rt: HostRuntime) -> Result<(), Fail> {
    assert_eq!(rt; see_two_right_checks(rt.alloc(), &[C, A])?, 60);
    Ok(())
}

#[test]
fn two_right_checks_leave_others_charged_where_b_is_second(rt: HostRuntime) -> Result<(), Fail> {
    assert_eq!(rt; see_two_right_checks(rt.alloc(), &[C, B])?, 60);
    Ok(())
}

#[test]
fn two_right_checks_leave_others_charged_where_c_ends_first(rt: HostRuntime) -> Result<(), Fail> {
    assert_eq!(rt; see_two_right_checks(rt.alloc(), &[C, C])?, 90);
    Ok(())
}
