//! The order of faults: of two faults of a call, the code is that of the first in the call's table. Here it is checked that the
//! cases of a test have all neighbours of the tables.

use crate::calls::call_of;
use crate::steps::Step;
use ck_calls::Function;
use precede::{Condition as Fault, rows};
use std::alloc::Global;
use std::test::Fail;

/// Two faults, and a call with both.
pub type Pair = (Fault, Fault, Step);

/// Two faults of a function that can't both hold.
pub type LeftOut = (Function, Fault, Fault);

/// Sees that of each call's table the fault given is the second row, after a pending call. Each row after it must have a pair with
/// the one before it, or be left out.
pub fn expect_neighbours(
    alloc: Global,
    seconds: &[(Fault, Step)],
    pairs: &[Pair],
    left_out: &[LeftOut],
) -> Result<(), Fail> {
    for (fault, step) in seconds {
        let function = function_of(alloc, *step)?;
        match rows(function.number()) {
            [Fault::Busy, second, rest @ ..] if second == fault => {
                expect_rest(alloc, function, *fault, rest, (pairs, left_out))?
            }
            _ => return Err("a table that begins otherwise".into()),
        }
    }
    Ok(())
}

fn expect_rest(
    alloc: Global,
    function: Function,
    before: Fault,
    rest: &[Fault],
    (pairs, left_out): (&[Pair], &[LeftOut]),
) -> Result<(), Fail> {
    let mut first = before;
    for second in rest {
        let is_left_out = left_out
            .iter()
            .any(|out| *out == (function, first, *second));
        if !is_left_out && !has_pair(alloc, function, (first, *second), pairs)? {
            return Err(Fail::new(format_args!("{function:?}: {first:?}, {second:?}")));
        }
        first = *second;
    }
    Ok(())
}

/// Whether one of the pairs is of these faults of the function.
fn has_pair(
    alloc: Global,
    function: Function,
    faults: (Fault, Fault),
    pairs: &[Pair],
) -> Result<bool, Fail> {
    for (first, second, both) in pairs {
        if (*first, *second) == faults && function_of(alloc, *both)? == function {
            return Ok(true);
        }
    }
    Ok(false)
}

fn function_of(alloc: Global, step: Step) -> Result<Function, Fail> {
    let call = call_of(alloc, step)?;
    let function = Function::of(&call);
    drop(call);
    Ok(function)
}
