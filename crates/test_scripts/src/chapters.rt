//! Scripts of each chapter over objects of the token, which tests play over several keepers and by seats. Where one goes wrong
//! its name and the number of the row are reported. A function returns the rows of one script alone, since a constant of many
//! rows is proved anew in each function that names it.

mod ciphers;
mod keys;
mod objects;
mod pins;

use crate::every_call::EVERY_CALL;
use crate::steps::Row;
use crate::stored::record_with;
use pin_record::Record;
use std::test::Fail;

/// A name, and rows.
pub type Script<'a> = (&'a str, &'a [Row]);

fn every_call() -> &'static [Row] {
    EVERY_CALL
}

/// The script of a new token at this index, if there is one. Its jobs are run where they are returned.
pub fn script_at(place: usize) -> Option<Script<'static>> {
    match place {
        0 => Some(("every call", every_call())),
        1 => Some(("blocks", ciphers::blocks())),
        2 => Some(("pieces", ciphers::pieces())),
        3 => Some(("paddings", ciphers::paddings())),
        4 => Some(("codes", ciphers::codes())),
        5 => Some(("wrapped keys", ciphers::wrapped_keys())),
        6 => Some(("hidden values", objects::hidden_values())),
        7 => Some(("refused objects", objects::refused_objects())),
        8 => Some(("a closed session", objects::closed_session())),
        _ => None,
    }
}

/// The script at this index whose jobs are run by rows of their own, if there is one.
pub fn questions_at(place: usize) -> Option<Script<'static>> {
    match place {
        0 => Some(("an outlived key", objects::outlived_key())),
        1 => Some(("the tenth try", pins::tenth_try())),
        2 => Some(("resets", pins::resets())),
        3 => Some(("a new handle", pins::new_handle())),
        4 => Some(("read-only sessions", pins::read_only_sessions())),
        _ => None,
    }
}

/// The record of a token before the script at this index whose jobs have rows of their own: a new one, or one with both PINs and
/// these tries of the SO's.
pub fn record_at(place: usize) -> Result<Record, Fail> {
    match place {
        0 => Ok(Record::new()),
        2 => record_with(3, 0),
        _ => record_with(0, 0),
    }
}
