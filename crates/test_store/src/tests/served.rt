//! Lines for a token over a keeper, and rows whose calls they take.

use ck_calls::Function;
use keep::Keep;
use line::Words;
use std::alloc::Global;
use std::test::*;
use stdio_line::{LineFault, serve_one};
use test_scripts::{Row, Step, call_of, expect_row, token_over};
use token::Token;
use watched::Watched;
use wire::{FrameReader, read_reply, write_call};

/// A line that has ended: how, what it wrote, and the token after it.
#[derive(Drop)]
pub(super) struct Served<K: Keep> {
    pub(super) ended: Result<u64, LineFault>,
    pub(super) written: Vec<u8>,
    pub(super) token: Token<K>,
}

/// A line of application 0 over the input, for a new token over the keeper, with the random bytes of the seed of zeros.
pub(super) fn serve<K: Keep>(alloc: Global, keep: K, input: &[u8]) -> Result<Served<K>, Fail> {
    let mut token = token_over(alloc, keep)?;
    let mut words = Words::for_app([0; 32], 0);
    let mut reader = Watched::of_std(input);
    let mut writer = Watched::of_std(Vec::<u8>::new(alloc));
    let ended = serve_one(alloc, &mut reader, &mut writer, &mut token, &mut words);
    Ok(Served {
        ended,
        written: writer.into_std(),
        token,
    })
}

/// The frames of the rows' calls.
pub(super) fn frames_of(alloc: Global, rows: &[Row]) -> Result<Vec<u8>, Fail> {
    let mut frames = Vec::new(alloc);
    for (_, step, _) in rows {
        let call = call_of(alloc, *step)?;
        let frame = write_call(alloc, &call);
        drop(call);
        frames.extend_from_slice(&frame?)?;
    }
    Ok(frames)
}

/// Sees that a line for a new token over the keeper returns what the rows have, each of which has a reply. The replies are
/// returned as they were written.
pub(super) fn expect_served<K: Keep>(
    alloc: Global,
    keep: K,
    rows: &[Row],
) -> Result<Vec<u8>, Fail> {
    let Served {
        ended,
        written,
        token,
    } = serve(alloc, keep, &frames_of(alloc, rows)?)?;
    drop(token);
    if ended != Ok(rows.len() as u64) {
        return Err(Fail::new(format_args!("the line ended as {ended:?}")));
    }
    expect_frames(alloc, rows, &written)?;
    Ok(written)
}

/// Sees that these are the frames of what the rows get.
fn expect_frames(alloc: Global, rows: &[Row], written: &[u8]) -> Result<(), Fail> {
    let mut frames = FrameReader::new(alloc);
    frames.feed(written)?;
    for row in rows {
        let payload = frames.next(alloc)?.ok_or("a reply is missing")?;
        let got = read_reply(alloc, number_of(alloc, row.1)?, &payload)?;
        expect_row(alloc, "a line", *row, Some(got))?;
    }
    if frames.is_empty() {
        Ok(())
    } else {
        Err("replies that no row tells".into())
    }
}

/// The number of the function that a step calls.
fn number_of(alloc: Global, step: Step) -> Result<u16, Fail> {
    let call = call_of(alloc, step)?;
    let number = Function::of(&call).number();
    drop(call);
    Ok(number)
}
