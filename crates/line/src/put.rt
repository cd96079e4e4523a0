//! Bytes that are written and noted.

ghost use Rattle.std.specs.Prelude.{◌≡◌, [], IfErr, OnOk};
ghost use Rattle.door.specs.Ends.{TookBytes};
ghost use Rattle.watched.specs.Noting.{HasFailed, Unfailing};
ghost use Rattle.line.specs.Asking.{PutBy, Puts, Took};
ghost use Rattle.line.specs.Permits.{Permits};

use crate::asked::{Put, Wrote};
use door::{Licence, Sink};
use lists::GhostBytes;
use std::io::{Error, ErrorKind};
use watched::{Watched, is_interrupted};

/// Writes all of the bytes, by up to 2^64 - 1 writes, and notes what the writer took. It ends early where a write would block or
/// fails. One that was interrupted is made again, and counts.
pub(crate) fn put<L: Licence, W: Sink<L>>(
    writer: &mut Watched<W>,
    licence: &L,
    written: &mut GhostBytes,
    bytes: &[u8],
) -> Put
    requires may { Permits (L.allows licence.now) (W.writing writer.old.inner) bytes.now }
    ensures took { Took (W.writing writer.old.inner) (W.writing writer.new.inner) written.old.bytes written.new.bytes }
    ensures puts { Puts written.old.bytes written.new.bytes bytes.now result.lacking }
    ensures by { PutBy result.wrote result.lacking writer.old writer.new }
{
    let mut rest = bytes;
    'rest: for _turn in 0..u64::MAX {
        if rest.is_empty() {
            return Put {
                lacking: 0,
                wrote: Wrote::All,
            };
        }
        match writer.write(licence, rest) {
            Ok(0) => {
                return Put {
                    lacking: rest.len(),
                    wrote: Wrote::Failed(Error::from(ErrorKind::WriteZero)),
                };
            }
            Ok(count) => {
                let (front, after) = rest.split_at(count);
                written.push(front);
                rest = after;
            }
            Err(error) => {
                if error.kind() == ErrorKind::WouldBlock {
                    return Put {
                        lacking: rest.len(),
                        wrote: Wrote::Later,
                    };
                }
                if !is_interrupted(&error) {
                    return Put {
                        lacking: rest.len(),
                        wrote: Wrote::Failed(error),
                    };
                }
            }
        }
    }
    Put {
        lacking: rest.len(),
        wrote: Wrote::Failed(Error::from(ErrorKind::Other)),
    }
}

/// Flushes what was written, by up to 2^64 - 1 flushes; one that was interrupted counts.
pub(crate) fn flush_out<L: Licence, W: Sink<L>>(writer: &mut Watched<W>) -> Result<(), Error>
    ensures bytes { TookBytes (W.writing writer.old.inner) (W.writing writer.new.inner) [] }
    ensures ok { OnOk result (Unfailing writer.old writer.new) }
    ensures flushed { OnOk result (writer.new.unflushed ≡ []) }
    ensures err { IfErr result (λ _. HasFailed writer.old writer.new) }
{
    'flushes: for _turn in 0..u64::MAX {
        match writer.flush() {
            Ok(()) => return Ok(()),
            Err(error) => {
                if !is_interrupted(&error) {
                    return Err(error);
                }
            }
        }
    }
    Err(Error::from(ErrorKind::Other))
}
