//! Bytes that are read and noted.

ghost use Rattle.std.specs.Prelude.{◌≡◌, ◌<◌, ◌++◌, length, false, IsTrue};
ghost use Rattle.line.specs.Asking.{Gave, PieceBy, PieceTakes};
ghost use Rattle.line.specs.Permits.{Knows};

use crate::asked::Piece;
use crate::ending::Ending;
use door::Source;
use lists::GhostBytes;
use std::alloc::Global;
use std::io::ErrorKind;
use watched::{Watched, is_interrupted};
use wire::FrameReader;

/// Gives back what a long frame took of memory, once nothing is held.
pub(crate) fn give_back(alloc: Global, frames: &mut FrameReader, has_grown: &mut bool)
    requires { frames.old.failed ≡ false }
    ensures { frames.new ≡ frames.old }
{
    if *has_grown && frames.is_empty() {
        *frames = FrameReader::new(alloc);
        *has_grown = false;
    }
}

/// Takes a piece that was read.
fn feed(read: &mut GhostBytes, frames: &mut FrameReader, piece: &[u8]) -> bool
    requires { frames.old.failed ≡ false }
    ensures noted { read.new.bytes ≡ read.old.bytes ++ piece.now }
    ensures held { IsTrue result → frames.new.bytes ≡ frames.old.bytes ++ piece.now }
    ensures well { frames.new.failed ≡ false }
{
    read.push(piece);
    frames.feed(piece).is_ok()
}

/// Reads what has come, and notes it.
pub(crate) fn take_piece<R: Source>(
    reader: &mut Watched<R>,
    read: &mut GhostBytes,
    frames: &mut FrameReader,
    piece: &mut [u8],
) -> Piece
    requires room { 0 < length piece.old }
    requires well { frames.old.failed ≡ false }
    ensures gave { Gave (R.reading reader.old.inner) (R.reading reader.new.inner) read.old.bytes read.new.bytes }
    ensures given { Knows R.given (R.reading reader.old.inner) (R.reading reader.new.inner) }
    ensures takes { PieceTakes read.old.bytes read.new.bytes frames.old.bytes frames.new.bytes (R.reading reader.new.inner) result }
    ensures by { PieceBy result reader.old reader.new }
    ensures well { frames.new.failed ≡ false }
{
    match reader.read(piece) {
        Ok(0) => {
            if frames.is_empty() {
                Piece::Ended(Ending::Closed)
            } else {
                Piece::Ended(Ending::Cut)
            }
        }
        Ok(len) => {
            let (front, _) = piece.split_at(len);
            if feed(read, frames, front) {
                Piece::More
            } else {
                Piece::Ended(Ending::Memory)
            }
        }
        Err(error) => {
            if is_interrupted(&error) {
                return Piece::More;
            }
            if error.kind() == ErrorKind::WouldBlock {
                return Piece::Nothing;
            }
            Piece::Ended(Ending::Read(error))
        }
    }
}
