//! The numbers, the checksums and the frames of a log.

ghost use Rattle.std.specs.Prelude.{◌≡◌, ◌+◌, ◌≤◌, ◌↔◌, length, IsTrue};
ghost use Rattle.sqlite_wal.specs.Format.{be32, IsFrame, IsSigned, part, stored_sum};

use sqlite_wal::checksum_of;

/// A running sum of words.
pub(crate) type Sum = (u32, u32);

/// The bytes of the header.
pub(crate) const HEADER_LEN: usize = 32;

/// The bytes of a frame before its page.
pub(crate) const FRAME_HEADER_LEN: usize = 24;

/// Four bytes as a number, the highest first.
pub(crate) fn number_at(bytes: &[u8], at: usize) -> u32
    requires { at + 4 ≤ length bytes.now }
    ensures { result ≡ be32 bytes.now at }
{
    bytes[at] as u32 * 0x100_0000
        + bytes[at + 1] as u32 * 0x1_0000
        + bytes[at + 2] as u32 * 0x100
        + bytes[at + 3] as u32
}

/// The checksum that stands at a place.
pub(crate) fn sum_at(bytes: &[u8], at: usize) -> Sum
    requires { at + 8 ≤ length bytes.now }
    ensures { result ≡ stored_sum bytes.now at }
{
    (number_at(bytes, at), number_at(bytes, at + 4))
}

/// Whether a header begins with the magic number and ends with its checksum.
pub(crate) fn is_signed(head: &[u8]) -> bool
    requires { length head.now ≡ 32 }
    ensures { IsTrue result ↔ IsSigned head.now }
{
    if head[0] != 0x37 || head[1] != 0x7f || head[2] != 0x06 {
        return false;
    }
    if head[3] != 0x82 && head[3] != 0x83 {
        return false;
    }
    checksum_of(head[3] == 0x83, (0, 0), &head[..24]) == sum_at(head, 24)
}

/// Whether a frame is one of the log with this header, and goes on from this checksum.
pub(crate) fn is_frame(head: &[u8], before: Sum, frame: &[u8]) -> bool
    requires head { length head.now ≡ 32 }
    requires frame { 24 ≤ length frame.now }
    ensures { IsTrue result ↔ IsFrame head.now before frame.now }
{
    if frame[8..16] != head[16..24] || number_at(frame, 0) == 0 {
        return false;
    }
    let big = head[3] == 0x83;
    let front = checksum_of(big, before, &frame[..8]);
    checksum_of(big, front, &frame[24..]) == sum_at(frame, 16)
}
