//! Values as bytes: one format for both directions.

ghost use Rattle.std.specs.Prelude.{◌≡◌, ◌+◌, ◌≤◌, ◌∷◌, length, take, IfOk};
ghost use Rattle.std.specs.Int.{from_be_bytes, to_be_bytes, w32, w64};
ghost use Rattle.ck_types.specs.Format.{Format, number32, number64, first_bytes, byte_string, pair, optional, whole};
ghost use Rattle.ck_types.specs.Canonical.{IsCanonical, number64_canonical, byte_string_canonical, pair_canonical, optional_canonical};
ghost use Rattle.ck_types.specs.Coding.{Decodes, Encodes};

use crate::entry::Bytes;
use crate::fault::CodecFault;
use byteorder::{BigEndian, ByteOrder};
use std::alloc::Global;

/// A value with one encoding.
pub trait Codec: Drop {
    ghost format: { Format Self };

    /// The value at the front of the bytes, and the bytes after it.
    fn decode(alloc: Global, bytes: &[u8]) -> Result<(Self, &[u8]), CodecFault>
        ensures { Decodes (λ x. (x.0, x.1.now)) result (format.decode bytes.now) };

    /// Adds the encoding at the end. After an error a part of it may stand there.
    fn encode(&self, out: &mut Vec<u8>) -> Result<(), CodecFault>
        ensures { Encodes format self.now out.old.items out.new.items result };

    ghost canonical: { IsCanonical format };
}

/// The value that all of the bytes encode.
pub fn decode_whole<T: Codec>(alloc: Global, bytes: &[u8]) -> Result<T, CodecFault>
    ensures { Decodes (λ x. x) result (whole T.format bytes.now) }
{
    let (value, rest) = T::decode(alloc, bytes)?;
    if !rest.is_empty() {
        return Err(CodecFault::Malformed);
    }
    Ok(value)
}

/// The first `len` bytes, and those after them.
pub fn split_first(bytes: &[u8], len: usize) -> Result<(&[u8], &[u8]), CodecFault>
    ensures decoded { Decodes (λ x. (x.0.now, x.1.now)) result (first_bytes len bytes.now) }
    ensures length { IfOk result (λ x. length x.0.now ≡ len) }
{
    if bytes.len() < len {
        return Err(CodecFault::Malformed);
    }
    Ok(bytes.split_at(len))
}

/// A number of 32 bits, big-endian, and the bytes after it.
pub fn decode_u32(bytes: &[u8]) -> Result<(u32, &[u8]), CodecFault>
    ensures { Decodes (λ x. (x.0, x.1.now)) result (number32.decode bytes.now) }
{
    let (front, rest) = split_first(bytes, 4)?;
    Ok((BigEndian::read_u32(front), rest))
}

/// Adds a length as a number of 32 bits, big-endian.
pub fn encode_len(len: usize, out: &mut Vec<u8>) -> Result<(), CodecFault>
    ensures { Encodes number32 len out.old.items out.new.items result }
{
    let Ok(len) = u32::try_from(len) else {
        return Err(CodecFault::Malformed);
    };
    out.extend_from_slice(&len.to_be_bytes())?;
    Ok(())
}

impl Codec for u64 {
    ghost format = { number64 };

    ghost canonical = { number64_canonical };

    fn decode(_alloc: Global, bytes: &[u8]) -> Result<(u64, &[u8]), CodecFault> {
        let (front, rest) = split_first(bytes, 8)?;
        Ok((BigEndian::read_u64(front), rest))
    }

    fn encode(&self, out: &mut Vec<u8>) -> Result<(), CodecFault> {
        out.extend_from_slice(&self.to_be_bytes())?;
        Ok(())
    }
}

impl Codec for Bytes {
    ghost format = { byte_string };

    ghost canonical = { byte_string_canonical };

    fn decode(alloc: Global, bytes: &[u8]) -> Result<(Bytes, &[u8]), CodecFault> {
        let (len, rest) = decode_u32(bytes)?;
        let (text, rest) = split_first(rest, len as usize)?;
        Ok((Bytes::from_slice(alloc, text)?, rest))
    }

    fn encode(&self, out: &mut Vec<u8>) -> Result<(), CodecFault> {
        encode_len(self.len(), out)?;
        out.extend_from_slice(self.as_slice())?;
        Ok(())
    }
}

impl<A: Codec, B: Codec> Codec for (A, B) {
    ghost format = { pair A.format B.format };

    ghost canonical = { pair_canonical A.format B.format A.canonical B.canonical };

    fn decode(alloc: Global, bytes: &[u8]) -> Result<((A, B), &[u8]), CodecFault> {
        let (first, rest) = A::decode(alloc, bytes)?;
        let (second, rest) = B::decode(alloc, rest)?;
        Ok(((first, second), rest))
    }

    fn encode(&self, out: &mut Vec<u8>) -> Result<(), CodecFault> {
        self.0.encode(out)?;
        self.1.encode(out)
    }
}

impl<A: Codec> Codec for Option<A> {
    ghost format = { optional A.format };

    ghost canonical = { optional_canonical A.format A.canonical };

    fn decode(alloc: Global, bytes: &[u8]) -> Result<(Option<A>, &[u8]), CodecFault> {
        match bytes {
            [0, rest @ ..] => Ok((None, rest)),
            [1, rest @ ..] => {
                let (value, rest) = A::decode(alloc, rest)?;
                Ok((Some(value), rest))
            }
            [] | [_, ..] => Err(CodecFault::Malformed),
        }
    }

    fn encode(&self, out: &mut Vec<u8>) -> Result<(), CodecFault> {
        match self {
            None => {
                out.push(0)?;
                Ok(())
            }
            Some(value) => {
                out.push(1)?;
                value.encode(out)
            }
        }
    }
}
