//! Lists of values behind their count.

ghost use Rattle.std.specs.Prelude.{◌≡◌, ◌+◌, ℕ};
ghost use Rattle.ck_types.specs.declared.constants.TheConstants.{MAX_ENTRIES};
ghost use Rattle.ck_types.specs.Format.{decode_many, list_below};
ghost use Rattle.ck_types.specs.Canonical.{list_below_canonical};
ghost use Rattle.ck_types.specs.Coding.{Decodes, Encodes, EncodesAll};
ghost use Rattle.ck_types.specs.Entry.{entry, entry_canonical};

use crate::codec::{Codec, decode_u32, encode_len};
use crate::constants::MAX_ENTRIES;
use crate::entry::{Bytes, Entry};
use crate::fault::CodecFault;
use crate::items::Items;
use std::alloc::Global;

/// A value of which a list may be a field.
pub trait ListItem: Codec {
    ghost most: { ℕ };

    /// How many of them a list may have at most.
    fn max_count() -> u32
        ensures { result ≡ most };
}

fn decode_many<T: ListItem>(
    alloc: Global,
    count: u32,
    bytes: &[u8],
) -> Result<(Vec<T>, &[u8]), CodecFault>
    ensures { Decodes (λ x. (x.0.items, x.1.now)) result (decode_many T.format count bytes.now) }
{
    let mut values = Vec::new(alloc);
    let mut rest = bytes;
    for _ in 0..count {
        let (value, after) = T::decode(alloc, rest)?;
        values.push(value)?;
        rest = after;
    }
    Ok((values, rest))
}

fn encode_many<T: ListItem>(values: &[T], out: &mut Vec<u8>) -> Result<(), CodecFault>
    ensures { EncodesAll T.format values.now out.old.items out.new.items result }
{
    for value in values {
        value.encode(out)?;
    }
    Ok(())
}

impl<T: ListItem> Codec for Items<T> {
    ghost format = { list_below (T.most + 1) T.format };

    ghost canonical = { list_below_canonical (T.most + 1) T.format T.canonical };

    fn decode(alloc: Global, bytes: &[u8]) -> Result<(Items<T>, &[u8]), CodecFault> {
        let (count, rest) = decode_u32(bytes)?;
        if count > T::max_count() {
            return Err(CodecFault::Malformed);
        }
        let (values, rest) = decode_many(alloc, count, rest)?;
        Ok((Items::from_vec(values), rest))
    }

    fn encode(&self, out: &mut Vec<u8>) -> Result<(), CodecFault> {
        if self.len() > T::max_count() as usize {
            return Err(CodecFault::Malformed);
        }
        encode_len(self.len(), out)?;
        encode_many(self.as_slice(), out)
    }
}

/// A template has at most 32 entries.
impl ListItem for Entry {
    ghost most = { MAX_ENTRIES };

    fn max_count() -> u32 {
        MAX_ENTRIES
    }
}

/// A list of numbers, as of handles, has at most 1,024.
impl ListItem for u64 {
    ghost most = { 1024 };

    fn max_count() -> u32 {
        1024
    }
}

impl Codec for Entry {
    ghost format = { entry };

    ghost canonical = { entry_canonical };

    fn decode(alloc: Global, bytes: &[u8]) -> Result<(Entry, &[u8]), CodecFault> {
        let (number, rest) = u64::decode(alloc, bytes)?;
        let (value, rest) = Bytes::decode(alloc, rest)?;
        Ok((
            Entry {
                attr_type: number,
                value,
            },
            rest,
        ))
    }

    fn encode(&self, out: &mut Vec<u8>) -> Result<(), CodecFault> {
        self.attr_type.encode(out)?;
        self.value.encode(out)
    }
}
