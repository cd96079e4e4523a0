use crate::tests::given::{TEXT, bytes_of, key_of};
use aes_modes::{CounterBits, Direction, ModeFault, cbc, cbc_pad, ctr, ecb};
use aes_vector::{Block, Key};
use lists::GhostBytes;
use std::alloc::Global;
use std::mem::size_of;
use std::test::Fail;
use streams::{Mechanism, Part, Stream};

const KEY: &[u64] = &[0x2b7e151628aed2a6, 0xabf7158809cf4f3c];

const VECTOR: Block = [7; 16];

// How long the parts are that a text is cut into.
const LENGTHS: &[usize] = &[1, 15, 16, 17, 31];

// A text under the mode over whole texts.
fn whole(
    alloc: Global,
    key: &Key,
    mechanism: Mechanism,
    direction: Direction,
    text: &[u8],
) -> Result<Vec<u8>, ModeFault> {
    match mechanism {
        Mechanism::Ecb => ecb(alloc, key, direction, text),
        Mechanism::Cbc { iv } => cbc(alloc, key, direction, iv, text),
        Mechanism::CbcPad { iv } => cbc_pad(alloc, key, direction, iv, text),
        Mechanism::Ctr { bits, start } => ctr(alloc, key, direction, bits, start, text),
    }
}

// How many bytes come with the last call: none, some and all.
const LAST: &[usize] = &[0, 17, usize::MAX];

// The same in parts of this length, and so many bytes with the last call. Each part gives as many bytes as it needs a buffer for.
fn in_pieces(
    alloc: Global,
    mut stream: Stream,
    text: &[u8],
    length: usize,
    last: usize,
) -> Result<Vec<u8>, ModeFault> {
    let mut out = Vec::new(alloc);
    let (first, rest) = text.split_at(text.len().saturating_sub(last));
    for piece in first.chunks(length.max(1)) {
        let room = stream.output_len(Part::Update, piece)?;
        let given = stream.update(alloc, piece)?;
        if given.len() == room {
            out.extend_from_slice(&given)?;
        }
    }
    out.extend_from_slice(&stream.last(alloc, rest)?)?;
    Ok(out)
}

// Whether a text, cut into parts of each length, is encrypted and decrypted as the whole one.
fn is_as_whole(
    alloc: Global,
    key: &Key,
    mechanism: Mechanism,
    text: &[u8],
) -> Result<bool, ModeFault> {
    let encrypted = whole(alloc, key, mechanism, Direction::Encrypt, text)?;
    let back = whole(alloc, key, mechanism, Direction::Decrypt, &encrypted)?;
    let there = Stream::new(mechanism, Direction::Encrypt, key.copied());
    let again = Stream::new(mechanism, Direction::Decrypt, key.copied());
    for length in LENGTHS {
        for last in LAST {
            if in_pieces(alloc, there.copied(), text, *length, *last)? != encrypted
                || in_pieces(alloc, again.copied(), &encrypted, *length, *last)? != back
            {
                return Ok(false);
            }
        }
    }
    Ok(back.as_slice() == text)
}

#[test]
fn blocks_in_pieces_are_as_the_whole(rt: HostRuntime) -> Result<(), Fail> {
    let key = key_of(rt.alloc(), KEY)?;
    let text = bytes_of(rt.alloc(), TEXT)?;
    let by_blocks = is_as_whole(rt.alloc(), &key, Mechanism::Ecb, &text)?;
    let chained = is_as_whole(rt.alloc(), &key, Mechanism::Cbc { iv: VECTOR }, &text)?;
    assert!(rt; by_blocks && chained);
    Ok(())
}

#[test]
fn texts_of_any_length_in_pieces_are_as_the_whole(rt: HostRuntime) -> Result<(), Fail> {
    let key = key_of(rt.alloc(), KEY)?;
    let text = bytes_of(rt.alloc(), TEXT)?;
    let bits = CounterBits::new(8).ok_or("no such number of bits")?;
    let padded = Mechanism::CbcPad { iv: VECTOR };
    let counted = Mechanism::Ctr {
        bits,
        start: VECTOR,
    };
    for length in [0, 1, 15, 16, 17, 50, 64] {
        let part = text.get(..length).ok_or("the text is shorter")?;
        let is_padded = is_as_whole(rt.alloc(), &key, padded, part)?;
        let is_counted = is_as_whole(rt.alloc(), &key, counted, part)?;
        assert!(rt; is_padded && is_counted, "{length} bytes");
    }
    Ok(())
}

// Whether a copy of a stream that has taken part of a block continues by itself.
fn goes_on_by_itself(alloc: Global, mut stream: Stream) -> Result<bool, ModeFault> {
    stream.update(alloc, &[1; 20])?;
    let mut copy = stream.copied();
    let first = copy.update(alloc, &[2; 28])?;
    let last = copy.last(alloc, &[3; 16])?;
    let again = copy.last(alloc, &[3; 16])?;
    let is_left = stream.update(alloc, &[2; 28])? == first;
    Ok(is_left && last == again && stream.last(alloc, &[3; 16])? == last)
}

#[test]
fn a_copy_goes_on_by_itself(rt: HostRuntime) -> Result<(), Fail> {
    let key = key_of(rt.alloc(), KEY)?;
    let bits = CounterBits::new(8).ok_or("no such number of bits")?;
    let counted = Mechanism::Ctr {
        bits,
        start: VECTOR,
    };
    let padded = Mechanism::CbcPad { iv: VECTOR };
    for mechanism in [
        Mechanism::Ecb,
        Mechanism::Cbc { iv: VECTOR },
        padded,
        counted,
    ] {
        let stream = Stream::new(mechanism, Direction::Encrypt, key.copied());
        assert!(rt; goes_on_by_itself(rt.alloc(), stream)?);
    }
    for mechanism in [Mechanism::Ecb, Mechanism::Cbc { iv: VECTOR }, counted] {
        let stream = Stream::new(mechanism, Direction::Decrypt, key.copied());
        assert!(rt; goes_on_by_itself(rt.alloc(), stream)?);
    }
    Ok(())
}

#[test]
fn it_is_told_whether_data_was_taken(rt: HostRuntime) -> Result<(), Fail> {
    let key = key_of(rt.alloc(), KEY)?;
    let mut stream = Stream::new(Mechanism::Ecb, Direction::Encrypt, key);
    stream.update(rt.alloc(), b"")?;
    let none = stream.has_taken();
    stream.update(rt.alloc(), b"a")?;
    assert!(rt; !none && stream.has_taken() && stream.copied().has_taken());
    Ok(())
}

// Last blocks whose last bytes are no padding: 0, 17, and unequal ones.
const UNPADDED: &[Block] = &[
    [1, 1, 1, 1, 1, 1, 1, 1, 1, 1, 1, 1, 1, 1, 1, 0],
    [17; 16],
    [3, 3, 3, 3, 3, 3, 3, 3, 3, 3, 3, 3, 3, 2, 3, 3],
];

// A CBC_PAD decryption that has taken this block, encrypted.
fn decryption_of(alloc: Global, key: &Key, last: Block) -> Result<Stream, ModeFault> {
    let encrypted = cbc(alloc, key, Direction::Encrypt, VECTOR, &last)?;
    let mechanism = Mechanism::CbcPad { iv: VECTOR };
    let mut stream = Stream::new(mechanism, Direction::Decrypt, key.copied());
    for byte in &encrypted {
        stream.update(alloc, &[*byte])?;
    }
    Ok(stream)
}

#[test]
fn what_is_no_padding_is_refused_at_the_end(rt: HostRuntime) -> Result<(), Fail> {
    let key = key_of(rt.alloc(), KEY)?;
    for last in UNPADDED {
        let stream = decryption_of(rt.alloc(), &key, *last)?;
        let is_refused = stream.last(rt.alloc(), b"") == Err(ModeFault::BadPad);
        assert!(rt; is_refused);
    }
    let stream = decryption_of(rt.alloc(), &key, [16; 16])?;
    assert!(rt; stream.last(rt.alloc(), b"")?.is_empty());
    Ok(())
}

// Two bits count from 1 to 3, for three blocks.
#[test]
fn the_counter_ends_and_nothing_changes(rt: HostRuntime) -> Result<(), Fail> {
    let bits = CounterBits::new(2).ok_or("no such number of bits")?;
    let start = 1_u128.to_be_bytes();
    let mechanism = Mechanism::Ctr { bits, start };
    let mut stream = Stream::new(mechanism, Direction::Encrypt, key_of(rt.alloc(), KEY)?);
    let first = stream.update(rt.alloc(), &[0; 40])?;
    let is_refused = stream.output_len(Part::Update, &[0; 9]) == Err(ModeFault::CounterEnd)
        && stream.update(rt.alloc(), &[0; 9]) == Err(ModeFault::CounterEnd);
    let rest = stream.update(rt.alloc(), &[0; 8])?;
    assert!(rt; is_refused && first.len() == 40 && rest.len() == 8);
    Ok(())
}

#[test]
fn a_length_of_no_text_is_refused(rt: HostRuntime) -> Result<(), Fail> {
    let key = key_of(rt.alloc(), KEY)?;
    let mut stream = Stream::new(Mechanism::Ecb, Direction::Encrypt, key.copied());
    stream.update(rt.alloc(), &[0; 15])?;
    let is_refused = stream.last(rt.alloc(), b"") == Err(ModeFault::LenRange)
        && stream.output_len(Part::Last, b"") == Err(ModeFault::LenRange);
    let mechanism = Mechanism::CbcPad { iv: VECTOR };
    let none = Stream::new(mechanism, Direction::Decrypt, key);
    assert!(rt; is_refused && none.last(rt.alloc(), b"") == Err(ModeFault::LenRange));
    assert_eq!(rt; stream.output_len(Part::Last, &[0; 17]), Ok(32));
    Ok(())
}

#[test]
fn noted_bytes_take_no_memory(rt: HostRuntime) {
    let mut taken = GhostBytes::new();
    taken.push(b"abc");
    let _copy = taken.copied();
    assert!(rt; size_of::<GhostBytes>() == 0);
}
