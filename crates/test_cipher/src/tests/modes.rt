use crate::tests::given::{TEXT, bytes_of, key_of};
use aes_modes::{CounterBits, Direction, ModeFault, cbc, cbc_pad, ctr, ecb};
use aes_vector::Key;
use std::alloc::Global;
use std::test::Fail;
use vectors::{COUNTER, IV, KEY_128, Mode, SP_800_38A, Vector};

mod vectors;

// A text under a mode of the table, with the table's parameters.
fn turned(
    alloc: Global,
    key: &Key,
    mode: Mode,
    direction: Direction,
    text: &[u8],
) -> Result<Vec<u8>, Fail> {
    let bits = CounterBits::new(128).ok_or("no such number of bits")?;
    let out = match mode {
        Mode::Ecb => ecb(alloc, key, direction, text)?,
        Mode::Cbc => cbc(alloc, key, direction, IV.to_be_bytes(), text)?,
        Mode::Ctr => ctr(alloc, key, direction, bits, COUNTER.to_be_bytes(), text)?,
    };
    Ok(out)
}

fn is_example(
    alloc: Global,
    vector: &Vector,
    key: &Key,
    direction: Direction,
) -> Result<bool, Fail> {
    let (from, to) = match direction {
        Direction::Encrypt => (TEXT, vector.encrypted),
        Direction::Decrypt => (vector.encrypted, TEXT),
    };
    let text = bytes_of(alloc, from)?;
    is_turned_to(alloc, key, vector.mode, direction, &text, to)
}

fn is_turned_to(
    alloc: Global,
    key: &Key,
    mode: Mode,
    direction: Direction,
    text: &[u8],
    to: &[u64],
) -> Result<bool, Fail> {
    let wanted = bytes_of(alloc, to)?;
    Ok(turned(alloc, key, mode, direction, text)? == wanted)
}

#[test]
fn enciphers_and_decrypts_the_standards_examples(rt: HostRuntime) -> Result<(), Fail> {
    for vector in &SP_800_38A {
        let key = key_of(rt.alloc(), vector.key)?;
        let is_there = is_example(rt.alloc(), vector, &key, Direction::Encrypt)?;
        let is_back = is_example(rt.alloc(), vector, &key, Direction::Decrypt)?;
        assert!(rt; is_there && is_back, "{}", vector.source);
    }
    Ok(())
}

// RFC 3686, section 6, test vector 3: 36 bytes, whose last block has 4.
const COUNTER_KEY: &[u64] = &[0x7691be035e5020a8, 0xac6e618529f9a0dc];

const COUNTER_START: u128 = 0x00e0017b27777f3f4a1786f000000001;

const COUNTER_TEXT: &[u64] = &[
    0x0001020304050607,
    0x08090a0b0c0d0e0f,
    0x1011121314151617,
    0x18191a1b1c1d1e1f,
    0x2021222300000000,
];

const COUNTER_ENCRYPTED: &[u64] = &[
    0xc1cf48a89f2ffdd9,
    0xcf4652e9efdb72d7,
    0x4540a42bde6d7836,
    0xd59a5ceaaef31053,
    0x25b2072f00000000,
];

// Whether the first 36 bytes become the others.
fn is_counted(alloc: Global, direction: Direction, from: &[u64], to: &[u64]) -> Result<bool, Fail> {
    let key = key_of(alloc, COUNTER_KEY)?;
    let bits = CounterBits::new(32).ok_or("no such number of bits")?;
    let mut text = bytes_of(alloc, from)?;
    text.truncate(36);
    let out = ctr(
        alloc,
        &key,
        direction,
        bits,
        COUNTER_START.to_be_bytes(),
        &text,
    )?;
    Ok(out.len() == 36 && bytes_of(alloc, to)?.starts_with(&out))
}

#[test]
fn a_last_block_takes_the_first_bytes_of_its_mask(rt: HostRuntime) -> Result<(), Fail> {
    let encrypt = Direction::Encrypt;
    let is_there = is_counted(rt.alloc(), encrypt, COUNTER_TEXT, COUNTER_ENCRYPTED)?;
    let decrypt = Direction::Decrypt;
    let is_back = is_counted(rt.alloc(), decrypt, COUNTER_ENCRYPTED, COUNTER_TEXT)?;
    assert!(rt; is_there && is_back);
    Ok(())
}

// Two bits count from 1 to 3, for three blocks.
fn ends_after_three_blocks(alloc: Global, key: &Key, direction: Direction) -> Result<bool, Fail> {
    let bits = CounterBits::new(2).ok_or("no such number of bits")?;
    let start = 1_u128.to_be_bytes();
    let further = ctr(alloc, key, direction, bits, start, &[0; 49]);
    Ok(
        further == Err(ModeFault::CounterEnd)
            && ctr(alloc, key, direction, bits, start, &[0; 48])?.len() == 48,
    )
}

#[test]
fn the_counter_ends(rt: HostRuntime) -> Result<(), Fail> {
    let key = key_of(rt.alloc(), KEY_128)?;
    let encrypting = ends_after_three_blocks(rt.alloc(), &key, Direction::Encrypt)?;
    let decrypting = ends_after_three_blocks(rt.alloc(), &key, Direction::Decrypt)?;
    assert!(rt; encrypting && decrypting);
    Ok(())
}

#[test]
fn a_counter_has_from_1_to_128_bits(rt: HostRuntime) {
    assert!(rt; CounterBits::new(0).is_none() && CounterBits::new(129).is_none());
    assert_eq!(rt; CounterBits::new(128).map(|bits| bits.number()), Some(128));
}

// The answers are those of OpenSSL 3.0: `openssl enc -aes-128-cbc`.
#[test]
fn pads_and_takes_the_padding_off(rt: HostRuntime) -> Result<(), Fail> {
    let key = key_of(rt.alloc(), KEY_128)?;
    let plain = bytes_of(rt.alloc(), TEXT)?;
    for (len, last_block) in PADDED {
        let text = plain.get(..*len).ok_or("the text is shorter")?;
        let is_padded = is_padded(rt.alloc(), &key, text, *last_block)?;
        assert!(rt; is_padded, "{len} bytes");
    }
    Ok(())
}

// So many bytes of the text, and the last block of what they are encrypted to.
const PADDED: &[(usize, u128)] = &[
    (0, 0xc84af0b613435d5d9182801a9bd9320b),
    (15, 0x9be1e579d107a136c031b645a88da750),
    (16, 0x8964e0b149c10b7b682e6e39aaeb731c),
];

// Whether the text is encrypted to what ends so, and is had back from it.
fn is_padded(alloc: Global, key: &Key, text: &[u8], last_block: u128) -> Result<bool, Fail> {
    let iv = IV.to_be_bytes();
    let encrypted = cbc_pad(alloc, key, Direction::Encrypt, iv, text)?;
    Ok(
        encrypted.ends_with(&last_block.to_be_bytes())
            && cbc_pad(alloc, key, Direction::Decrypt, iv, &encrypted)?.as_slice() == text,
    )
}

// The padded empty text, decrypted from other vectors, each of which changes a byte of the padding.
#[test]
fn refuses_what_is_no_padding(rt: HostRuntime) -> Result<(), Fail> {
    let key = key_of(rt.alloc(), KEY_128)?;
    // The last byte is 0, and 17; the first is 17 and the others 16.
    const VECTORS: &[u128] = &[
        0x000102030405060708090a0b0c0d0e1f,
        0x000102030405060708090a0b0c0d0e0e,
        0x010102030405060708090a0b0c0d0e0f,
    ];
    for iv in VECTORS {
        let is_refused = decrypted(rt.alloc(), &key, *iv)? == Err(ModeFault::BadPad);
        assert!(rt; is_refused, "{iv:#x}");
    }
    // The last byte is 1.
    let back = decrypted(rt.alloc(), &key, 0x000102030405060708090a0b0c0d0e1e)??;
    assert!(rt; back.as_slice() == [16; 15].as_slice());
    Ok(())
}

// The padded empty text, decrypted from another vector.
fn decrypted(alloc: Global, key: &Key, iv: u128) -> Result<Result<Vec<u8>, ModeFault>, Fail> {
    let encrypted = cbc_pad(alloc, key, Direction::Encrypt, IV.to_be_bytes(), b"")?;
    Ok(cbc_pad(alloc, key, Direction::Decrypt, iv.to_be_bytes(), &encrypted))
}

fn is_refused(out: Result<Vec<u8>, ModeFault>) -> bool {
    out == Err(ModeFault::LenRange)
}

fn refuses_parts_of_a_block(alloc: Global, key: &Key, direction: Direction) -> bool {
    is_refused(ecb(alloc, key, direction, &[0; 15]))
        && is_refused(cbc(alloc, key, direction, IV.to_be_bytes(), &[0; 17]))
        && ecb(alloc, key, direction, b"").is_ok()
}

fn refuses_to_unpad(alloc: Global, key: &Key, text: &[u8]) -> bool {
    is_refused(cbc_pad(alloc, key, Direction::Decrypt, IV.to_be_bytes(), text))
}

#[test]
fn refuses_other_lengths(rt: HostRuntime) -> Result<(), Fail> {
    let key = key_of(rt.alloc(), KEY_128)?;
    assert!(rt; refuses_parts_of_a_block(rt.alloc(), &key, Direction::Encrypt));
    assert!(rt; refuses_parts_of_a_block(rt.alloc(), &key, Direction::Decrypt));
    assert!(rt; refuses_to_unpad(rt.alloc(), &key, b""));
    assert!(rt; refuses_to_unpad(rt.alloc(), &key, &[0; 17]));
    Ok(())
}
