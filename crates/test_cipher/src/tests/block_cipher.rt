use crate::tests::given::{bytes_of, key_of};
use aes_slices::{BATCH_SIZE, Batch, SlicedKey, numbers, xor_batches};
use aes_vector::{Block, Key, block_at, xor_blocks};
use std::test::Fail;
use vectors::{VECTORS, Vector};

mod vectors;

#[test]
fn enciphers_and_decrypts_the_standards_examples(rt: HostRuntime) -> Result<(), Fail> {
    for vector in &VECTORS {
        let key = key_of(rt.alloc(), vector.key)?;
        assert!(rt; is_example(vector, &key), "{}", vector.source);
        assert!(rt;
            is_example(vector, &key.copied()),
            "a copied key of {}",
            vector.source
        );
    }
    Ok(())
}

fn is_example(vector: &Vector, key: &Key) -> bool {
    let plain = vector.plain.to_be_bytes();
    let encrypted = vector.encrypted.to_be_bytes();
    key.size() == 8 * vector.key.len()
        && key.encipher(plain) == encrypted
        && key.decipher(encrypted) == plain
        && key.encrypt_number(vector.plain) == vector.encrypted
}

#[test]
fn enciphers_and_decrypts_the_standards_examples_by_tables(rt: HostRuntime) -> Result<(), Fail> {
    for vector in &VECTORS {
        let bytes = bytes_of(rt.alloc(), vector.key)?;
        let key = aes_block::Key::new(&bytes).ok_or("no key of this length")?;
        assert!(rt; is_example_by_tables(vector, &key), "{}", vector.source);
        assert!(rt;
            is_example_by_tables(vector, &key.copied()),
            "a copied key of {}",
            vector.source
        );
    }
    Ok(())
}

fn is_example_by_tables(vector: &Vector, key: &aes_block::Key) -> bool {
    let plain = vector.plain.to_be_bytes();
    let encrypted = vector.encrypted.to_be_bytes();
    key.size() == 8 * vector.key.len()
        && key.encipher(plain) == encrypted
        && key.decipher(encrypted) == plain
        && key.encrypt_number(vector.plain) == vector.encrypted
}

// How many keys of each length are tried, each made of what the one before it encrypts and decrypts.
const TURNS: usize = 64;

#[test]
fn both_programs_give_the_same(rt: HostRuntime) -> Result<(), Fail> {
    for size in [16, 24, 32] {
        assert!(rt; agree_on_keys_of(size)?, "keys of {} bytes", size);
    }
    Ok(())
}

// The bytes of the next key.
fn joined(x: Block, y: Block) -> [u8; 32] {
    let mut bytes = [0; 32];
    bytes[..16].copy_from_slice(&x);
    bytes[16..].copy_from_slice(&y);
    bytes
}

fn agree_on_keys_of(size: usize) -> Result<bool, Fail> {
    let mut bytes = [0; 32];
    let mut block = [0; 16];
    for _ in 0..TURNS {
        let key = Key::new(&bytes[..size.min(32)]).ok_or("no key of this length")?;
        let plain_key = aes_block::Key::new(&bytes[..size.min(32)]).ok_or("no key of this length")?;
        let encrypted = plain_key.encipher(block);
        let decrypted = plain_key.decipher(block);
        let number = u128::from_be_bytes(block);
        if key.encipher(block) != encrypted
            || key.decipher(block) != decrypted
            || key.encrypt_number(number) != plain_key.encrypt_number(number)
        {
            return Ok(false);
        }
        bytes = joined(encrypted, decrypted);
        block = xor_blocks(encrypted, decrypted);
    }
    Ok(true)
}

#[test]
fn enciphers_and_decrypts_the_standards_examples_in_slices(rt: HostRuntime) -> Result<(), Fail> {
    for vector in &VECTORS {
        let key = key_of(rt.alloc(), vector.key)?;
        assert!(rt; is_example_in_slices(vector, &key), "{}", vector.source);
    }
    Ok(())
}

// Each of eight blocks is the example's.
fn is_example_in_slices(vector: &Vector, key: &Key) -> bool {
    let sliced = SlicedKey::new(key);
    let plain = vector.plain.to_be_bytes();
    let encrypted = vector.encrypted.to_be_bytes();
    let there = sliced.encipher(&eightfold(plain));
    let back = sliced.decipher(&eightfold(encrypted));
    for i in 0..8 {
        if block_at(&there, i) != encrypted || block_at(&back, i) != plain {
            return false;
        }
    }
    true
}

fn eightfold(block: Block) -> Batch {
    let mut batch = [0; BATCH_SIZE];
    for i in 0..BATCH_SIZE {
        batch[i] = block[i % 16];
    }
    batch
}

#[test]
fn slices_give_the_same_as_single_blocks(rt: HostRuntime) -> Result<(), Fail> {
    for size in [16, 24, 32] {
        assert!(rt; agree_in_slices_on_keys_of(size)?, "keys of {} bytes", size);
    }
    Ok(())
}

fn agree_in_slices_on_keys_of(size: usize) -> Result<bool, Fail> {
    let mut bytes = [0; 32];
    let mut batch = numbers(1, 8);
    for _ in 0..TURNS {
        let key = Key::new(&bytes[..size.min(32)]).ok_or("no key of this length")?;
        let sliced = SlicedKey::new(&key);
        let encrypted = sliced.encipher(&batch);
        let decrypted = sliced.decipher(&batch);
        for i in 0..8 {
            let block = block_at(&batch, i);
            if block_at(&encrypted, i) != key.encipher(block)
                || block_at(&decrypted, i) != key.decipher(block)
            {
                return Ok(false);
            }
        }
        bytes = joined(block_at(&encrypted, 0), block_at(&decrypted, 1));
        batch = xor_batches(&encrypted, &decrypted);
    }
    Ok(true)
}

// SP 800-38A, F.2.1, block 1: the plain text, the start vector, and the input block that they make.
#[test]
fn adds_the_blocks_of_the_standards_chaining_example(rt: HostRuntime) {
    let plain = 0x6bc1bee22e409f96e93d7e117393172a_u128.to_be_bytes();
    let start = 0x000102030405060708090a0b0c0d0e0f_u128.to_be_bytes();
    let input = 0x6bc0bce12a459991e134741a7f9e1925_u128.to_be_bytes();
    assert_eq!(rt; xor_blocks(plain, start), input);
}
