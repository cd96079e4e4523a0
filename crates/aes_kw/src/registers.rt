//! The registers A, R[1], ..., R[n] of RFC 3394, 8 bytes each, in a row, and its steps.

ghost use Rattle.std.specs.Prelude.{◌≡◌, ℕ, ◌+◌, ◌*◌, ◌≤◌, ◌++◌, List, length};
ghost use Rattle.std.specs.Int.{w64, to_be_bytes};
ghost use Rattle.fips_197.specs.Bytes.{AreBytes, xor_bytes};
ghost use Rattle.fips_197.specs.KeyExpansion.{IsKey};
ghost use Rattle.aes_kw.specs.KeyWrap.{half, with_half, step};

use aes_vector::{Block, Key, are_bytes};

/// The length of half a block in bytes.
pub(crate) const HALF_SIZE: usize = 8;

/// Half a block, which a register holds.
pub(crate) type Half = [u8; HALF_SIZE];

/// Half `i` of a row of halves.
#[inline(always)]
pub(crate) fn half_at(row: &[u8], i: usize) -> Half
    requires { 8 * i + 8 ≤ length row.now }
    ensures { result ≡ half row.now i }
{
    let mut half = [0; HALF_SIZE];
    half.copy_from_slice(&row[HALF_SIZE * i..HALF_SIZE * i + HALF_SIZE]);
    half
}

/// Writes half `i` of a row of halves.
#[inline(always)]
fn set_half(row: &mut [u8], i: usize, half: Half)
    requires { 8 * i + 8 ≤ length row.old }
    ensures { row.new ≡ with_half row.old i half }
{
    row[HALF_SIZE * i..HALF_SIZE * i + HALF_SIZE].copy_from_slice(&half);
}

/// The block of two halves.
#[inline(always)]
fn joined(first: Half, second: Half) -> Block
    ensures { result ≡ first ++ second }
{
    let mut block = [0; 2 * HALF_SIZE];
    block[..HALF_SIZE].copy_from_slice(&first);
    block[HALF_SIZE..].copy_from_slice(&second);
    block
}

/// A with the number of a step added.
#[inline(always)]
fn with_number(check: Half, t: u64) -> Half
    ensures { result ≡ xor_bytes check (to_be_bytes w64 t) }
{
    are_bytes(&check);
    (u64::from_be_bytes(check) ^ t).to_be_bytes()
}

/// What the type of a key says of its bytes.
#[inline(always)]
pub(crate) fn is_key(key: &Key)
    ensures { IsKey key.now }
{
    let _size = key.size(); // brings its clause
}

/// Step `t` of wrapping, over A and the `n` registers behind it (RFC 3394, 2.2.1, step 2).
pub(crate) fn step(key: &Key, registers: &mut [u8], n: usize, t: usize)
    requires size { length registers.old ≡ 8 * n + 8 }
    requires some { 1 ≤ n }
    requires first { 1 ≤ t }
    ensures { registers.new ≡ step key.now n t registers.old }
{
    let i = (t - 1) % n + 1;
    let block = key.encipher(joined(half_at(registers, 0), half_at(registers, i)));
    set_half(registers, 0, with_number(half_at(&block, 0), t as u64));
    set_half(registers, i, half_at(&block, 1));
}

/// The registers before step `t` of wrapping (2.2.2, step 2).
pub(crate) fn step_back(key: &Key, registers: &mut [u8], n: usize, t: usize)
    requires size { length registers.old ≡ 8 * n + 8 }
    requires some { 1 ≤ n }
    requires first { 1 ≤ t }
    ensures back { step key.now n t registers.new ≡ registers.old }
    ensures only { (x : List ℕ) → AreBytes x → length x ≡ 8 * n + 8
        → step key.now n t x ≡ registers.old → x ≡ registers.new }
{
    is_key(key);
    let i = (t - 1) % n + 1;
    let check = with_number(half_at(registers, 0), t as u64);
    let block = key.decipher(joined(check, half_at(registers, i)));
    set_half(registers, 0, half_at(&block, 0));
    set_half(registers, i, half_at(&block, 1));
}
