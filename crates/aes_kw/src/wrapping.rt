//! Wrapping and unwrapping (RFC 3394, 2.2.1 and 2.2.2).

ghost use Rattle.std.specs.Prelude.{◌≡◌, ◌≢◌, ◌⊎◌, ℕ, ◌+◌, ◌%◌, ◌<◌, ◌↔◌, List, length, IfOk, IfErr, IsErrOf};
ghost use Rattle.fips_197.specs.Bytes.{AreBytes};
ghost use Rattle.aes_kw.specs.KeyWrap.{IsValue, wrapped};

use crate::KwFault;
use crate::registers::{HALF_SIZE, Half, half_at, is_key, step, step_back};
use aes_vector::Key;
use lists::same_bytes;
use std::alloc::Global;

/// The initial value of A (2.2.3.1).
const INITIAL_VALUE: Half = [0xa6; HALF_SIZE];

/// The wrapping of a value of two or more whole halves of a block (RFC 3394, 2.2.1). It has 8 bytes
/// more than the value.
///
/// `LenRange` where the value has less than 16 bytes, or a number that 8 doesn't divide, and
/// `Memory` where the result gets no memory.
pub fn wrap(alloc: Global, key: &Key, value: &[u8]) -> Result<Vec<u8>, KwFault>
    ensures length { IfOk result (λ out. length out.items ≡ length value.now + 8) }
    ensures value { IfOk result (λ out. out.items ≡ wrapped key.now value.now) }
    ensures len_range { IsErrOf result KwFault.LenRange
        ↔ ((length value.now < 16) ⊎ (length value.now % 8 ≢ 0)) }
    ensures faults { IfErr result (λ fault. fault ≢ KwFault.BadCheck) }
{
    is_key(key);
    if value.len() < 2 * HALF_SIZE || value.len() % HALF_SIZE != 0 {
        return Err(KwFault::LenRange);
    }
    let n = value.len() / HALF_SIZE;
    let mut registers = Vec::with_capacity(alloc, value.len().saturating_add(HALF_SIZE))?;
    registers.extend_from_slice(&INITIAL_VALUE)?;
    registers.extend_from_slice(value)?;
    'steps: for done in 0..6 * n {
        step(key, &mut registers, n, done + 1);
    }
    Ok(registers)
}

/// The value whose wrapping `bytes` is (RFC 3394, 2.2.2). It has 8 bytes less.
///
/// `LenRange` where there are less than 24 bytes, or a number that 8 doesn't divide. `BadCheck`
/// where `bytes` is the wrapping of no value. `Memory` where the allocation of the result fails.
pub fn unwrap(alloc: Global, key: &Key, bytes: &[u8]) -> Result<Vec<u8>, KwFault>
    ensures length { IfOk result (λ value. length value.items + 8 ≡ length bytes.now) }
    ensures value { IfOk result (λ value. wrapped key.now value.items ≡ bytes.now) }
    ensures only { IfOk result (λ value. (x : List ℕ) → IsValue x → wrapped key.now x ≡ bytes.now
        → x ≡ value.items) }
    ensures len_range { IsErrOf result KwFault.LenRange
        ↔ ((length bytes.now < 24) ⊎ (length bytes.now % 8 ≢ 0)) }
    ensures bad_check { IsErrOf result KwFault.BadCheck
        → (x : List ℕ) → IsValue x → wrapped key.now x ≢ bytes.now }
{
    is_key(key);
    if bytes.len() < 3 * HALF_SIZE || bytes.len() % HALF_SIZE != 0 {
        return Err(KwFault::LenRange);
    }
    let n = bytes.len() / HALF_SIZE - 1;
    let mut registers = Vec::with_capacity(alloc, bytes.len())?;
    registers.extend_from_slice(bytes)?;
    'steps: for undone in 0..6 * n {
        step_back(key, &mut registers, n, 6 * n - undone);
    }
    if !same_bytes(&half_at(&registers, 0), &INITIAL_VALUE) {
        return Err(KwFault::BadCheck);
    }
    registers.rotate_left(HALF_SIZE);
    registers.truncate(HALF_SIZE * n);
    Ok(registers)
}
