//! Mechanisms with their parameters.

ghost use Rattle.std.specs.Prelude.{◌≡◌, ◌==◌, length, Option, Some, None, if◌then◌else◌, take, drop};
ghost use Rattle.model_answers.specs.CipherInit.{counter_bits, is_counter_parameter, with_parameter};
ghost use Rattle.streams.specs.declared.mechanism.Mechanism.TheVariants.{Ctr};

use aes_modes::CounterBits;
use aes_vector::{BLOCK_SIZE, Block};
use byteorder::{BigEndian, ByteOrder};
use ck_types::MechType;
use streams::Mechanism;

fn block(parameter: &[u8]) -> Option<Block>
    ensures { result ≡ (if length parameter.now == 16 then Some parameter.now else None) }
{
    if parameter.len() != BLOCK_SIZE {
        return None;
    }
    let mut block = [0; BLOCK_SIZE];
    block.copy_from_slice(parameter);
    Some(block)
}

// The counter bits and the first counter block.
fn counters(parameter: &[u8]) -> Option<Mechanism>
    ensures { result ≡ (if is_counter_parameter parameter.now then Some (Ctr (counter_bits parameter.now) (drop 8 parameter.now)) else None) }
{
    if parameter.len() != 8 + BLOCK_SIZE {
        return None;
    }
    let (bits, start) = parameter.split_at(8);
    let bits = CounterBits::new(BigEndian::read_u64(bits))?;
    let start = block(start)?;
    Some(Mechanism::Ctr { bits, start })
}

/// The mechanism of a type and its parameter (PKCS #11 v3.1, 6.10 and 6.11). `None` where it is no cipher, or the parameter
/// isn't its own.
pub(crate) fn with_parameter(mechanism: MechType, parameter: &[u8]) -> Option<Mechanism>
    ensures { result ≡ with_parameter mechanism parameter.now }
{
    match mechanism {
        MechType::AesEcb if parameter.is_empty() => Some(Mechanism::Ecb),
        MechType::AesCbc => {
            let iv = block(parameter)?;
            Some(Mechanism::Cbc { iv })
        }
        MechType::AesCbcPad => {
            let iv = block(parameter)?;
            Some(Mechanism::CbcPad { iv })
        }
        MechType::AesCtr => counters(parameter),
        _ => None,
    }
}
