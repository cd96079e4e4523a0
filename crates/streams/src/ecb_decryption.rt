//! ECB decryption in parts (SP 800-38A, 6.1).

ghost use Rattle.std.specs.Prelude.{◌≡◌, [], ◌+◌, ◌-◌, ◌*◌, ◌≤◌, ◌++◌, length, take, IfOk, OnErr};
ghost use Rattle.fips_197.specs.Bytes.{AreBytes};
ghost use Rattle.aes_modes.specs.Modes.{ecb_blocks};
ghost use Rattle.streams_model.specs.Flows.{begun, further};
ghost use Rattle.streams_model.specs.EcbFlows.{IsEcbDecrypted};

use crate::kept::Kept;
use crate::passed::Passed;
use aes_modes::push_decrypted;
use aes_vector::{BLOCK_SIZE, Key, are_bytes};
use std::alloc::{AllocError, Global};
use std::marker::Model;

/// An ECB decryption that has taken data. It buffers less than a block of data.
#[derive(Drop)]
pub(crate) struct EcbDecryption {
    key: Key,
    passed: Passed,
}

impl Model for EcbDecryption {
    ghost use Rattle.streams_model.specs.Flows.{Flow};

    ghost Value = { Flow };

    ghost use Rattle.streams.specs.EcbDecryptions.{flow_of, Holds};

    ghost view = { flow_of };

    ghost invariant = { Holds };
}

// What the first blocks of buffered bytes and a part are decrypted to.
fn decrypted_blocks(
    alloc: Global,
    key: &Key,
    kept: &Kept,
    piece: &[u8],
    blocks: usize,
) -> Result<Vec<u8>, AllocError>
    requires { 16 * blocks ≤ length kept.now + length piece.now }
    ensures size { IfOk result (λ out. length out.items ≡ 16 * blocks) }
    ensures back { IfOk result (λ out.
        ecb_blocks key.now out.items blocks ≡ take (16 * blocks) (kept.now ++ piece.now)) }
    ensures bytes { IfOk result (λ out. AreBytes out.items) }
{
    let _size = key.size(); // brings its clause
    let front = kept.as_slice();
    are_bytes(front);
    are_bytes(piece);
    let mut out = Vec::with_capacity(alloc, kept.len() + piece.len())?;
    push_decrypted(alloc, &mut out, key, front, piece, blocks)?;
    are_bytes(&out);
    Ok(out)
}

impl EcbDecryption {
    /// A decryption that has taken nothing.
    pub(crate) fn new(key: Key) -> EcbDecryption
        ensures { result ≡ begun [] key 0 }
    {
        let _size = key.size(); // brings its clause
        EcbDecryption {
            key,
            passed: Passed::new(),
        }
    }

    /// The same once more. It takes no memory.
    pub(crate) fn copied(&self) -> EcbDecryption
        ensures { result ≡ self.now }
    {
        EcbDecryption {
            key: self.key.copied(),
            passed: self.passed.copied(),
        }
    }

    /// Takes one more part, and returns what it adds to the output. An `Err` changes nothing.
    pub(crate) fn update(&mut self, alloc: Global, piece: &[u8]) -> Result<Vec<u8>, AllocError>
        ensures state { IfOk result (λ out. self.new ≡ further self.old piece.now out.items) }
        ensures err { OnErr result (self.new ≡ self.old) }
    {
        let blocks = (self.passed.kept.len() + piece.len()) / BLOCK_SIZE;
        let out = decrypted_blocks(alloc, &self.key, &self.passed.kept, piece, blocks)?;
        self.passed.advance(piece, blocks, &out);
        Ok(out)
    }

    /// What the output so far is. It does nothing.
    pub(crate) fn gives(&self)
        ensures { IsEcbDecrypted self.now }
    {
        let _passed = &self.passed; // brings its clause
    }

    /// How many bytes are buffered: at most 16.
    pub(crate) fn waiting(&self) -> usize
        ensures value { result ≡ length self.now.taken - length self.now.given }
        ensures within { result ≤ 16 }
    {
        self.passed.kept.len()
    }
}
