//! The states of streams.

ghost use Rattle.std.specs.Prelude.{◌≡◌, ◌⊎◌, ◌↔◌, true, IfOk, IfErr, OnErr, IsErrOf};
ghost use Rattle.streams.specs.Lengths.{ends_counters};
ghost use Rattle.streams.specs.States.{streamed, HoldsPaddingBack};
ghost use Rattle.streams.specs.Streamed.{after_piece};

use crate::cbc_decryption::CbcDecryption;
use crate::cbc_encryption::CbcEncryption;
use crate::ctr_stream::CtrStream;
use crate::ecb_decryption::EcbDecryption;
use crate::ecb_encryption::EcbEncryption;
use aes_modes::{Direction, ModeFault};
use std::alloc::Global;

/// A mechanism in a direction, with what it keeps.
#[derive(Drop)]
pub(crate) enum State {
    EcbEncrypt(EcbEncryption),
    EcbDecrypt(EcbDecryption),
    CbcEncrypt(CbcEncryption),
    CbcDecrypt(CbcDecryption),
    CbcPadEncrypt(CbcEncryption),
    CbcPadDecrypt(CbcDecryption),
    CtrEncrypt(CtrStream),
    CtrDecrypt(CtrStream),
}

impl State {
    /// The same once more. It takes no memory.
    pub(crate) fn copied(&self) -> State
        ensures { result ≡ self.now }
    {
        match self {
            State::EcbEncrypt(stream) => State::EcbEncrypt(stream.copied()),
            State::EcbDecrypt(stream) => State::EcbDecrypt(stream.copied()),
            State::CbcEncrypt(stream) => State::CbcEncrypt(stream.copied()),
            State::CbcDecrypt(stream) => State::CbcDecrypt(stream.copied()),
            State::CbcPadEncrypt(stream) => State::CbcPadEncrypt(stream.copied()),
            State::CbcPadDecrypt(stream) => State::CbcPadDecrypt(stream.copied()),
            State::CtrEncrypt(stream) => State::CtrEncrypt(stream.copied()),
            State::CtrDecrypt(stream) => State::CtrDecrypt(stream.copied()),
        }
    }

    /// The direction.
    pub(crate) fn direction(&self) -> Direction
        ensures { result ≡ (streamed self.now).direction }
    {
        match self {
            State::EcbEncrypt(_)
            | State::CbcEncrypt(_)
            | State::CbcPadEncrypt(_)
            | State::CtrEncrypt(_) => Direction::Encrypt,
            State::EcbDecrypt(_)
            | State::CbcDecrypt(_)
            | State::CbcPadDecrypt(_)
            | State::CtrDecrypt(_) => Direction::Decrypt,
        }
    }

    /// Takes one more part, and returns what it adds to the output. An `Err` changes nothing.
    pub(crate) fn update(&mut self, alloc: Global, piece: &[u8]) -> Result<Vec<u8>, ModeFault>
        requires { HoldsPaddingBack self.old }
        ensures state { IfOk result (λ out. streamed self.new ≡ after_piece (streamed self.old) piece.now out.items) }
        ensures held { HoldsPaddingBack self.new }
        ensures err { OnErr result (self.new ≡ self.old) }
        ensures counter_end { IsErrOf result ModeFault.CounterEnd ↔ (ends_counters (streamed self.old) piece.now ≡ true) }
        ensures faults { IfErr result (λ fault. (fault ≡ ModeFault.CounterEnd) ⊎ (fault ≡ ModeFault.Memory)) }
    {
        match self {
            State::EcbEncrypt(stream) => Ok(stream.update(alloc, piece)?),
            State::EcbDecrypt(stream) => Ok(stream.update(alloc, piece)?),
            State::CbcEncrypt(stream) => Ok(stream.update(alloc, piece)?),
            State::CbcDecrypt(stream) => Ok(stream.update(alloc, piece)?),
            State::CbcPadEncrypt(stream) => Ok(stream.update(alloc, piece)?),
            State::CbcPadDecrypt(stream) => Ok(stream.update(alloc, piece)?),
            State::CtrEncrypt(stream) => stream.update(alloc, piece),
            State::CtrDecrypt(stream) => stream.update(alloc, piece),
        }
    }
}
