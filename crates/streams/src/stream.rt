//! A text encrypted or decrypted in parts.

ghost use Rattle.std.specs.Prelude.{◌≡◌, ◌≢◌, ◌≤◌, ◌⊎◌, ℕ, List, ◌↔◌, ◌==◌, true, false, not, Some, None, ◌++◌, length, IfOk, IfErr, OnErr, IsErrOf};
ghost use Rattle.fips_197.specs.Bytes.{AreBytes};
ghost use Rattle.streams.specs.Streamed.{started_stream, after_piece};
ghost use Rattle.streams.specs.Lengths.{wanted, is_of_no_text, refuses_length, ends_counters};
ghost use Rattle.streams.specs.Outputs.{output_so_far, whole_output, with_data, update_output, last_output};
ghost use Rattle.streams.specs.States.{streamed, HoldsPaddingBack};
ghost use Rattle.streams.specs.Right.{whole_encrypted, IsRight, IsFinalPart, IsOnlyRest, TakesPaddingOff};

use crate::cbc_decryption::CbcDecryption;
use crate::cbc_encryption::CbcEncryption;
use crate::ctr_stream::CtrStream;
use crate::ecb_decryption::EcbDecryption;
use crate::ecb_encryption::EcbEncryption;
use crate::rooms::{counted, nothing_more, padded, so_far, unpadded, whole};
use crate::state::State;
use crate::{Mechanism, Part};
use aes_modes::{Direction, ModeFault};
use aes_vector::Key;
use std::alloc::Global;
use std::marker::Model;

/// A text that is encrypted or decrypted in parts. Contracts see its mechanism with parameter, its
/// direction and key, all data that it has taken and its output so far.
///
/// Of the data it buffers at most 16 bytes, and keeps whether there was any.
#[derive(Drop)]
pub struct Stream {
    state: State,
    has_taken: bool,
}

impl Model for Stream {
    ghost use Rattle.streams.specs.Streamed.{Streamed};

    ghost Value = { Streamed };

    ghost use Rattle.streams.specs.StreamFields.{streamed_of, Holds};

    ghost view = { streamed_of };

    ghost invariant = { Holds };
}

// The state of a stream that has taken nothing.
fn begun(mechanism: Mechanism, direction: Direction, key: Key) -> State
    ensures state { streamed result ≡ started_stream mechanism direction key }
    ensures held { HoldsPaddingBack result }
{
    match mechanism {
        Mechanism::Ecb => match direction {
            Direction::Encrypt => State::EcbEncrypt(EcbEncryption::new(key)),
            Direction::Decrypt => State::EcbDecrypt(EcbDecryption::new(key)),
        },
        Mechanism::Cbc { iv } => match direction {
            Direction::Encrypt => State::CbcEncrypt(CbcEncryption::new(key, iv)),
            Direction::Decrypt => State::CbcDecrypt(CbcDecryption::new(key, iv, 0)),
        },
        Mechanism::CbcPad { iv } => match direction {
            Direction::Encrypt => State::CbcPadEncrypt(CbcEncryption::new(key, iv)),
            Direction::Decrypt => State::CbcPadDecrypt(CbcDecryption::new(key, iv, 1)),
        },
        Mechanism::Ctr { bits, start } => match direction {
            Direction::Encrypt => State::CtrEncrypt(CtrStream::new(key, bits, start)),
            Direction::Decrypt => State::CtrDecrypt(CtrStream::new(key, bits, start)),
        },
    }
}

impl Stream {
    /// A stream that has taken nothing. It takes no memory and cannot fail.
    pub fn new(mechanism: Mechanism, direction: Direction, key: Key) -> Stream
        ensures { result ≡ started_stream mechanism direction key }
    {
        Stream {
            state: begun(mechanism, direction, key),
            has_taken: false,
        }
    }

    /// The same stream once more, from where it stands. It takes no memory and cannot fail.
    pub fn copied(&self) -> Stream
        ensures { result ≡ self.now }
    {
        Stream {
            state: self.state.copied(),
            has_taken: self.has_taken,
        }
    }

    /// Whether it encrypts or decrypts.
    pub fn direction(&self) -> Direction
        ensures { result ≡ self.now.direction }
    {
        self.state.direction()
    }

    /// Whether data was taken: a byte at least.
    pub fn has_taken(&self) -> bool
        ensures { result ≡ not (length self.now.taken == 0) }
    {
        self.has_taken
    }

    /// Takes one more part, of any length, and returns what it adds to the output (PKCS #11 v3.1, 5.8 and
    /// 5.10): all bytes that the data determines before its end is known. These are its whole
    /// blocks, but for the last one where a padding is to be taken off. CTR returns as many bytes as
    /// the part has.
    ///
    /// An `Err` changes nothing: `CounterEnd` where CTR has no counter for each block of the data,
    /// and `Memory` where the allocation of the result fails.
    pub fn update(&mut self, alloc: Global, piece: &[u8]) -> Result<Vec<u8>, ModeFault>
        ensures state { IfOk result (λ out. self.new ≡ after_piece self.old piece.now out.items) }
        ensures length { IfOk result (λ out. length out.items ≡ wanted Part.Update self.old (length piece.now)) }
        ensures right { IsRight self.new }
        ensures value { IfOk result (λ out. out.items ≡ update_output self.old piece.now) }
        ensures err { OnErr result (self.new ≡ self.old) }
        ensures counter_end { IsErrOf result ModeFault.CounterEnd ↔ (ends_counters self.old piece.now ≡ true) }
        ensures faults { IfErr result (λ fault. (fault ≡ ModeFault.CounterEnd) ⊎ (fault ≡ ModeFault.Memory)) }
    {
        let result = self.further(alloc, piece);
        self.is_right();
        result
    }

    // The work of an update.
    fn further(&mut self, alloc: Global, piece: &[u8]) -> Result<Vec<u8>, ModeFault>
        ensures state { IfOk result (λ out. self.new ≡ after_piece self.old piece.now out.items) }
        ensures err { OnErr result (self.new ≡ self.old) }
        ensures counter_end { IsErrOf result ModeFault.CounterEnd ↔ (ends_counters self.old piece.now ≡ true) }
        ensures faults { IfErr result (λ fault. (fault ≡ ModeFault.CounterEnd) ⊎ (fault ≡ ModeFault.Memory)) }
    {
        let out = self.state.update(alloc, piece)?;
        if !piece.is_empty() {
            self.has_taken = true;
        }
        Ok(out)
    }

    /// Ends the text with its last data, of any length, and returns the final part of the output (PKCS #11
    /// v3.1, 5.8 and 5.10): a single-part call gives all data, and a final call none. The stream is
    /// unchanged.
    ///
    /// `LenRange` where data of this length is no text: under ECB and CBC it is whole blocks, and
    /// where a padding is taken off one at least. `CounterEnd` where CTR has no counter for each
    /// block of the data. `BadPad` where no text is encrypted to the data. `Memory` where the result
    /// gets no memory.
    pub fn last(&self, alloc: Global, input: &[u8]) -> Result<Vec<u8>, ModeFault>
        ensures value { IfOk result (λ out. last_output self.now input.now ≡ Some out.items) }
        ensures rest { IfOk result (λ out. IsFinalPart (with_data self.now input.now) out.items) }
        ensures only { IfOk result (λ out. IsOnlyRest (with_data self.now input.now) out.items) }
        ensures length { IfOk result (λ out. length out.items ≤ wanted Part.Last self.now (length input.now)) }
        ensures len_range { IsErrOf result ModeFault.LenRange ↔ (refuses_length Part.Last self.now (length input.now) ≡ true) }
        ensures counter_end { IsErrOf result ModeFault.CounterEnd ↔ (ends_counters self.now input.now ≡ true) }
        ensures bad_pad { IsErrOf result ModeFault.BadPad → last_output self.now input.now ≡ None }
        ensures bad_pad_text { IsErrOf result ModeFault.BadPad → (x : List ℕ) → AreBytes x
            → whole_encrypted self.now.mechanism self.now.key x ≢ self.now.taken ++ input.now }
        ensures bad_pad_mechanism { IsErrOf result ModeFault.BadPad
            → TakesPaddingOff self.now.mechanism self.now.direction }
    {
        self.output_len(Part::Last, input)?;
        let mut stream = self.copied();
        let mut out = stream.update(alloc, input)?;
        let rest = stream.finish(alloc)?;
        out.extend_from_slice(&rest)?;
        Ok(out)
    }

    // The final part of the output where no data is left: of `CbcPad` the last block with the padding, or
    // what the last block has before its padding, and else nothing.
    fn finish(&self, alloc: Global) -> Result<Vec<u8>, ModeFault>
        ensures rest { IfOk result (λ out. IsFinalPart self.now out.items) }
        ensures only { IfOk result (λ out. IsOnlyRest self.now out.items) }
        ensures value { IfOk result (λ out. whole_output self.now ≡ Some (self.now.given ++ out.items)) }
        ensures length { IfOk result (λ out. length out.items ≤ wanted Part.Last self.now 0) }
        ensures len_range { IsErrOf result ModeFault.LenRange
            ↔ (is_of_no_text self.now.mechanism self.now.direction (length self.now.taken) ≡ true) }
        ensures bad_pad_mechanism { IsErrOf result ModeFault.BadPad
            → TakesPaddingOff self.now.mechanism self.now.direction }
        ensures bad_pad { IsErrOf result ModeFault.BadPad → (x : List ℕ) → AreBytes x
            → whole_encrypted self.now.mechanism self.now.key x ≢ self.now.taken }
        ensures bad_pad_value { IsErrOf result ModeFault.BadPad → whole_output self.now ≡ None }
        ensures faults { IfErr result (λ fault. fault ≢ ModeFault.CounterEnd) }
    {
        self.is_right();
        match &self.state {
            State::EcbEncrypt(stream) => nothing_more(alloc, stream.waiting()),
            State::EcbDecrypt(stream) => {
                stream.gives();
                nothing_more(alloc, stream.waiting())
            }
            State::CbcEncrypt(stream) => nothing_more(alloc, stream.waiting()),
            State::CbcDecrypt(stream) => {
                stream.gives();
                nothing_more(alloc, stream.waiting())
            }
            State::CbcPadEncrypt(stream) => Ok(stream.padded_block(alloc)?),
            State::CbcPadDecrypt(stream) => stream.unpadded_block(alloc),
            State::CtrEncrypt(_) => Ok(Vec::new(alloc)),
            State::CtrDecrypt(stream) => {
                stream.gives();
                Ok(Vec::new(alloc))
            }
        }
    }

    /// How many bytes of output buffer a call needs that comes with `input` (PKCS #11 v3.1, 5.2), or why it
    /// is refused. This is returned before any work, and nothing is changed. The call's output is no
    /// longer than that, and shorter only where a padding is taken off.
    ///
    /// A single-part call is the last part with all data, and a final call the last part with none.
    ///
    /// `LenRange` where with the last part the data has a length that no text has. `CounterEnd`
    /// where CTR has no counter for each block of the data.
    pub fn output_len(&self, part: Part, input: &[u8]) -> Result<usize, ModeFault>
        ensures room { IfOk result (λ room. room ≡ wanted part self.now (length input.now)) }
        ensures len_range { IsErrOf result ModeFault.LenRange ↔ (refuses_length part self.now (length input.now) ≡ true) }
        ensures counter_end { IsErrOf result ModeFault.CounterEnd ↔ (ends_counters self.now input.now ≡ true) }
        ensures faults { IfErr result (λ fault. (fault ≡ ModeFault.LenRange) ⊎ (fault ≡ ModeFault.CounterEnd)) }
    {
        match part {
            Part::Update => self.room_of_update(input),
            Part::Last => self.room_of_last(input),
        }
    }

    fn room_of_update(&self, input: &[u8]) -> Result<usize, ModeFault>
        ensures room { IfOk result (λ room. room ≡ wanted Part.Update self.now (length input.now)) }
        ensures counter_end { IsErrOf result ModeFault.CounterEnd ↔ (ends_counters self.now input.now ≡ true) }
        ensures faults { IfErr result (λ fault. fault ≡ ModeFault.CounterEnd) }
    {
        self.is_right();
        match &self.state {
            State::EcbEncrypt(stream) => Ok(so_far(stream.waiting(), 0, input)),
            State::EcbDecrypt(stream) => Ok(so_far(stream.waiting(), 0, input)),
            State::CbcEncrypt(stream) => Ok(so_far(stream.waiting(), 0, input)),
            State::CbcDecrypt(stream) => Ok(so_far(stream.waiting(), 0, input)),
            State::CbcPadEncrypt(stream) => Ok(so_far(stream.waiting(), 0, input)),
            State::CbcPadDecrypt(stream) => Ok(so_far(stream.waiting(), 1, input)),
            State::CtrEncrypt(stream) | State::CtrDecrypt(stream) => counted(stream, input),
        }
    }

    fn room_of_last(&self, input: &[u8]) -> Result<usize, ModeFault>
        ensures room { IfOk result (λ room. room ≡ wanted Part.Last self.now (length input.now)) }
        ensures len_range { IsErrOf result ModeFault.LenRange ↔ (refuses_length Part.Last self.now (length input.now) ≡ true) }
        ensures counter_end { IsErrOf result ModeFault.CounterEnd ↔ (ends_counters self.now input.now ≡ true) }
        ensures faults { IfErr result (λ fault. (fault ≡ ModeFault.LenRange) ⊎ (fault ≡ ModeFault.CounterEnd)) }
    {
        self.is_right();
        match &self.state {
            State::EcbEncrypt(stream) => whole(stream.waiting(), input),
            State::EcbDecrypt(stream) => whole(stream.waiting(), input),
            State::CbcEncrypt(stream) => whole(stream.waiting(), input),
            State::CbcDecrypt(stream) => whole(stream.waiting(), input),
            State::CbcPadEncrypt(stream) => Ok(padded(stream.waiting(), input)),
            State::CbcPadDecrypt(stream) => unpadded(stream.waiting(), input),
            State::CtrEncrypt(stream) | State::CtrDecrypt(stream) => counted(stream, input),
        }
    }

    /// What the output is: the parts equal the whole (SP 800-38A, 6). It does nothing: a proof
    /// cites it.
    pub fn is_right(&self)
        ensures right { IsRight self.now }
        ensures value { output_so_far self.now ≡ self.now.given }
    {
        match &self.state {
            State::EcbEncrypt(stream) => stream.gives(),
            State::EcbDecrypt(stream) => stream.gives(),
            State::CbcEncrypt(stream) => stream.gives(),
            State::CbcDecrypt(stream) => stream.gives(),
            State::CbcPadEncrypt(stream) => stream.gives(),
            State::CbcPadDecrypt(stream) => stream.gives(),
            State::CtrEncrypt(stream) => stream.gives(),
            State::CtrDecrypt(stream) => stream.gives(),
        }
    }
}
