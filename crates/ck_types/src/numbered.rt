//! Codes and types as bytes: their numbers in 64 bits.

ghost use Rattle.ck_types.specs.Numbered.{return_code, return_code_canonical, state, state_canonical};

use crate::codec::Codec;
use crate::fault::CodecFault;
use crate::rv::Rv;
use crate::session_state::SessionState;
use std::alloc::Global;

impl Codec for Rv {
    ghost format = { return_code };

    ghost canonical = { return_code_canonical };

    fn decode(alloc: Global, bytes: &[u8]) -> Result<(Rv, &[u8]), CodecFault> {
        let (number, rest) = u64::decode(alloc, bytes)?;
        match Rv::from_number(number) {
            Some(code) => Ok((code, rest)),
            None => Err(CodecFault::Malformed),
        }
    }

    fn encode(&self, out: &mut Vec<u8>) -> Result<(), CodecFault> {
        self.number().encode(out)
    }
}

impl Codec for SessionState {
    ghost format = { state };

    ghost canonical = { state_canonical };

    fn decode(alloc: Global, bytes: &[u8]) -> Result<(SessionState, &[u8]), CodecFault> {
        let (number, rest) = u64::decode(alloc, bytes)?;
        match SessionState::from_number(number) {
            Some(state) => Ok((state, rest)),
            None => Err(CodecFault::Malformed),
        }
    }

    fn encode(&self, out: &mut Vec<u8>) -> Result<(), CodecFault> {
        self.number().encode(out)
    }
}
