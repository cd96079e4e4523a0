//! How long calls take.

use ck_calls::{Call, Function};

/// A text of more bytes is long: 16 KiB.
const LONG_TEXT: usize = 16_384;

/// A longer frame has a long text: that, and the call's other fields.
const LONG_FRAME: u32 = LONG_TEXT as u32 + 64;

/// How long a call takes.
#[derive(Clone, Copy, Drop)]
pub(crate) enum Kind {
    Short,
    /// It begins a search.
    Search,
    Long,
}

impl Kind {
    /// That of a call.
    pub(crate) fn of(call: &Call) -> Kind {
        if text_len(call) > LONG_TEXT {
            return Kind::Long;
        }
        Kind::of_function(Function::of(call))
    }

    /// That of a call whose frame begins so: with the payload's length, and the function's number.
    pub(crate) fn of_frame(front: [u8; 6]) -> Kind {
        let [a, b, c, d, e, f] = front;
        if u32::from_be_bytes([a, b, c, d]) > LONG_FRAME {
            return Kind::Long;
        }
        match Function::from_number(u16::from_be_bytes([e, f])) {
            Some(function) => Kind::of_function(function),
            None => Kind::Short,
        }
    }

    /// That of a function's calls with short texts. Those with a PIN compute its verifier (PKCS #11 v3.1, 5.5 and 5.6).
    fn of_function(function: Function) -> Kind {
        match function {
            Function::InitToken | Function::InitPin | Function::SetPin | Function::Login => {
                Kind::Long
            }
            Function::FindObjectsInit => Kind::Search,
            _ => Kind::Short,
        }
    }
}

/// The length of the text that a call has, or 0 where it has none (PKCS #11 v3.1, 5.8, 5.10, 5.13 and 5.15).
fn text_len(call: &Call) -> usize {
    match call {
        Call::Encrypt { data, .. } => data.as_slice().len(),
        Call::EncryptUpdate { part, .. } => part.as_slice().len(),
        Call::Decrypt { encrypted_data, .. } => encrypted_data.as_slice().len(),
        Call::DecryptUpdate { encrypted_part, .. } => encrypted_part.as_slice().len(),
        Call::Sign { data, .. } => data.as_slice().len(),
        Call::SignUpdate { part, .. } => part.as_slice().len(),
        Call::Verify { data, .. } => data.as_slice().len(),
        Call::VerifyUpdate { part, .. } => part.as_slice().len(),
        _ => 0,
    }
}
