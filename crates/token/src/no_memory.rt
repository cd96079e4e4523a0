//! Which calls take no memory.

ghost use Rattle.std.specs.Prelude.{◌≡◌};
ghost use Rattle.token.specs.Memory.{takes_no_memory};

use ck_calls::Call;

/// Whether a call takes no memory: it returns a state, the token's record or a mechanism's key sizes, ends something, or asks for
/// a length alone (PKCS #11 v3.1, 5.2).
pub(crate) fn takes_no_memory(call: &Call) -> bool
    ensures { result ≡ takes_no_memory call.now }
{
    match call {
        Call::GetTokenInfo { .. }
        | Call::GetMechanismInfo { .. }
        | Call::CloseSession { .. }
        | Call::CloseAllSessions { .. }
        | Call::GetSessionInfo { .. }
        | Call::Logout { .. }
        | Call::FindObjectsFinal { .. } => true,
        Call::EncryptInit { mechanism, .. }
        | Call::DecryptInit { mechanism, .. }
        | Call::SignInit { mechanism, .. }
        | Call::VerifyInit { mechanism, .. } => mechanism.is_none(),
        Call::Encrypt { buffer_len, .. }
        | Call::EncryptUpdate { buffer_len, .. }
        | Call::EncryptFinal { buffer_len, .. }
        | Call::Decrypt { buffer_len, .. }
        | Call::DecryptUpdate { buffer_len, .. }
        | Call::DecryptFinal { buffer_len, .. }
        | Call::Sign { buffer_len, .. }
        | Call::SignFinal { buffer_len, .. } => buffer_len.is_none(),
        _ => false,
    }
}
