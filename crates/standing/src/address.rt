//! The address of a Unix socket, as the system reads it.

ghost use Rattle.std.specs.Prelude.{◌≡◌, ◌+◌, ◌≤◌, ◌<◌, length, IfSome};

use libc::net::AF_UNIX;

/// The most bytes of a socket's path (unix(7)).
const MAX_PATH_LEN: usize = 107;

/// Writes the address of the socket at a path, and returns its length. None where the path is empty or too long.
pub(crate) fn write_path(raw: &mut [u8; 128], path: &[u8]) -> Option<u32>
    ensures { IfSome result (λ len. (3 ≤ len) × (len ≤ 128)) }
{
    raw[..2].copy_from_slice(&(AF_UNIX as u16).to_ne_bytes());
    if path.is_empty() || path.len() > MAX_PATH_LEN {
        return None;
    }
    raw[2..2 + path.len()].copy_from_slice(path);
    Some(3 + path.len() as u32)
}

/// Writes the address of a socket, and returns its length. The socket is at a path, or at a name in the abstract namespace where
/// that begins with @.
pub fn write_address(raw: &mut [u8; 128], path: &[u8]) -> Option<u32>
    ensures { IfSome result (λ len. len ≤ 128) }
{
    let len = write_path(raw, path)?;
    if raw[2] == b'@' {
        raw[2] = 0;
        Some(len - 1)
    } else {
        Some(len)
    }
}
