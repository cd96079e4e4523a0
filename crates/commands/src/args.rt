//! The process's own arguments.

ghost use Rattle.std.specs.Prelude.{◌≡◌, ◌≢◌};
ghost use Rattle.std.specs.IoError.{error_kind};

use crate::failure::Failure;
use crate::parsing::REFUSED;
use std::io::{Error, ErrorKind, Write};

/// Reports why the process's own arguments can't be read, and returns the exit status: that of an allocation failure, or that
/// of a command line that is refused.
pub fn refuse_args<E: Write>(error: &Error, errors: &mut E) -> u8
    ensures memory { error_kind error.now ≡ ErrorKind.OutOfMemory → result ≡ 6 }
    ensures refused { error_kind error.now ≢ ErrorKind.OutOfMemory → result ≡ 2 }
{
    if error.kind() == ErrorKind::OutOfMemory {
        let _ = writeln!(errors, "tokend: {}", Failure::Memory);
        return Failure::Memory.status();
    }
    let _ = writeln!(errors, "tokend: an argument is not UTF-8");
    REFUSED
}
