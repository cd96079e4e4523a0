//! The seeds of random bytes.

ghost use Rattle.std.specs.Prelude.{◌≡◌, IfOk, MatchOption, Ok, replicate};
ghost use Rattle.hex.specs.Hex.{decode_of};
ghost use Rattle.std.specs.Io.KnownBytes.{Consumes};

use crate::cause::Cause;
use crate::failure::{Failure, Fault};
use hex::FromHex;
use std::fs::File;
use std::io::{self, Read};
use std::random::RandomSource;

/// How many bytes a seed has.
const SEED_LEN: usize = 32;

/// A seed, and whether the same one comes again at the next start.
#[derive(Clone, Copy)]
pub struct Seed {
    pub bytes: [u8; SEED_LEN],
    pub comes_again: bool,
}

/// The daemon's seed: the first 32 bytes of a file, or what the system gives.
pub fn daemon_seed(rt: &HostRuntime, path: Option<&str>) -> Result<Seed, Fault> {
    match path {
        Some(path) => seed_in(rt, path),
        None => system_seed(rt),
    }
}

fn system_seed(rt: &HostRuntime) -> Result<Seed, Fault> {
    let mut bytes = [0u8; SEED_LEN];
    match rt.fill_bytes(&mut bytes) {
        Ok(()) => Ok(Seed {
            bytes,
            comes_again: false,
        }),
        Err(error) => Err(Failure::BadInput.because(Cause::RandomBytes(error))),
    }
}

/// The first 32 bytes of a file. A regular file gives the same ones again.
fn seed_in(rt: &HostRuntime, path: &str) -> Result<Seed, Fault> {
    let mut file = match File::open(rt, path) {
        Ok(file) => file,
        Err(error) => return Err(Failure::BadInput.because(Cause::SeedFile(error))),
    };
    let comes_again = file.metadata().is_ok_and(|found| found.is_file());
    seed_of(&mut file, comes_again)
}

/// The seed that a reader has: its next 32 bytes.
pub(crate) fn seed_of<R: Read>(reader: &mut R, comes_again: bool) -> Result<Seed, Fault>
    ensures bytes { IfOk result (λ seed. Consumes (R.remaining reader.old) (R.remaining reader.new) seed.bytes) }
    ensures again { IfOk result (λ seed. seed.comes_again ≡ comes_again) }
{
    let mut bytes = [0u8; SEED_LEN];
    match reader.read_exact(&mut bytes) {
        Ok(()) => Ok(Seed { bytes, comes_again }),
        Err(error) if error.kind() == io::ErrorKind::UnexpectedEof => {
            Err(Failure::BadInput.because(Cause::ShortSeedFile))
        }
        Err(error) => Err(Failure::BadInput.because(Cause::SeedFile(error))),
    }
}

/// The seed that 64 hexadecimal digits spell, or zeros, for trial, where none are given.
pub(crate) fn trial_seed(digits: Option<&str>) -> Result<[u8; SEED_LEN], Fault>
    ensures { IfOk result (λ seed. MatchOption digits.entry (seed ≡ replicate 32 0) (λ text. decode_of text.now ≡ Ok seed)) }
{
    match digits {
        None => Ok([0; SEED_LEN]),
        Some(digits) => match <[u8; SEED_LEN]>::from_hex(digits) {
            Ok(bytes) => Ok(bytes),
            Err(_) => Err(Failure::BadInput.because(Cause::SeedDigits)),
        },
    }
}
