//! MACs, as work.

ghost use Rattle.std.specs.Prelude.{◌≡◌, IfErr, IfOk};
ghost use Rattle.mech.specs.declared.work.Work.TheVariants.{Sign, Take, Verify};
ghost use Rattle.mech.specs.Rooms.{HasRoom};
ghost use Rattle.mech.specs.Works.{outcome_of};

use crate::outcome::Outcome;
use crate::work::Work;
use ck_types::Bytes;
use lists::same_bytes;
use macs::Mac;
use ops::MacPlace;
use std::alloc::Global;

/// Takes one more part. No memory is taken.
pub(crate) fn taken(place: MacPlace, mut mac: Mac, input: &[u8]) -> Outcome
    ensures { result ≡ outcome_of (Take place mac input.now) }
{
    mac.update(input);
    Outcome::Taken { place, mac }
}

/// Makes the signature of all data, with the last of it, or returns the work if an allocation fails.
pub(crate) fn signed(alloc: Global, mac: Mac, input: Bytes) -> Result<Outcome, Work>
    ensures value { IfOk result (λ o. o ≡ outcome_of (Sign mac input)) }
    ensures room { IfOk result (λ o. HasRoom (Sign mac input) o) }
    ensures back { IfErr result (λ back. back ≡ Sign mac input) }
{
    let mut whole = mac.copied();
    whole.update(input.as_slice());
    match Bytes::from_slice(alloc, whole.tag().as_slice()) {
        Ok(signature) => Ok(Outcome::Signature(signature)),
        Err(_) => Err(Work::Sign { mac, input }),
    }
}

/// Whether a signature is that of all data, with the last of it. All of its bytes are compared. No memory is taken.
pub(crate) fn verified(mut mac: Mac, input: &[u8], signature: &[u8]) -> Outcome
    ensures { result ≡ outcome_of (Verify mac input.now signature.now) }
{
    mac.update(input);
    if same_bytes(signature, mac.tag().as_slice()) {
        Outcome::RightSignature
    } else {
        Outcome::WrongSignature
    }
}
