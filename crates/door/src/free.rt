//! Where no licence is needed.

use crate::ends::Licence;

/// The licence to write whatever it is.
#[derive(Drop)]
pub struct Free;

impl Licence for Free {
    ghost allows = { λ l app taken bytes. Unit {0} };
}
