//! Eight blocks by the planes of their bits: their sums, and the S-box of FIPS 197 and its inverse on them.
//!
//! Plane i has bit i of each byte of eight blocks (`Eight`), so one gate on a plane is a gate on a bit of all 128 bytes. The S-box
//! and its inverse are circuits of such gates (`circuit`, `inverse_circuit`). They are proved to be the definition's, block by block
//! (`IsSliced`). No call reads memory or takes a branch, and none can fail.
//!
//! Proved, by the names of contracts: each gate of both S-box circuits, this one and that of `aes_vector`, is computed at all 256 bytes.
#![tactic(auto)]

mod circuit;
mod inverse_circuit;
mod planes;
mod substitution;
mod sums;

pub use planes::Eight;
pub use substitution::{substituted, substituted_back};
pub use sums::added;
