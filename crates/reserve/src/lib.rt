//! Room on the store's disk that is set aside for PINs and removals.
//!
//! Whoever makes objects fills a disk. `Reserved` is a keeper that makes or changes none unless some room is set aside. Where a change
//! of the record, a removal or a reset then fails by the device, it gives that room up and tries once more. `Explains` is what a keeper can
//! report of a failure.
//!
//! Proved, by the names of contracts: objects are made or changed only while its room is whole (`room`, `asked`, `refused`). It refuses
//! another change only where no room is left to give up (`again`), and gives it up only for a second try (`spared`). It counts each call
//! once, and is never called steady. What the room is on a disk is a file of `programs`, which tests try.
#![tactic(auto)]

mod explains;
mod reserved;
mod room;

pub use explains::Explains;
pub use reserved::Reserved;
pub use room::SpareRoom;
