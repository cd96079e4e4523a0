//! Tests of `line`: frames in, frames out, over readers and writers that give and take little, and fail,
//! over a keeper that fails, and with each call; those of ciphers, of mechanisms, of keys and of random bytes byte for byte.
#![tactic(auto)]

#[cfg(test)]
mod ciphers;
#[cfg(test)]
mod codes;
#[cfg(test)]
mod every_call;
#[cfg(test)]
mod failures;
#[cfg(test)]
mod keepers;
#[cfg(test)]
mod keys;
#[cfg(test)]
mod long_texts;
#[cfg(test)]
mod tests;
#[cfg(test)]
mod waiting;
