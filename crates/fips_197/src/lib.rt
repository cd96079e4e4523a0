//! AES as FIPS 197 defines it: the field of 256 elements, the S-box by inverse and affine transformation, the state and
//! its columns as polynomials. Then the key expansion, the rounds, and the equivalent inverse cipher.
//!
//! `specs/` are definitions alone, which `aes_block` and `aes_vector` meet. `proofs/` shows of them that each byte but 0
//! has an inverse and `inverse` is it (`FieldLaws`), and that the inverse cipher leads back (`Inverses`). Each word of the
//! key schedule is the standard's sum of earlier ones (`KeySchedules`). They give the standard's examples, C.1 to C.3
//! among them (`StandardFacts`).
//!
//! A proof above may cite what is known of `xor_bytes` and `IsBlock` (`Blocks`), of an encrypted block
//! (`IsBlock-encrypted_block` in `KeySchedules`), of a text's blocks (`TextBlocks`) and of a number's bytes (`Numbers`).
//!
//! Section numbers are those of FIPS 197 of November 2001; its update of May 2023 keeps the algorithm.
//!
//! Proved, by the names of contracts: the examples of FIPS 197 are computed from what is written down here.
#![tactic(auto)]
