//! ECB, CBC, CBC with padding and CTR (SP 800-38A) of a text that comes in parts.
//!
//! `specs/Flows.antt` is such a text under a mode of blocks: the data taken, the output so far, and how many bytes stay
//! buffered until the final part. `specs/EcbFlows.antt`, `specs/CbcFlows.antt` and `specs/Countings.antt` are what it is in
//! each mode. `proofs/` has a file a mode: one more part, and the final part, give what the mode gives of the whole text.
//! `streams` implements them.
#![tactic(auto)]
