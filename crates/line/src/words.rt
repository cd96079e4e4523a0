//! The random bytes of an application.

ghost use Rattle.std.specs.Prelude.{◌≡◌, IfOk, OnErr, length};
ghost use Rattle.line.specs.Words.{words_for, taken};

use rand_chacha::ChaCha20Rng;
use rand_core::{SeedableRng, utils};
use std::alloc::{AllocError, Global};
use std::marker::Model;

/// The random bytes of one application: the words of ChaCha20 (RFC 8439, 2.3) under a seed of 32 bytes, from the next word on.
/// Their stream number is the application's.
#[derive(Drop)]
pub struct Words {
    rng: ChaCha20Rng,
}

impl Model for Words {
    ghost use Rattle.rand_chacha.specs.ChaCha.{ChaCha};

    ghost Value = { ChaCha };

    ghost view = { λ w. w.rng };
}

impl Words {
    /// The words of an application, from the first.
    pub fn for_app(seed: [u8; 32], app: u64) -> Words
        ensures { result ≡ words_for seed app }
    {
        let mut rng = ChaCha20Rng::from_seed(seed);
        rng.set_stream(app);
        Words { rng }
    }

    /// The application.
    pub fn app(&self) -> u64
        ensures { result ≡ self.now.stream }
    {
        self.rng.get_stream()
    }

    /// The next bytes: four of each word, the least significant first. What is left of the last word is
    /// dropped.
    #[tactic(auto, using(crate::proofs::Taking::taken_stream))]
    pub fn take(&mut self, alloc: Global, count: usize) -> Result<Vec<u8>, AllocError>
        ensures ok { IfOk result (λ v. (v.items, self.new) ≡ taken count self.old) }
        ensures length { IfOk result (λ v. length v.items ≡ count) }
        ensures app { self.new.stream ≡ self.old.stream }
        ensures err { OnErr result (self.new ≡ self.old) }
    {
        let mut bytes = vec![in alloc; 0u8; count]?;
        utils::fill_bytes_via_u32(&mut self.rng, &mut bytes);
        Ok(bytes)
    }
}
