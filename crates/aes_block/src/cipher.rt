// A block under a key schedule.

ghost use Rattle.std.specs.Prelude.{◌≡◌, ℕ, ◌<◌, ◌≤◌};
ghost use Rattle.fips_197.specs.Bytes.{IsBlock};
ghost use Rattle.fips_197.specs.Cipher.{round_key, cipher};
ghost use Rattle.fips_197.specs.InverseCipher.{inverse_mix_columns, inverse_cipher};
ghost use Rattle.aes_block.specs.Words.{words_bytes, state_bytes};

use crate::Block;
use crate::inverse_round::{inverse_last_round, inverse_round};
use crate::key_expansion::Schedule;
use crate::round::{last_round, round};
use crate::state::State;

// The round key of round r.
#[inline(always)]
fn round_key(schedule: &Schedule, r: usize) -> State
    requires { r < 15 }
    ensures { state_bytes result ≡ round_key (words_bytes schedule.now) r }
{
    let i = 4 * r;
    State(
        schedule[i],
        schedule[i + 1],
        schedule[i + 2],
        schedule[i + 3],
    )
}

/// The cipher (FIPS 197, 5.1) in so many rounds.
#[inline(always)]
pub(crate) fn encrypt(schedule: &Schedule, rounds: usize, state: State) -> State
    requires low { 1 ≤ rounds }
    requires high { rounds < 15 }
    ensures { state_bytes result ≡ cipher (words_bytes schedule.now) rounds (state_bytes state) }
{
    let mut s = state.add_round_key(round_key(schedule, 0));
    'rounds: for r in 1..rounds {
        s = round(s, round_key(schedule, r));
    }
    last_round(s, round_key(schedule, rounds))
}

/// The equivalent inverse cipher (5.3.5) in so many rounds. `inverse` has the round keys of those
/// that mix columns.
pub(crate) fn decrypt(schedule: &Schedule, inverse: &Schedule, rounds: usize, block: Block) -> Block
    requires low { 1 ≤ rounds }
    requires high { rounds < 15 }
    requires inverse { (r : ℕ) → 1 ≤ r → r < rounds
        → round_key (words_bytes inverse.now) r
        ≡ inverse_mix_columns (round_key (words_bytes schedule.now) r) }
    ensures value { result ≡ inverse_cipher (words_bytes schedule.now) rounds block }
    ensures blocks { IsBlock block × IsBlock result }
{
    let mut s = State::from_block(block).add_round_key(round_key(schedule, rounds));
    'rounds: for i in 1..rounds {
        s = inverse_round(s, round_key(inverse, rounds - i));
    }
    inverse_last_round(s, round_key(schedule, 0)).to_block()
}
