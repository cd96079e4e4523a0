//! Options whose text is a value of its own.

ghost use Rattle.std.specs.Prelude.{◌≡◌, ◌≤◌, ℕ, IfSome, IsNone, MatchOption};
ghost use Rattle.log.specs.Level.{parse_filter};
ghost use Rattle.commands.specs.Modes.{IsMode};

use log::LevelFilter;

/// The permission bits that a text of octal digits spells, or none where it spells no number up to 0o777.
pub fn mode_in(text: &str) -> Option<u32>
    ensures mode { IfSome result (λ mode. IsMode text.now mode) }
    ensures none { IsNone result → (mode : ℕ) → IsMode text.now mode → ⊥ }
{
    match u32::from_str_radix(text, 8) {
        Ok(mode) if mode <= 0o777 => Some(mode),
        _ => None,
    }
}

/// The level that a text names, in any case, and `Warn` for any other text.
pub fn level_in(text: &str) -> LevelFilter
    ensures { MatchOption (parse_filter text.now) (result ≡ LevelFilter.Warn) (λ level. result ≡ level) }
{
    match text.parse::<LevelFilter>() {
        Ok(level) => level,
        Err(_) => LevelFilter::Warn,
    }
}
