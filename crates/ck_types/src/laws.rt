//! Laws of the limits.

ghost use Rattle.std.specs.Prelude.{◌≡◌};
ghost use Rattle.ck_types.specs.declared.constants.TheConstants.{MAX_ENTRIES, MAX_PIN_LEN, MAX_RANDOM_LEN, MAX_SECRET_LEN};
ghost use Rattle.ck_types.specs.declared.constants.TheConstants.{MAX_SESSION_COUNT, MAX_SESSION_OBJECTS, MIN_PIN_LEN, UNIQUE_ID_BYTES};
ghost use Rattle.ck_types.specs.Limits.{longest_pin, longest_secret, most_entries, most_random_bytes, most_session_objects};
ghost use Rattle.ck_types.specs.Limits.{most_sessions, shortest_pin, unique_id_bytes};

/// The constants are the limits that are defined, so a definition that cites one is of a known number.
pub fn limits_are_as_defined()
    ensures pins { MIN_PIN_LEN ≡ shortest_pin }
    ensures long_pins { MAX_PIN_LEN ≡ longest_pin }
    ensures sessions { MAX_SESSION_COUNT ≡ most_sessions }
    ensures objects { MAX_SESSION_OBJECTS ≡ most_session_objects }
    ensures entries { MAX_ENTRIES ≡ most_entries }
    ensures secrets { MAX_SECRET_LEN ≡ longest_secret }
    ensures random { MAX_RANDOM_LEN ≡ most_random_bytes }
    ensures unique_ids { UNIQUE_ID_BYTES ≡ unique_id_bytes }
{}
