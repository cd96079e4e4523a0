//! A call of an application.

ghost use Rattle.std.specs.Prelude.{◌≡◌, length};
ghost use Rattle.ck_calls.specs.Need.{random_bytes};

use crate::call::Call;

/// A call of an application, with the random bytes that it takes: as many as `need` returns.
#[derive(Drop)]
pub struct AppCall {
    pub app: u64,
    pub call: Call,
    pub random: Vec<u8>,
    pub ghost needed: { length random.items ≡ random_bytes call },
}
