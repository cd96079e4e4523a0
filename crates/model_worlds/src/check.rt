//! Checks of PINs.

use ck_types::UserType;

/// A check of a PIN that is in progress, and whose it is.
#[derive(Clone, Copy, Debug, PartialEq, Eq)]
pub struct Check {
    pub user: UserType,
    pub app: u64,
}
