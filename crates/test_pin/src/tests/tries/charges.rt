//! The count of charges: each check is charged as it begins, and a right one gives back all charges but those of the checks
//! that are in progress then.

use std::alloc::Global;
use std::test::Fail;

/// The tries of a PIN, and the checks of it in progress, each with its application and whether its PIN is right. And how many
/// have ended wrong or abandoned since one ended right.
#[derive(Drop)]
pub(super) struct Charges {
    tries: u64,
    under_way: Vec<(u64, bool)>,
    failed: u64,
}

impl Charges {
    /// After so many checks that failed.
    pub(super) fn new(alloc: Global, tries: u64) -> Charges {
        Charges {
            tries,
            under_way: Vec::new(alloc),
            failed: tries,
        }
    }

    pub(super) fn is_under_way(&self, app: u64) -> bool {
        self.under_way.iter().any(|check| check.0 == app)
    }

    /// Charges a check of the application, where there is a try left.
    pub(super) fn begin(&mut self, app: u64, is_right: bool) -> Result<bool, Fail> {
        if self.tries >= 10 {
            return Ok(false);
        }
        self.tries = self.tries.saturating_add(1);
        self.under_way.push((app, is_right))?;
        Ok(true)
    }

    /// Ends the check of the application, and returns whether its PIN is right.
    pub(super) fn end(&mut self, app: u64) -> Result<bool, Fail> {
        let is_right = self.under_way.iter().any(|check| *check == (app, true));
        if is_right {
            self.under_way.retain(|check| check.0 != app);
            self.tries = self.under_way.len() as u64;
            self.failed = 0;
        } else {
            self.lose(app)?;
        }
        Ok(is_right)
    }

    /// The check of the application, if it has one, ends wrong or abandoned. An eleventh one may not.
    pub(super) fn lose(&mut self, app: u64) -> Result<(), Fail> {
        if self.is_under_way(app) {
            self.under_way.retain(|check| check.0 != app);
            self.failed = self.failed.saturating_add(1);
        }
        if self.failed > 10 {
            return Err("an eleventh check failed".into());
        }
        Ok(())
    }

    /// The flags of a token with these tries of the user's PIN.
    pub(super) fn flags(&self) -> u64 {
        match self.tries {
            0 => 0x40d,
            9 => 0x3040d,
            10 => 0x5040d,
            _ => 0x1040d,
        }
    }
}
