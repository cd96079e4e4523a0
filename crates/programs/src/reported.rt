//! A keeper that logs what becomes of its store, and has the daemon end where the store is shut.

ghost use Rattle.std.specs.Prelude.{◌≡◌};
ghost use Rattle.keep.specs.Keeping.{Counted, Stays};

use crate::health::Health;
use attrs::Object;
use ck_types::UserType;
use hall_sockets::{Sockets, Title};
use keep::{Keep, KeepFault};
use log::{Log, error, info, warn};
use pin_record::Record;
use reserve::Explains;
use std::alloc::Global;
use std::sync::Arc;
use std::sync::atomic::{AtomicBool, AtomicU64, Ordering};

/// A keeper that returns what the one behind it does, and logs what becomes of that one's store. It logs the first failure after
/// a change that succeeded, that the store is shut, a PIN's tenth check, and each object that is made, changed or destroyed, with the
/// connection whose call it is. No value, PIN or label is logged.
#[derive(Drop)]
pub struct Reported<K, L> {
    keep: K,
    log: L,
    /// The daemon is to end.
    is_stopping: Arc<AtomicBool, Global>,
    health: Arc<Health, Global>,
    has_failed: bool,
    sockets: Arc<Sockets, Global>,
    /// The application whose call is served.
    app: AtomicU64,
}

impl<K: Explains, L: Log + Drop> Reported<K, L> {
    /// The keeper, which sets `is_stopping` where its store is shut. `health` counts what comes and goes, and `sockets` has how a line
    /// names a connection.
    pub fn new(
        keep: K,
        log: L,
        is_stopping: Arc<AtomicBool, Global>,
        health: Arc<Health, Global>,
        sockets: Arc<Sockets, Global>,
    ) -> Reported<K, L>
        ensures { result.keep ≡ keep }
    {
        Reported {
            keep,
            log,
            is_stopping,
            health,
            has_failed: false,
            sockets,
            app: AtomicU64::new(0),
        }
    }

    /// The keeper behind it.
    pub fn into_keep(self) -> K
        ensures { result ≡ self.keep }
    {
        let Reported { keep, .. } = self;
        keep
    }

    /// Logs a failure of the device, and returns the fault.
    fn report(&mut self, fault: KeepFault) -> KeepFault
        ensures fault { result ≡ fault }
        ensures same { Stays K.Keep.terms self.old.keep self.new.keep }
        ensures counts { Counted K.Keep.terms self.old.keep self.new.keep 0 0 }
        ensures failures { K.Keep.terms.failures self.new.keep ≡ K.Keep.terms.failures self.old.keep }
    {
        let is_shut = self.keep.is_shut();
        if matches!(fault, KeepFault::Device) {
            self.say_failure();
        }
        if is_shut {
            self.is_stopping.store(true, Ordering::SeqCst);
        }
        fault
    }

    /// Logs the first failure, with sqlite's reason where there is one.
    #[inline(never)]
    fn say_failure(&mut self)
        ensures { self.new.keep ≡ self.old.keep }
    {
        if self.has_failed {
            return;
        }
        self.has_failed = true;
        self.health.set_failed(true);
        match self.keep.cause() {
            Some(cause) => error!(self.log; "the store failed: {cause}"),
            None => error!(self.log; "the store failed"),
        }
    }

    /// Logs that a PIN had its tenth check, if this record is the first that counts it.
    fn say_locked(&self, before: &Record, now: &Record) {
        let title = self.title();
        if now.is_locked(UserType::User) && !before.is_locked(UserType::User) {
            warn!(self.log; "{title}: the user's PIN had its tenth check: unless that one was right, it is locked");
        }
        if now.is_locked(UserType::So) && !before.is_locked(UserType::So) {
            warn!(self.log; "{title}: the security officer's PIN had its tenth check: unless that one was right, it is locked");
        }
    }

    /// How a line names the connection whose call is served.
    fn title(&self) -> Title<'_> {
        self.sockets.title(self.app.load(Ordering::SeqCst))
    }

    /// Logs what became of an object.
    fn say_object(&self, id: u64, what: &str) {
        let title = self.title();
        info!(self.log; "{title}: object {id} is {what}");
    }
}

impl<K: Explains, L: Log + Drop> Keep for Reported<K, L> {
    ghost use Rattle.store_files.specs.Behind.{terms_behind};

    ghost terms = { terms_behind (λ k. k.keep) K.Keep.terms };

    ghost survives = { λ k sure. K.Keep.survives k.keep sure };

    ghost sure = { λ k steady. K.Keep.sure k.keep steady };

    fn on_behalf_of(&self, app: u64) {
        self.app.store(app, Ordering::SeqCst);
        self.keep.on_behalf_of(app)
    }

    fn failures(&self) -> u64 {
        self.keep.failures()
    }

    fn get_record(&self) -> Record {
        self.keep.get_record()
    }

    fn ids(&mut self, alloc: Global) -> Result<Vec<u64>, KeepFault> {
        match self.keep.ids(alloc) {
            Ok(ids) => Ok(ids),
            Err(fault) => Err(self.report(fault)),
        }
    }

    fn object(&mut self, alloc: Global, id: u64) -> Result<Object, KeepFault> {
        match self.keep.object(alloc, id) {
            Ok(object) => Ok(object),
            Err(fault) => Err(self.report(fault)),
        }
    }

    fn set_record(&mut self, token_record: Record) -> Result<(), KeepFault> {
        let before = self.keep.get_record();
        match self.keep.set_record(token_record) {
            Ok(()) => {
                self.health.succeed(self.has_failed);
                self.has_failed = false;
                self.say_locked(&before, &token_record);
                Ok(())
            }
            Err(fault) => Err(self.report(fault)),
        }
    }

    fn insert(&mut self, object: &Object) -> Result<u64, KeepFault> {
        match self.keep.insert(object) {
            Ok(id) => {
                self.health.succeed(self.has_failed);
                self.has_failed = false;
                self.health.add_object();
                self.say_object(id, "made");
                Ok(id)
            }
            Err(fault) => Err(self.report(fault)),
        }
    }

    fn replace(&mut self, id: u64, object: &Object) -> Result<(), KeepFault> {
        match self.keep.replace(id, object) {
            Ok(()) => {
                self.health.succeed(self.has_failed);
                self.has_failed = false;
                self.say_object(id, "changed");
                Ok(())
            }
            Err(fault) => Err(self.report(fault)),
        }
    }

    fn remove(&mut self, id: u64) -> Result<(), KeepFault> {
        match self.keep.remove(id) {
            Ok(()) => {
                self.health.succeed(self.has_failed);
                self.has_failed = false;
                self.health.remove_object();
                self.say_object(id, "destroyed");
                Ok(())
            }
            Err(fault) => Err(self.report(fault)),
        }
    }

    fn reset(&mut self, token_record: Record) -> Result<(), KeepFault> {
        match self.keep.reset(token_record) {
            Ok(()) => {
                self.health.succeed(self.has_failed);
                self.has_failed = false;
                self.health.set_objects(0);
                Ok(())
            }
            Err(fault) => Err(self.report(fault)),
        }
    }
}
