//! The keeper.

ghost use Rattle.std.specs.Prelude.{◌≡◌, ◌+◌, ◌≤◌, false, IfOk, IfErr, IsTrue};
ghost use Rattle.sqlite.specs.State.{HasCleanDisk};
ghost use Rattle.sqlite.specs.Held.{state};
ghost use Rattle.pin_record.specs.Records.{new_record};
ghost use Rattle.keep.specs.Contents.{Contents, new_contents};
ghost use Rattle.keep.specs.declared.keep.KeepFault.TheVariants.{Device, Memory};
ghost use Rattle.keep.specs.Keeping.{Counted, Rises, Stays};
ghost use Rattle.sql_statements.specs.Tables.{no_schema};
ghost use Rattle.keep_sql_model.specs.Store.{IsAt};
ghost use Rattle.keep_sql_model.specs.SqlState.{sql_terms};
ghost use Rattle.keep_sql_model.specs.Formats.{HoldsEither};
ghost use Rattle.keep_sql_model.specs.Opening.{Adopts, NotOpened, Opened};

use crate::changes;
use crate::opening::open_store;
use attrs::Object;
use keep::{GREATEST_ID, Keep, KeepFault, WriteCount};
use pin_record::Record;
use sql_tables::ensure_open;
use sqlite::{Alter, Connection, Error, ErrorCode};
use std::alloc::Global;
use std::marker::Model;

/// A keeper over a connection. The record is at hand in memory too, so that no read of it fails.
#[derive(Drop)]
pub struct SqlKeep<S: Alter + Drop> {
    conn: Connection<S>,
    token_record: Record,
    failures: u64,
    tried: WriteCount,
    alloc: Global,
    /// Why sqlite refused a statement of an open store last.
    cause: Option<Error>,
}

impl<S: Alter + Drop> Model for SqlKeep<S> {
    ghost use Rattle.keep_sql_model.specs.SqlState.{SqlState, sql_code};

    ghost Value = { SqlState S };

    ghost coded = { sql_code S.code };

    ghost view = { λ k. record { conn = k.conn; token_record = k.token_record; failures = k.failures; tried = k.tried } };
}

/// A failure of the device, which is counted.
fn device_failure(failures: &mut u64) -> KeepFault
    ensures fault { result ≡ Device }
    ensures rises { Rises failures.old failures.new }
    ensures once { failures.new ≤ failures.old + 1 }
    ensures more { failures.old ≤ failures.new }
{
    *failures = failures.saturating_add(1);
    KeepFault::Device
}

/// The fault, counted where it is the device's.
fn counted(failures: &mut u64, fault: KeepFault) -> KeepFault
    ensures same { result ≡ fault }
    ensures rises { fault ≡ Device → Rises failures.old failures.new }
    ensures once { failures.new ≤ failures.old + 1 }
    ensures memory { fault ≡ Memory → failures.new ≡ failures.old }
    ensures more { failures.old ≤ failures.new }
{
    match fault {
        KeepFault::Device => device_failure(failures),
        KeepFault::Memory => KeepFault::Memory,
        KeepFault::Damaged => KeepFault::Damaged,
    }
}

/// The keeper over a connection to a store with this record.
pub(crate) fn with_record<S: Alter + Drop>(
    alloc: Global,
    conn: Connection<S>,
    token_record: Record,
) -> SqlKeep<S>
    ensures is { (result.conn ≡ conn) × (result.token_record ≡ token_record) }
    ensures counts { (result.failures ≡ 0) × (result.tried ≡ 0) }
    ensures adopts { (c : Contents) → HasCleanDisk (state S.Store conn) → IsTrue (state S.Store conn).is_open → IsAt (state S.Store conn) c
        → token_record ≡ c.token_record → Adopts (sql_terms S.Store) result c }
{
    SqlKeep {
        conn,
        token_record,
        failures: 0,
        tried: WriteCount::new(),
        alloc,
        cause: None,
    }
}

impl<S: Alter + Drop> SqlKeep<S> {
    /// Opens the store over a connection. One with neither of the two tables is new: it gets both and a
    /// record that isn't initialised, in one transaction. Where one of them is there, both are taken to be
    /// there, as they are made here. Each body is read, in format 2 or in format 1, which is its first
    /// byte. Where any has format 1, all of these are written again in format 2, in one transaction,
    /// before this returns; ids, their order and all other attributes stay.
    ///
    /// A refusal gives the connection back, with the store as it was: `Damaged` where a body has neither
    /// format, where the record isn't just one row, or where an id is below 1; `Device` where sqlite
    /// refused, or where the connection is in a transaction; `Memory` where memory for a body ran out.
    pub fn from_connection(
        alloc: Global,
        mut conn: Connection<S>,
    ) -> Result<Self, (KeepFault, Connection<S>)>
        ensures opened { IfOk result (λ k. Opened (state S.Store conn) (state S.Store k.conn) k.token_record) }
        ensures found { (c : Contents) → HoldsEither (state S.Store conn) c
            → IfOk result (λ k. (⟦<SqlKeep<S> as Keep>⟧.terms).doubt k ≡ 0 → Adopts ⟦<SqlKeep<S> as Keep>⟧.terms k c) }
        ensures fresh { (state S.Store conn).now.schema ≡ no_schema
            → IfOk result (λ k. (⟦<SqlKeep<S> as Keep>⟧.terms).doubt k ≡ 0 → Adopts ⟦<SqlKeep<S> as Keep>⟧.terms k (new_contents new_record)) }
        ensures counts { IfOk result (λ k. (k.failures ≡ 0) × (k.tried ≡ 0)) }
        ensures back { IfErr result (λ e. NotOpened (state S.Store conn) (state S.Store e.1) e.0) }
    {
        match open_store(alloc, &mut conn) {
            Ok(token_record) => Ok(SqlKeep {
                conn,
                token_record,
                failures: 0,
                tried: WriteCount::new(),
                alloc,
                cause: None,
            }),
            Err(fault) => Err((fault, conn)),
        }
    }

    /// The connection and the record.
    pub(crate) fn into_parts(self) -> (Connection<S>, Record)
        ensures { (result.0 ≡ self.conn) × (result.1 ≡ self.token_record) }
    {
        let SqlKeep {
            conn,
            token_record,
            ..
        } = self;
        (conn, token_record)
    }

    /// Why sqlite refused a statement of the open store last, if it has refused any.
    pub fn cause(&self) -> Option<Error> {
        self.cause
    }

    /// Whether sqlite has shut the connection, as after a sync that failed: then each later call is `Device`. It writes nothing.
    pub fn is_shut(&mut self) -> bool
        ensures same { Stays ⟦<SqlKeep<S> as Keep>⟧.terms self.old self.new }
        ensures counts { Counted ⟦<SqlKeep<S> as Keep>⟧.terms self.old self.new 0 0 }
        ensures failures { self.new.failures ≡ self.old.failures }
        ensures shut { IsTrue result → HasCleanDisk (state S.Store self.new.conn) → (state S.Store self.old.conn).is_open ≡ false }
    {
        let found = ensure_open(&mut self.conn, "SELECT 1");
        matches!(found, Err(Error::SqliteFailure(ErrorCode::Closed)))
    }

    /// Gives the connection back, as it is.
    pub fn close(self) -> Connection<S>
        ensures { result ≡ self.conn }
    {
        let SqlKeep { conn, .. } = self;
        conn
    }
}

impl<S: Alter + Drop> Keep for SqlKeep<S> {
    ghost use Rattle.keep_sql_model.specs.Laws.{some_left};
    ghost use Rattle.keep_sql_model.specs.SqlState.{sql_terms};

    ghost terms = { sql_terms S.Store };

    ghost survives = { λ k clean. some_left _ _ clean (S.survives k.conn.store clean) };

    ghost sure = { λ _ steady. absurd steady };

    fn failures(&self) -> u64 {
        self.failures
    }

    fn get_record(&self) -> Record {
        self.token_record
    }

    fn ids(&mut self, alloc: Global) -> Result<Vec<u64>, KeepFault> {
        match changes::ids(alloc, &mut self.conn, &mut self.cause) {
            Ok(ids) => Ok(ids),
            Err(fault) => Err(counted(&mut self.failures, fault)),
        }
    }

    fn object(&mut self, alloc: Global, id: u64) -> Result<Object, KeepFault> {
        if id > GREATEST_ID {
            return Err(device_failure(&mut self.failures));
        }
        match changes::read(alloc, &mut self.conn, &mut self.cause, id) {
            Ok(object) => Ok(object),
            Err(fault) => Err(counted(&mut self.failures, fault)),
        }
    }

    fn set_record(&mut self, token_record: Record) -> Result<(), KeepFault> {
        self.tried.add();
        match changes::set_record(self.alloc, &mut self.conn, &mut self.cause, token_record) {
            Ok(()) => {
                self.token_record = token_record;
                Ok(())
            }
            Err(fault) => Err(counted(&mut self.failures, fault)),
        }
    }

    fn insert(&mut self, object: &Object) -> Result<u64, KeepFault> {
        self.tried.add();
        match changes::insert(self.alloc, &mut self.conn, &mut self.cause, object) {
            Ok(id) => Ok(id),
            Err(fault) => Err(counted(&mut self.failures, fault)),
        }
    }

    fn replace(&mut self, id: u64, object: &Object) -> Result<(), KeepFault> {
        self.tried.add();
        if id > GREATEST_ID {
            return Err(device_failure(&mut self.failures));
        }
        match changes::replace(self.alloc, &mut self.conn, &mut self.cause, id, object) {
            Ok(()) => Ok(()),
            Err(fault) => Err(counted(&mut self.failures, fault)),
        }
    }

    fn remove(&mut self, id: u64) -> Result<(), KeepFault> {
        self.tried.add();
        if id > GREATEST_ID {
            return Err(device_failure(&mut self.failures));
        }
        match changes::remove(&mut self.conn, &mut self.cause, id) {
            Ok(()) => Ok(()),
            Err(fault) => Err(counted(&mut self.failures, fault)),
        }
    }

    fn reset(&mut self, token_record: Record) -> Result<(), KeepFault> {
        self.tried.add();
        match changes::reset(self.alloc, &mut self.conn, &mut self.cause, token_record) {
            Ok(()) => {
                self.token_record = token_record;
                Ok(())
            }
            Err(fault) => Err(counted(&mut self.failures, fault)),
        }
    }
}
