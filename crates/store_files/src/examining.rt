//! What a look at a whole copy of a store finds.

use crate::copying::StoreCopy;
use crate::fault::{StoreCause, StoreFault};
use attrs::Object;
use ck_types::{AttrType, ObjectClass};
use keep::KeepFault;
use keep_sql::{OpenFault, SqlKeep, store_options};
use sql_statements::READ_RECORD;
use sqlite::types::ValueRef;
use sqlite::{Connection, Error, FileStore, Row};
use sqlite_disk::Memory;
use std::alloc::Global;

/// The offset in a SQLite file's header of the number of bytes that each page keeps for checksums, and how many these take
/// (sqlite.org/fileformat2.html, 1.3.4, and cksumvfs.html).
const RESERVED: usize = 20;

const SUM_LEN: u8 = 8;

/// What a store has, and the first of what is no token's in it.
#[derive(Drop)]
pub struct Findings {
    /// Some bodies have format 1, which the daemon writes again in format 2 as it opens the store.
    pub has_old: bool,
    pub has_sums: bool,
    pub data: u64,
    pub keys: u64,
    /// Rows of objects that are no token object's.
    pub damaged: u64,
    first_fault: Option<StoreFault>,
}

impl Findings {
    fn new(image: &[u8]) -> Findings {
        Findings {
            has_old: false,
            has_sums: image.get(RESERVED) == Some(&SUM_LEN),
            data: 0,
            keys: 0,
            damaged: 0,
            first_fault: None,
        }
    }

    /// Whether the store is one that the daemon opens; if not, the first of what is damaged.
    pub fn verdict(&self) -> Result<(), StoreFault> {
        match self.first_fault {
            None => Ok(()),
            Some(fault) => Err(fault),
        }
    }

    fn add_fault(&mut self, fault: StoreFault) {
        if self.first_fault.is_none() {
            self.first_fault = Some(fault);
        }
    }

    /// Counts the row of an object.
    fn add_row(&mut self, alloc: Global, row: &Row) {
        let id = row.get::<i64>(0).unwrap_or(0);
        match body_in(alloc, row) {
            Some((object, is_old)) if id > 0 => {
                self.has_old |= is_old;
                match object.class() {
                    ObjectClass::Data => self.data = self.data.saturating_add(1),
                    ObjectClass::SecretKey => self.keys = self.keys.saturating_add(1),
                }
            }
            _ => {
                self.damaged = self.damaged.saturating_add(1);
                self.add_fault(StoreFault::Store(StoreCause::Object(id)));
            }
        }
    }
}

/// The token object in the second column, and whether it has format 1.
fn body_in(alloc: Global, row: &Row) -> Option<(Object, bool)> {
    let Ok(ValueRef::Blob(body)) = row.get_ref(1) else {
        return None;
    };
    let is_old = body.first() == Some(&1);
    let decoded = if is_old {
        attrs::decode_old(alloc, body)
    } else {
        attrs::decode(alloc, body)
    };
    match decoded {
        Ok(object) if object.flag(AttrType::Token) => Some((object, is_old)),
        _ => None,
    }
}

/// Whether the only row of the record's table is a record.
fn has_record(rows: &[Row]) -> bool {
    let [row] = rows else {
        return false;
    };
    match row.get_ref(0) {
        Ok(ValueRef::Blob(body)) => {
            pin_record::decode(body).is_ok() || pin_record::decode_old(body).is_ok()
        }
        _ => false,
    }
}

/// Looks through the tables.
fn look_through(
    alloc: Global,
    conn: &mut Connection<FileStore<Memory>>,
    found: &mut Findings,
) -> Result<(), Error> {
    let record = conn.query_all(READ_RECORD, &[])?;
    if !has_record(&record) {
        found.add_fault(StoreFault::Store(StoreCause::Record));
    }
    let rows = conn.query_all("SELECT id, body FROM objects ORDER BY id", &[])?;
    for row in &rows {
        found.add_row(alloc, row);
    }
    Ok(())
}

/// Whether the daemon would open the store, by its own opening of a copy in memory.
fn opens(alloc: Global, copy: &StoreCopy) -> Result<(), OpenFault> {
    let Ok(files) = copy.files(alloc) else {
        return Err(OpenFault::Keeper(KeepFault::Memory));
    };
    match SqlKeep::open_files(alloc, files, store_options(0)) {
        Ok(keep) => {
            drop(keep);
            Ok(())
        }
        Err(refused) => Err(refused.fault),
    }
}

/// Looks through a copy of a store's files. An empty store, which the daemon would make a new one of, is none.
pub(crate) fn examine(alloc: Global, copy: &StoreCopy) -> Result<Findings, StoreFault> {
    let mut conn = copy.connect(alloc)?;
    let mut found = Findings::new(&copy.image(alloc)?);
    let looked = look_through(alloc, &mut conn, &mut found);
    drop(conn);
    let opened = opens(alloc, copy);
    let has_reason = !matches!(opened, Ok(()) | Err(OpenFault::Keeper(KeepFault::Damaged)));
    match looked {
        Ok(()) => {}
        Err(Error::SqlInputError(_)) if has_reason => {}
        Err(Error::SqlInputError(_)) => found.add_fault(OpenFault::NoTables.into()),
        Err(error) => return Err(error.into()),
    }
    if let Err(fault) = opened {
        found.add_fault(fault.into());
    }
    Ok(found)
}
