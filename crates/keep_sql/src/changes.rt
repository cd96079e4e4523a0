//! Each call of the keeper, from values to rows and back. What sqlite refuses is `Device`, and is counted above.

ghost use Rattle.std.specs.Prelude.{◌≡◌, ◌+◌, ◌<◌, ◌≤◌, ◌^◌, ℕ, List, Some, IfOk, OnOk, OnErr, IsErrOf, IsSome};
ghost use Rattle.sqlite.specs.State.{HasCleanDisk};
ghost use Rattle.sqlite.specs.Held.{state};
ghost use Rattle.keep.specs.Contents.{Contents, IsTokenObject, after_reset, greatest_id, ids_of as ids_in, IsSound, object_at, with_object, with_record, with_replacement, without_object};
ghost use Rattle.keep.specs.declared.keep.KeepFault.TheVariants.{Damaged, Device};
ghost use Rattle.keep_sql_model.specs.Store.{Changed, Failed, Holds, Stayed};

use crate::rows::{ids_of, stored_object};
use attrs::Object;
use keep::KeepFault;
use pin_record::Record;
use sql_tables::{
    insert_object, put_record, read_ids, read_row, remove_object, replace_object, reset_rows,
};
use sqlite::{Alter, Connection, Error};
use std::alloc::Global;

/// Stores why sqlite refused a statement.
fn refused(cause: &mut Option<Error>, error: Error) -> KeepFault
    ensures fault { result ≡ Device }
    ensures cause { cause.new ≡ Some error }
{
    *cause = Some(error);
    KeepFault::Device
}

/// Puts another record in the place of the one stored.
pub(crate) fn set_record<S: Alter>(
    alloc: Global,
    conn: &mut Connection<S>,
    cause: &mut Option<Error>,
    to: Record,
) -> Result<(), KeepFault>
    ensures ok { OnOk result (Changed (state S.Store conn.old) (state S.Store conn.new) (with_record to)) }
    ensures err { OnErr result (Failed (state S.Store conn.old) (state S.Store conn.new) (with_record to)) }
    ensures open { IsErrOf result Damaged → ⊥ }
{
    let bytes = pin_record::encode(alloc, &to)?;
    match put_record(conn, bytes.as_slice()) {
        Ok(()) => Ok(()),
        Err(error) => Err(refused(cause, error)),
    }
}

/// Takes all objects away and puts another record in the place of the one stored.
pub(crate) fn reset<S: Alter>(
    alloc: Global,
    conn: &mut Connection<S>,
    cause: &mut Option<Error>,
    to: Record,
) -> Result<(), KeepFault>
    ensures ok { OnOk result (Changed (state S.Store conn.old) (state S.Store conn.new) (after_reset to)) }
    ensures err { OnErr result (Failed (state S.Store conn.old) (state S.Store conn.new) (after_reset to)) }
    ensures open { IsErrOf result Damaged → ⊥ }
{
    let bytes = pin_record::encode(alloc, &to)?;
    match reset_rows(conn, bytes.as_slice()) {
        Ok(true) => Ok(()),
        Ok(false) => Err(KeepFault::Device),
        Err(error) => Err(refused(cause, error)),
    }
}

/// Adds an object, and returns its id.
pub(crate) fn insert<S: Alter>(
    alloc: Global,
    conn: &mut Connection<S>,
    cause: &mut Option<Error>,
    object: &Object,
) -> Result<u64, KeepFault>
    requires { IsTokenObject object.now }
    ensures ok { OnOk result (Changed (state S.Store conn.old) (state S.Store conn.new) (with_object object.now)) }
    ensures err { OnErr result (Failed (state S.Store conn.old) (state S.Store conn.new) (with_object object.now)) }
    ensures id { HasCleanDisk (state S.Store conn.new) → (c : Contents) → Holds (state S.Store conn.old) c → IfOk result (λ id. id ≡ c.last_id + 1) }
    ensures limit { IfOk result (λ id. id ≤ greatest_id) }
    ensures open { IsErrOf result Damaged → ⊥ }
{
    let _entries = object.entries(); // brings its clause
    let bytes = attrs::encode(alloc, object)?;
    match insert_object(conn, bytes.as_slice()) {
        Ok(id) => Ok(id),
        Err(error) => Err(refused(cause, error)),
    }
}

/// `Device` where the id has no object.
pub(crate) fn replace<S: Alter>(
    alloc: Global,
    conn: &mut Connection<S>,
    cause: &mut Option<Error>,
    id: u64,
    object: &Object,
) -> Result<(), KeepFault>
    requires small { id < 2 ^ 63 }
    requires token { IsTokenObject object.now }
    ensures ok { OnOk result (Changed (state S.Store conn.old) (state S.Store conn.new) (with_replacement id object.now)) }
    ensures err { OnErr result (Failed (state S.Store conn.old) (state S.Store conn.new) (with_replacement id object.now)) }
    ensures there { HasCleanDisk (state S.Store conn.new) → (c : Contents) → Holds (state S.Store conn.old) c → OnOk result (IsSome (object_at c id)) }
    ensures open { IsErrOf result Damaged → ⊥ }
{
    let _entries = object.entries(); // brings its clause
    let bytes = attrs::encode(alloc, object)?;
    match read_row(conn, id) {
        Err(error) => Err(refused(cause, error)),
        Ok(_) => match replace_object(conn, id, bytes.as_slice()) {
            Ok(()) => Ok(()),
            Err(error) => Err(refused(cause, error)),
        },
    }
}

/// `Device` where the id has no object.
pub(crate) fn remove<S: Alter>(
    conn: &mut Connection<S>,
    cause: &mut Option<Error>,
    id: u64,
) -> Result<(), KeepFault>
    requires { id < 2 ^ 63 }
    ensures ok { OnOk result (Changed (state S.Store conn.old) (state S.Store conn.new) (without_object id)) }
    ensures err { OnErr result (Failed (state S.Store conn.old) (state S.Store conn.new) (without_object id)) }
    ensures there { HasCleanDisk (state S.Store conn.new) → (c : Contents) → Holds (state S.Store conn.old) c → OnOk result (IsSome (object_at c id)) }
    ensures open { IsErrOf result Damaged → ⊥ }
{
    match read_row(conn, id) {
        Err(error) => Err(refused(cause, error)),
        Ok(_) => match remove_object(conn, id) {
            Ok(()) => Ok(()),
            Err(error) => Err(refused(cause, error)),
        },
    }
}

/// The object with an id. `Device` where there is none.
pub(crate) fn read<S: Alter>(
    alloc: Global,
    conn: &mut Connection<S>,
    cause: &mut Option<Error>,
    id: u64,
) -> Result<Object, KeepFault>
    requires { id < 2 ^ 63 }
    ensures found { HasCleanDisk (state S.Store conn.new) → (c : Contents) → Holds (state S.Store conn.old) c → IfOk result (λ x. object_at c id ≡ Some x) }
    ensures token { IfOk result IsTokenObject }
    ensures same { Stayed (state S.Store conn.old) (state S.Store conn.new) }
    ensures open { IsErrOf result Damaged → ⊥ }
{
    match read_row(conn, id) {
        Ok(row) => stored_object(alloc, &row),
        Err(error) => Err(refused(cause, error)),
    }
}

/// The ids of all objects, in order.
pub(crate) fn ids<S: Alter>(
    alloc: Global,
    conn: &mut Connection<S>,
    cause: &mut Option<Error>,
) -> Result<Vec<u64>, KeepFault>
    ensures ids { HasCleanDisk (state S.Store conn.new) → (c : Contents) → Holds (state S.Store conn.old) c → IfOk result (λ ids. ids.items ≡ ids_in c) }
    ensures sound { HasCleanDisk (state S.Store conn.new) → (c : Contents) → Holds (state S.Store conn.old) c → OnOk result (IsSound c) }
    ensures same { Stayed (state S.Store conn.old) (state S.Store conn.new) }
    ensures open { IsErrOf result Damaged → ⊥ }
{
    match read_ids(conn) {
        Ok(rows) => ids_of(alloc, rows.as_slice()),
        Err(error) => Err(refused(cause, error)),
    }
}
