ghost use Rattle.std.specs.Prelude.{◌≡◌, ◌≤◌, ◌+◌, ◌⊎◌, Option, Some, IfNone, IfOk, IfSome, OnErr, OnSome};
ghost use Rattle.pin_record.specs.Records.{charged};
ghost use Rattle.keep.specs.Contents.{Contents, object_at, with_record};
ghost use Rattle.keep.specs.Keeping.{HasCause, LeavesSome};

use super::given::{Given, object_of};
use attrs::Object;
use ck_types::{AttrType, ObjectClass, UserType};
use keep::*;
use pin_record::{Record, begin_check};
use std::alloc::Global;
use std::process::Abort;
use std::test::Fail;

/// Charges a check of a PIN, and then reads an object. `None` where the PIN isn't set or is locked.
fn charge_and_read<K: Keep>(
    alloc: Global,
    keep: &mut K,
    who: UserType,
    id: u64,
) -> Result<Option<Object>, KeepFault>
    ensures charged { (c : Contents) → K.terms.holds keep.old c
        → IfOk result (λ found. OnSome found (K.terms.holds keep.new (with_record (charged c.token_record who) c))) }
    ensures refused { (c : Contents) → K.terms.holds keep.old c → IfOk result (λ found. IfNone found (K.terms.holds keep.new c)) }
    ensures object { K.terms.doubt keep.new ≡ 0 → (c : Contents) → K.terms.holds keep.old c
        → IfOk result (λ found. IfSome found (λ object. object_at c id ≡ Some object)) }
    ensures either { (c : Contents) → K.terms.holds keep.old c
        → OnErr result (K.terms.holds keep.new c ⊎ K.terms.holds keep.new (with_record (charged c.token_record who) c)) }
    ensures crash { (c : Contents) (left : Option Contents) → K.terms.holds keep.old c → K.terms.may_leave keep.new left
        → IfOk result (λ found. OnSome found (left ≡ Some (with_record (charged c.token_record who) c))) }
    ensures tried { K.terms.tried keep.new ≤ K.terms.tried keep.old + 1 }
    ensures doubt { K.terms.doubt keep.old ≤ K.terms.doubt keep.new }
    ensures some { K.terms.doubt keep.new ≡ 0 → LeavesSome (K.terms.may_leave keep.new) }
    ensures cause { HasCause (K.terms.failures keep.old) (K.terms.failures keep.new) result }
{
    let record = keep.get_record();
    if record.verifier(who).is_none() || record.is_locked(who) {
        return Ok(None);
    }
    keep.set_record(begin_check(record, who))?;
    Ok(Some(keep.object(alloc, id)?))
}

/// A data object of the token, with this value.
fn token_object(alloc: Global, byte: u8) -> Result<Object, Fail> {
    let value = [byte];
    let given: [Given; 2] = [(AttrType::Token, &[1]), (AttrType::Value, &value)];
    object_of(alloc, ObjectClass::Data, &given)
}

/// What comes of it to insert a token object with this value.
pub(super) fn inserted<K: Keep>(
    alloc: Global,
    keep: &mut K,
    byte: u8,
) -> Result<Result<u64, KeepFault>, Fail> {
    let object = token_object(alloc, byte)?;
    if !object.flag(AttrType::Token) {
        return Err("a token object".into());
    }
    Ok(keep.insert(&object))
}

/// Inserts a token object with this value.
pub(super) fn insert<K: Keep>(alloc: Global, keep: &mut K, byte: u8) -> Result<u64, Fail> {
    Ok(inserted(alloc, keep, byte)??)
}

/// Replaces an object by one with this value.
pub(super) fn replace<K: Keep>(
    alloc: Global,
    keep: &mut K,
    id: u64,
    byte: u8,
) -> Result<Result<(), KeepFault>, Fail> {
    let object = token_object(alloc, byte)?;
    if !object.flag(AttrType::Token) {
        return Err("a token object".into());
    }
    Ok(keep.replace(id, &object))
}

/// What happens to a keeper. Objects are named by their place among those that are there.
#[derive(Clone, Copy, Debug)]
enum Step {
    Insert,
    Replace(usize),
    Remove(usize),
}

use Step::{Insert, Remove, Replace};

/// Twelve steps, after which there are two more objects.
const STEPS: [Step; 12] = [
    Insert,
    Insert,
    Replace(0),
    Insert,
    Remove(1),
    Replace(7),
    Insert,
    Remove(0),
    Insert,
    Replace(3),
    Remove(5),
    Replace(11),
];

/// The id and the value of each object, in the order in which they were made.
pub(super) type Rows = Vec<(u64, u8)>;

/// Takes a step with the keeper and with a plain list.
fn take<K: Keep>(
    alloc: Global,
    keep: &mut K,
    rows: &mut Rows,
    step: Step,
    byte: u8,
) -> Result<(), Fail> {
    match step {
        Insert => rows.push((insert(alloc, keep, byte)?, byte))?,
        Replace(place) => {
            if !rows.is_empty() {
                let at = place % rows.len();
                replace(alloc, keep, rows[at].0, byte)??;
                rows[at].1 = byte;
            }
        }
        Remove(place) => {
            if !rows.is_empty() {
                let (id, _) = rows.remove(place % rows.len());
                keep.remove(id)?;
            }
        }
    }
    Ok(())
}

/// What the keeper has.
pub(super) fn rows_of<K: Keep>(alloc: Global, keep: &mut K) -> Result<Rows, Fail> {
    let mut rows = Vec::new(alloc);
    for id in keep.ids(alloc)? {
        let object = keep.object(alloc, id)?;
        match object.value() {
            [byte] => rows.push((id, *byte))?,
            _ => return Err("a value of one byte".into()),
        }
    }
    Ok(rows)
}

/// Whether the keeper has just these.
pub(super) fn has_rows<K: Keep>(
    alloc: Global,
    keep: &mut K,
    rows: &[(u64, u8)],
) -> Result<bool, Fail> {
    Ok(rows_of(alloc, keep)?.as_slice() == rows)
}

/// How many rows the steps leave, each of which the keeper takes as a plain list does.
pub(super) fn rows_after_steps<K: Keep>(
    rt: &impl Abort,
    alloc: Global,
    keep: &mut K,
) -> Result<usize, Fail> {
    let mut rows = Vec::new(alloc);
    for number in 0..300 {
        let step = STEPS[number % 12];
        take(alloc, keep, &mut rows, step, (number % 256) as u8)?;
        let is_same = has_rows(alloc, keep, &rows)?;
        assert!(rt; is_same, "step {number}");
    }
    Ok(rows.len())
}

#[test]
fn a_keeper_in_memory_is_a_plain_list_under_300_steps(rt: HostRuntime) -> Result<(), Fail> {
    let mut keep = ListKeep::new(rt.alloc(), Record::new());
    let count = rows_after_steps(&rt, rt.alloc(), &mut keep)?;
    let id = insert(rt.alloc(), &mut keep, 0)?;
    assert_eq!(rt; (count, keep.failures(), id), (50, 0, 126));
    Ok(())
}

/// Sees that inserts get these ids. The value of each is its id.
fn expect_ids<K: Keep>(
    rt: &impl Abort,
    alloc: Global,
    keep: &mut K,
    ids: &[u8],
) -> Result<(), Fail> {
    for id in ids {
        let got = insert(alloc, keep, *id)?;
        assert_eq!(rt; got, *id as u64);
    }
    Ok(())
}

#[test]
fn an_id_is_never_used_again(rt: HostRuntime) -> Result<(), Fail> {
    let mut keep = ListKeep::new(rt.alloc(), Record::new());
    use_ids(&rt, rt.alloc(), &mut keep)?;
    let is_one = has_rows(rt.alloc(), &mut keep, &[(4, 4)])?;
    assert!(rt; is_one);
    Ok(())
}

pub(super) fn use_ids<K: Keep>(rt: &impl Abort, alloc: Global, keep: &mut K) -> Result<(), Fail> {
    expect_ids(rt, alloc, keep, &[1, 2])?;
    keep.remove(2)?;
    expect_ids(rt, alloc, keep, &[3])?;
    keep.reset(Record::new())?;
    let is_empty = has_rows(alloc, keep, &[])?;
    assert!(rt; is_empty);
    expect_ids(rt, alloc, keep, &[4])
}

/// Whether reading, replacing and removing fail by the device.
fn is_refused<K: Keep>(alloc: Global, keep: &mut K, id: u64) -> Result<bool, Fail> {
    let device = Err(KeepFault::Device);
    let is_read = keep.object(alloc, id).is_ok();
    Ok(!is_read && replace(alloc, keep, id, 2)? == device && keep.remove(id) == device)
}

#[test]
fn an_id_that_is_not_there_is_a_counted_failure(rt: HostRuntime) -> Result<(), Fail> {
    let mut keep = ListKeep::new(rt.alloc(), Record::new());
    insert(rt.alloc(), &mut keep, 1)?;
    expect_failures(&rt, rt.alloc(), &mut keep)?;
    let is_there = has_rows(rt.alloc(), &mut keep, &[(1, 1)])?;
    assert!(rt; is_there);
    Ok(())
}

pub(super) fn expect_failures<K: Keep>(
    rt: &impl Abort,
    alloc: Global,
    keep: &mut K,
) -> Result<(), Fail> {
    const IDS: &[(u64, u64)] = &[(0, 3), (2, 6), (GREATEST_ID, 9), (u64::MAX, 12)];
    for (id, failures) in IDS {
        let is_refused = is_refused(alloc, keep, *id)?;
        assert!(rt; is_refused && keep.failures() == *failures, "id {id}");
    }
    Ok(())
}

/// A token's record with an SO PIN of so many tries, and no user PIN.
pub(super) fn record_with_tries(alloc: Global, tries: u8) -> Result<Record, Fail> {
    let mut bytes = Vec::new(alloc);
    bytes.extend_from_slice(&[2, 1])?;
    bytes.extend_from_slice(&[b'x'; 32])?;
    bytes.push(1)?;
    bytes.extend_from_slice(&[0xa5; 16])?;
    bytes.extend_from_slice(&[0, 0, 0x4e, 0x20])?;
    bytes.extend_from_slice(&[0x5a; 32])?;
    bytes.extend_from_slice(&[tries, 0, 0])?;
    Ok(pin_record::decode(&bytes)?)
}

/// What is read after a check was charged: a value of one byte, or the fault.
fn charge_and_read_byte<K: Keep>(
    alloc: Global,
    keep: &mut K,
    who: UserType,
    id: u64,
) -> Result<Result<Option<u8>, KeepFault>, Fail> {
    match charge_and_read(alloc, keep, who, id) {
        Ok(None) => Ok(Ok(None)),
        Ok(Some(object)) => Ok(Ok(Some(*object.value().first().ok_or("a byte")?))),
        Err(fault) => Ok(Err(fault)),
    }
}

/// Who is checked, which object is read, what comes of it, and the tries of the SO's PIN.
const CHARGES: &[(UserType, u64, Result<Option<u8>, KeepFault>, u8)] = &[
    (UserType::So, 1, Ok(Some(7)), 9),
    (UserType::So, GREATEST_ID, Err(KeepFault::Device), 10),
    (UserType::So, 1, Ok(None), 10),
    (UserType::User, 1, Ok(None), 10),
];

pub(super) fn expect_charges<K: Keep>(
    rt: &impl Abort,
    alloc: Global,
    keep: &mut K,
) -> Result<(), Fail> {
    for (who, id, wanted, tries) in CHARGES {
        let got = charge_and_read_byte(alloc, keep, *who, *id)?;
        let record = record_with_tries(alloc, *tries)?;
        assert!(rt;
            got == *wanted && keep.get_record() == record,
            "{who:?} and {id}"
        );
    }
    Ok(())
}

#[test]
fn a_check_is_charged_before_an_object_is_read(rt: HostRuntime) -> Result<(), Fail> {
    let record = record_with_tries(rt.alloc(), 8)?;
    let mut keep = ListKeep::new(rt.alloc(), record);
    insert(rt.alloc(), &mut keep, 7)?;
    expect_charges(&rt, rt.alloc(), &mut keep)?;
    assert_eq!(rt; keep.failures(), 1);
    Ok(())
}
