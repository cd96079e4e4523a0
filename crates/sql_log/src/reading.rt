//! A file's bytes.

ghost use Rattle.std.specs.Prelude.{◌≡◌, ◌⊎◌, ◌≤◌, ℕ, List, length, IsTrue, IfOk, IfErr, OnOk};
ghost use Rattle.std.specs.IoError.{error_kind};
ghost use Rattle.std.specs.declared.io.ErrorKind.TheVariants.{OutOfMemory};
ghost use Rattle.sqlite_disk.specs.Disk.{MoreFaults, Only};
ghost use Rattle.sqlite_wal.specs.Reads.{IsClean, OnlyReads};
ghost use Rattle.sql_log.specs.Bytes.{BeginsAs, IsAlike, KeepsBeginning};

use sqlite_disk::Disk;
use std::alloc::Global;
use std::io;

/// All bytes of a file. An error of the file, which is a fault, or a failed allocation (`OutOfMemory`). Nothing is written.
pub fn bytes_of<D: Disk>(alloc: Global, disk: &mut D) -> io::Result<Vec<u8>>
    requires { IsTrue (D.Disk.is_usable disk.old) }
    ensures value { IfOk result (λ bytes. IsClean D.Disk disk.new → bytes.items ≡ D.Disk.seen disk.old) }
    ensures counts { D.Disk.faults disk.old ≤ D.Disk.faults disk.new }
    ensures cause { IsClean D.Disk disk.new → IfErr result (λ e. (error_kind e ≡ OutOfMemory) ⊎ MoreFaults (D.Disk.faults disk.old) (D.Disk.faults disk.new)) }
    ensures same { OnlyReads D.Disk disk.old disk.new }
{
    let len = disk.len()?;
    let Ok(mut bytes) = vec![in alloc; 0u8; len] else {
        return Err(io::ErrorKind::OutOfMemory.into());
    };
    disk.read_at(0, &mut bytes)?;
    Ok(bytes)
}

/// How many bytes two texts begin with alike.
fn alike(a: &[u8], b: &[u8]) -> usize
    ensures same { IsAlike result a.now b.now }
    ensures longest { (n : ℕ) → IsAlike n a.now b.now → n ≤ result }
{
    let most = a.len().min(b.len());
    for at in 0..most {
        if a[at] != b[at] {
            return at;
        }
    }
    most
}

/// Writes what stands behind a place, cuts the file to the length of the bytes, and syncs.
fn write_from<D: Disk>(disk: &mut D, same: usize, bytes: &[u8]) -> io::Result<()>
    requires usable { IsTrue (D.Disk.is_usable disk.old) }
    requires within { same ≤ length bytes.now }
    requires alike { IsClean D.Disk disk.old → IsAlike same (D.Disk.seen disk.old) bytes.now }
    ensures bytes { OnOk result (IsClean D.Disk disk.new → D.Disk.seen disk.new ≡ bytes.now) }
    ensures synced { OnOk result (Only (D.Disk.seen disk.new) (D.Disk.may_leave disk.new)) }
    ensures clean { IsClean D.Disk disk.new → IsClean D.Disk disk.old }
    ensures crash { (c : List ℕ) → D.Disk.may_leave disk.new c → (d : List ℕ) × D.Disk.may_leave disk.old d × BeginsAs same d c }
{
    if same < bytes.len() {
        disk.write_at(same, &bytes[same..])?;
    }
    disk.set_len(bytes.len())?;
    disk.sync()
}

/// Gives a file these bytes again, and syncs: then a crash leaves them alone. What the file begins with alike is not written, so a crash
/// before that leaves it as it was. After an error the file may have any bytes behind that.
pub fn put_back<D: Disk>(alloc: Global, disk: &mut D, bytes: &[u8]) -> io::Result<()>
    requires { IsTrue (D.Disk.is_usable disk.old) }
    ensures bytes { OnOk result (IsClean D.Disk disk.new → D.Disk.seen disk.new ≡ bytes.now) }
    ensures synced { OnOk result (Only (D.Disk.seen disk.new) (D.Disk.may_leave disk.new)) }
    ensures crash { IsClean D.Disk disk.new → KeepsBeginning (D.Disk.seen disk.old) bytes.now (D.Disk.may_leave disk.old) (D.Disk.may_leave disk.new) }
{
    let now = bytes_of(alloc, disk)?;
    let same = alike(now.as_slice(), bytes);
    if same == now.len() && same == bytes.len() {
        return disk.sync();
    }
    write_from(disk, same, bytes)
}
