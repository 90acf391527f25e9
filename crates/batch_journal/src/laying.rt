//! How the first bytes of a journal are laid.

ghost use Rattle.std.specs.Prelude.{◌≡◌, ◌⊎◌, ◌+◌, ◌-◌, ◌<◌, ◌≤◌, ◌^◌, [], ℕ, List, length, replicate, slice_index};
ghost use Rattle.std.specs.Prelude.{IsTrue, IfOk, IfErr, OnOk, OnErr};
ghost use Rattle.sqlite_disk.specs.Disk.{Only};
ghost use Rattle.batch_journal.specs.Faults.{Failed};
ghost use Rattle.batch_journal.specs.Readings.{room_behind};
ghost use Rattle.batch_journal.specs.declared.fault.JournalFault.TheVariants as fault;
ghost use Rattle.batch_journal.specs.inside.Placing.{IsZeroed, IsPlaced, IsBegun};

use crate::disk::{overwrite, sync_disk};
use crate::fault::JournalFault;
use sqlite_disk::Disk;

/// Has a file of zeros have one zero at least: past the end of an empty file a crash may leave any bytes, but one byte
/// is no head. The result is its length.
fn lay_first<D: Disk>(disk: &mut D, size: usize) -> Result<usize, JournalFault>
    requires usable { IsTrue (D.Disk.is_usable disk.old) }
    requires most { size ≤ 536870912 }
    ensures faults { OnOk result (D.Disk.faults disk.new ≡ D.Disk.faults disk.old) }
    ensures fails { OnErr result (Failed (D.Disk.faults disk.old) (D.Disk.faults disk.new)
        (D.Disk.is_mixing disk.new)) }
    ensures clean { D.Disk.is_clean disk.new ≡ D.Disk.is_clean disk.old }
    ensures usable { OnOk result (IsTrue (D.Disk.is_usable disk.new)) }
    ensures which { IfErr result (λ e. e ≡ fault.Device) }
    ensures size { IfOk result (λ n. (1 ≤ n) × (n ≤ 536870912)) }
    ensures zeroed { IfOk result (λ n. IsZeroed [] size (D.Disk.seen disk.old) (D.Disk.may_leave disk.old) →
        IsZeroed [] n (D.Disk.seen disk.new) (D.Disk.may_leave disk.new)) }
    ensures crash { OnErr result (IsZeroed [] size (D.Disk.seen disk.old) (D.Disk.may_leave disk.old) →
        (c : List ℕ) → D.Disk.may_leave disk.new c → length c ≤ 1) }
{
    if size > 0 {
        return Ok(size);
    }
    match overwrite(disk, 0, &[0u8]) {
        Ok(()) => {}
        Err(fault) => return Err(fault),
    }
    match sync_disk(disk) {
        Ok(()) => Ok(1),
        Err(fault) => Err(fault),
    }
}

/// Has a file of zeros have as many as are given at least. The result is its length.
fn lay_zeros<D: Disk>(disk: &mut D, zeros: &[u8], size: usize) -> Result<usize, JournalFault>
    requires usable { IsTrue (D.Disk.is_usable disk.old) }
    requires size { (1 ≤ size) × (size ≤ 536870912) }
    requires some { (1 ≤ length zeros.now) × (length zeros.now ≤ 536870912) }
    requires zeros { zeros.now ≡ replicate (length zeros.now) 0 }
    ensures faults { OnOk result (D.Disk.faults disk.new ≡ D.Disk.faults disk.old) }
    ensures fails { OnErr result (Failed (D.Disk.faults disk.old) (D.Disk.faults disk.new)
        (D.Disk.is_mixing disk.new)) }
    ensures clean { D.Disk.is_clean disk.new ≡ D.Disk.is_clean disk.old }
    ensures usable { OnOk result (IsTrue (D.Disk.is_usable disk.new)) }
    ensures which { IfErr result (λ e. e ≡ fault.Device) }
    ensures size { IfOk result (λ n. (length zeros.now ≤ n) × (n ≤ 536870912)) }
    ensures zeroed { IfOk result (λ n. IsZeroed [] size (D.Disk.seen disk.old) (D.Disk.may_leave disk.old) →
        IsZeroed [] n (D.Disk.seen disk.new) (D.Disk.may_leave disk.new)) }
    ensures crash { IsZeroed [] size (D.Disk.seen disk.old) (D.Disk.may_leave disk.old) →
        (c : List ℕ) → D.Disk.may_leave disk.new c → slice_index c 0 ≡ 0 }
{
    overwrite(disk, 0, zeros)?;
    sync_disk(disk)?;
    Ok(zeros.len() + size.saturating_sub(zeros.len()))
}

/// Lays a head over zeros.
fn lay_head<D: Disk>(disk: &mut D, front: &[u8], size: usize) -> Result<(), JournalFault>
    requires usable { IsTrue (D.Disk.is_usable disk.old) }
    requires room { length front.now + room_behind ≤ size }
    requires most { size ≤ 536870912 }
    ensures faults { OnOk result (D.Disk.faults disk.new ≡ D.Disk.faults disk.old) }
    ensures fails { OnErr result (Failed (D.Disk.faults disk.old) (D.Disk.faults disk.new)
        (D.Disk.is_mixing disk.new)) }
    ensures clean { D.Disk.is_clean disk.new ≡ D.Disk.is_clean disk.old }
    ensures usable { OnOk result (IsTrue (D.Disk.is_usable disk.new)) }
    ensures which { IfErr result (λ e. e ≡ fault.Device) }
    ensures zeroed { OnOk result (IsZeroed [] size (D.Disk.seen disk.old) (D.Disk.may_leave disk.old) →
        IsZeroed front.now (size - length front.now) (D.Disk.seen disk.new) (D.Disk.may_leave disk.new)) }
    ensures crash { IsZeroed [] size (D.Disk.seen disk.old) (D.Disk.may_leave disk.old) →
        (c : List ℕ) → D.Disk.may_leave disk.new c → IsPlaced [] front.now c }
{
    overwrite(disk, 0, front)?;
    sync_disk(disk)?;
    Ok(())
}

/// Lays a head, and zeros behind it, over a file of zeros. The result is the length of the file.
pub(crate) fn lay<D: Disk>(
    disk: &mut D,
    front: &[u8],
    zeros: &[u8],
    size: usize,
) -> Result<usize, JournalFault>
    requires usable { IsTrue (D.Disk.is_usable disk.old) }
    requires most { size ≤ 536870912 }
    requires room { length front.now + room_behind ≤ length zeros.now }
    requires some { (1 ≤ length zeros.now) × (length zeros.now ≤ 536870912) }
    requires zeros { zeros.now ≡ replicate (length zeros.now) 0 }
    ensures faults { OnOk result (D.Disk.faults disk.new ≡ D.Disk.faults disk.old) }
    ensures fails { OnErr result (Failed (D.Disk.faults disk.old) (D.Disk.faults disk.new)
        (D.Disk.is_mixing disk.new)) }
    ensures clean { D.Disk.is_clean disk.new ≡ D.Disk.is_clean disk.old }
    ensures usable { OnOk result (IsTrue (D.Disk.is_usable disk.new)) }
    ensures which { IfErr result (λ e. e ≡ fault.Device) }
    ensures room { IfOk result (λ n. (length front.now + room_behind ≤ n) × (n ≤ 536870912)) }
    ensures zeroed { IfOk result (λ n. D.Disk.seen disk.old ≡ replicate size 0 →
        IsZeroed front.now (n - length front.now) (D.Disk.seen disk.new) (D.Disk.may_leave disk.new)) }
    ensures crash { D.Disk.seen disk.old ≡ replicate size 0 →
        (c : List ℕ) → D.Disk.may_leave disk.new c → D.Disk.may_leave disk.old c ⊎ IsBegun front.now c }
{
    sync_disk(disk)?;
    let size = lay_first(disk, size)?;
    let size = lay_zeros(disk, zeros, size)?;
    lay_head(disk, front, size)?;
    Ok(size)
}
