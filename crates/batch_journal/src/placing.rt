//! Bytes that are placed on a disk: room behind the batches, a batch, the blanking of a torn end, a new journal.

ghost use Rattle.std.specs.Prelude.{◌≡◌, ◌⊎◌, ◌+◌, ◌-◌, ◌<◌, ◌≤◌, ◌^◌, ◌++◌, [], ℕ, List, length, replicate, max};
ghost use Rattle.std.specs.Prelude.{IsTrue, IfOk, IfErr, OnOk, OnErr};
ghost use Rattle.sqlite_disk.specs.Disk.{Only};
ghost use Rattle.batch_journal.specs.Faults.{Failed};
ghost use Rattle.batch_journal.specs.Readings.{room_behind};
ghost use Rattle.batch_journal.specs.declared.fault.JournalFault.TheVariants as fault;
ghost use Rattle.batch_journal.specs.inside.Fading.{IsFaded};
ghost use Rattle.batch_journal.specs.inside.Placing.{IsZeroed, IsPlaced, IsBegun};

use crate::disk::{overwrite, sync_disk};
use crate::fault::JournalFault;
use crate::room::zeros;
use sqlite_disk::Disk;
use std::alloc::Global;

/// So many zeros more behind a file.
fn grow<D: Disk>(disk: &mut D, zeros: &[u8], size: usize) -> Result<(), JournalFault>
    requires usable { IsTrue (D.Disk.is_usable disk.old) }
    requires fits { size + length zeros.now < 2 ^ 63 }
    ensures faults { OnOk result (D.Disk.faults disk.new ≡ D.Disk.faults disk.old) }
    ensures fails { OnErr result (Failed (D.Disk.faults disk.old) (D.Disk.faults disk.new)
        (D.Disk.is_mixing disk.new)) }
    ensures clean { D.Disk.is_clean disk.new ≡ D.Disk.is_clean disk.old }
    ensures usable { OnOk result (IsTrue (D.Disk.is_usable disk.new)) }
    ensures durable { OnOk result (Only (D.Disk.seen disk.new) (D.Disk.may_leave disk.new)) }
    ensures seen { OnOk result (size ≡ length (D.Disk.seen disk.old) →
        D.Disk.seen disk.new ≡ D.Disk.seen disk.old ++ zeros.now) }
    ensures crash { (front rest : List ℕ) → size ≡ length (front ++ rest) →
        Only (front ++ rest) (D.Disk.may_leave disk.old) →
        (c : List ℕ) → D.Disk.may_leave disk.new c → IsFaded front rest c }
{
    overwrite(disk, size, zeros)?;
    sync_disk(disk)?;
    Ok(())
}

/// Has a file that ends in zeros be so long at least, where the zeros given suffice for that. The result is its length.
fn make_room<D: Disk>(
    disk: &mut D,
    zeros: &[u8],
    end: usize,
    size: usize,
    wanted: usize,
) -> Result<usize, JournalFault>
    requires usable { IsTrue (D.Disk.is_usable disk.old) }
    requires fits { size + length zeros.now < 2 ^ 63 }
    requires within { end ≤ size }
    requires room { wanted ≤ size + length zeros.now }
    requires zeros { zeros.now ≡ replicate (length zeros.now) 0 }
    ensures faults { OnOk result (D.Disk.faults disk.new ≡ D.Disk.faults disk.old) }
    ensures fails { OnErr result (Failed (D.Disk.faults disk.old) (D.Disk.faults disk.new)
        (D.Disk.is_mixing disk.new)) }
    ensures clean { D.Disk.is_clean disk.new ≡ D.Disk.is_clean disk.old }
    ensures usable { OnOk result (IsTrue (D.Disk.is_usable disk.new)) }
    ensures room { IfOk result (λ n. (wanted ≤ n) × (size ≤ n)) }
    ensures most { IfOk result (λ n. (n ≡ size) ⊎ (n ≡ size + length zeros.now)) }
    ensures need { wanted ≤ size → IfOk result (λ n. n ≡ size) }
    ensures zeroed { IfOk result (λ n. (front : List ℕ) → length front ≡ end →
        IsZeroed front (size - end) (D.Disk.seen disk.old) (D.Disk.may_leave disk.old) →
        IsZeroed front (n - end) (D.Disk.seen disk.new) (D.Disk.may_leave disk.new)) }
    ensures crash { OnErr result ((front : List ℕ) → length front ≡ end →
        Only (front ++ replicate (size - end) 0) (D.Disk.may_leave disk.old) →
        (c : List ℕ) → D.Disk.may_leave disk.new c → IsFaded front (replicate (size - end) 0) c) }
{
    if wanted <= size {
        return Ok(size);
    }
    grow(disk, zeros, size)?;
    Ok(size + zeros.len())
}

/// Places a batch behind the others, over zeros of which enough are left. The result is the length of the file.
pub(crate) fn place<D: Disk>(
    disk: &mut D,
    batch: &[u8],
    zeros: &[u8],
    end: usize,
    size: usize,
) -> Result<usize, JournalFault>
    requires usable { IsTrue (D.Disk.is_usable disk.old) }
    requires size { size ≤ 536870912 }
    requires room { end + room_behind ≤ size }
    requires few { length batch.now ≤ room_behind }
    requires long { length zeros.now ≡ room_behind }
    requires room_is { room_behind ≤ 1048576 }
    requires zeros { zeros.now ≡ replicate room_behind 0 }
    ensures faults { OnOk result (D.Disk.faults disk.new ≡ D.Disk.faults disk.old) }
    ensures fails { OnErr result (Failed (D.Disk.faults disk.old) (D.Disk.faults disk.new)
        (D.Disk.is_mixing disk.new)) }
    ensures clean { D.Disk.is_clean disk.new ≡ D.Disk.is_clean disk.old }
    ensures usable { OnOk result (IsTrue (D.Disk.is_usable disk.new)) }
    ensures room { IfOk result (λ n. end + length batch.now + room_behind ≤ n) }
    ensures most { IfOk result (λ n. (n ≡ size) ⊎ (n ≡ size + room_behind)) }
    ensures need { end + length batch.now + room_behind ≤ size → IfOk result (λ n. n ≡ size) }
    ensures seen { IfOk result (λ n. (front : List ℕ) → length front ≡ end →
        IsZeroed front (size - end) (D.Disk.seen disk.old) (D.Disk.may_leave disk.old) →
        D.Disk.seen disk.new ≡ front ++ (batch.now ++ replicate (n - (end + length batch.now)) 0)) }
    ensures placed { IfOk result (λ n. (front : List ℕ) → length front ≡ end →
        IsZeroed front (size - end) (D.Disk.seen disk.old) (D.Disk.may_leave disk.old) →
        (c : List ℕ) → D.Disk.may_leave disk.new c →
        IsFaded front (batch.now ++ replicate (n - (end + length batch.now)) 0) c) }
    ensures crash { OnErr result ((front : List ℕ) → length front ≡ end →
        IsZeroed front (size - end) (D.Disk.seen disk.old) (D.Disk.may_leave disk.old) →
        (c : List ℕ) → D.Disk.may_leave disk.new c → IsFaded front (replicate (size - end) 0) c
        ⊎ IsPlaced front batch.now c) }
{
    let size = make_room(disk, zeros, end, size, end + batch.len() + zeros.len())?;
    match overwrite(disk, end, batch) {
        Ok(()) => Ok(size),
        Err(fault) => Err(fault),
    }
}

/// Has zeros on the disk from a place on, up to the end of the file.
pub(crate) fn blank<D: Disk>(disk: &mut D, zeros: &[u8], end: usize) -> Result<(), JournalFault>
    requires usable { IsTrue (D.Disk.is_usable disk.old) }
    requires fits { end + length zeros.now < 2 ^ 63 }
    requires zeros { zeros.now ≡ replicate (length zeros.now) 0 }
    ensures faults { OnOk result (D.Disk.faults disk.new ≡ D.Disk.faults disk.old) }
    ensures fails { OnErr result (Failed (D.Disk.faults disk.old) (D.Disk.faults disk.new)
        (D.Disk.is_mixing disk.new)) }
    ensures clean { D.Disk.is_clean disk.new ≡ D.Disk.is_clean disk.old }
    ensures usable { OnOk result (IsTrue (D.Disk.is_usable disk.new)) }
    ensures which { IfErr result (λ e. e ≡ fault.Device) }
    ensures zeroed { OnOk result ((front rest : List ℕ) → length front ≡ end → length rest ≡ length zeros.now →
        D.Disk.seen disk.old ≡ front ++ rest →
        IsZeroed front (length zeros.now) (D.Disk.seen disk.new) (D.Disk.may_leave disk.new)) }
    ensures crash { (front rest : List ℕ) → length front ≡ end → length rest ≡ length zeros.now →
        D.Disk.seen disk.old ≡ front ++ rest → (c : List ℕ) → D.Disk.may_leave disk.new c →
        D.Disk.may_leave disk.old c ⊎ (IsFaded front rest c × (length c ≡ length (front ++ rest))) }
{
    sync_disk(disk)?;
    overwrite(disk, end, zeros)?;
    sync_disk(disk)?;
    Ok(())
}
