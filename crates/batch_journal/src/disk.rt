//! What a journal asks of a disk.

ghost use Rattle.std.specs.Prelude.{◌≡◌, ◌≢◌, ◌⊎◌, [], Err, IfErr, OnErr, ◌+◌, ◌<◌, ◌≤◌, ◌^◌, ℕ, List, length};
ghost use Rattle.std.specs.Prelude.{IsTrue, IfOk, OnOk};
ghost use Rattle.sqlite_disk.specs.Disk.{Only, MoreFaults};
ghost use Rattle.batch_journal.specs.Faults.{Failed};
ghost use Rattle.batch_journal.specs.declared.fault.JournalFault.TheVariants as fault;
ghost use Rattle.batch_journal.specs.inside.Disks.{IsOverwritten, MayBeOverwritten};

use crate::fault::JournalFault;
use sqlite_disk::Disk;
use std::alloc::Global;

/// A journal has so many bytes at most.
pub const MOST_BYTES: usize = 536_870_912;

/// All bytes of a disk.
pub(crate) fn read_all<D: Disk>(alloc: Global, disk: &mut D) -> Result<Vec<u8>, JournalFault>
    requires { IsTrue (D.Disk.is_usable disk.old) }
    ensures bytes { IfOk result (λ bytes. IsTrue (D.Disk.is_clean disk.new) → bytes.items ≡ D.Disk.seen disk.old) }
    ensures few { IfOk result (λ bytes. length bytes.items ≤ 536870912) }
    ensures which { IfErr result (λ e. ((e ≡ fault.Device) ⊎ (e ≡ fault.Unopened)) ⊎ (e ≡ fault.Memory)) }
    ensures device { result ≡ Err fault.Device → MoreFaults (D.Disk.faults disk.old) (D.Disk.faults disk.new) }
    ensures long { result ≡ Err fault.Unopened → IsTrue (D.Disk.is_clean disk.new) →
        536870912 < length (D.Disk.seen disk.old) }
    ensures short { result ≡ Err fault.Memory → IsTrue (D.Disk.is_clean disk.new) →
        length (D.Disk.seen disk.old) ≤ 536870912 }
    ensures faults { OnOk result (D.Disk.faults disk.new ≡ D.Disk.faults disk.old) }
    ensures seen { D.Disk.seen disk.new ≡ D.Disk.seen disk.old }
    ensures clean { IsTrue (D.Disk.is_clean disk.new) → IsTrue (D.Disk.is_clean disk.old) }
    ensures usable { IsTrue (D.Disk.is_usable disk.new) }
    ensures crash { (c : List ℕ) → D.Disk.may_leave disk.new c → D.Disk.may_leave disk.old c }
{
    let Ok(size) = disk.len() else {
        return Err(JournalFault::Device);
    };
    if size > MOST_BYTES {
        return Err(JournalFault::Unopened);
    }
    let mut bytes = Vec::from_elem(alloc, 0u8, size)?;
    match disk.read_at(0, bytes.as_mut_slice()) {
        Ok(()) => Ok(bytes),
        Err(_) => Err(JournalFault::Device),
    }
}

/// Has all that was written on the disk.
pub(crate) fn sync_disk<D: Disk>(disk: &mut D) -> Result<(), JournalFault>
    requires { IsTrue (D.Disk.is_usable disk.old) }
    ensures clean { D.Disk.is_clean disk.new ≡ D.Disk.is_clean disk.old }
    ensures usable { OnOk result (IsTrue (D.Disk.is_usable disk.new)) }
    ensures which { IfErr result (λ e. e ≡ fault.Device) }
    ensures faults { OnOk result (D.Disk.faults disk.new ≡ D.Disk.faults disk.old) }
    ensures fails { OnErr result (Failed (D.Disk.faults disk.old) (D.Disk.faults disk.new)
        (D.Disk.is_mixing disk.new)) }
    ensures seen { D.Disk.seen disk.new ≡ D.Disk.seen disk.old }
    ensures durable { OnOk result (Only (D.Disk.seen disk.new) (D.Disk.may_leave disk.new)) }
    ensures crash { (c : List ℕ) → D.Disk.may_leave disk.new c → D.Disk.may_leave disk.old c }
{
    match disk.sync() {
        Ok(()) => Ok(()),
        Err(_) => Err(JournalFault::Device),
    }
}

/// Writes bytes, where a crash leaves each byte of a write old or new.
pub(crate) fn overwrite<D: Disk>(disk: &mut D, at: usize, bytes: &[u8]) -> Result<(), JournalFault>
    requires usable { IsTrue (D.Disk.is_usable disk.old) }
    requires fits { at + length bytes.now < 2 ^ 64 }
    ensures clean { D.Disk.is_clean disk.new ≡ D.Disk.is_clean disk.old }
    ensures usable { IsTrue (D.Disk.is_usable disk.new) }
    ensures which { IfErr result (λ e. e ≡ fault.Device) }
    ensures faults { OnOk result (D.Disk.faults disk.new ≡ D.Disk.faults disk.old) }
    ensures fails { OnErr result (Failed (D.Disk.faults disk.old) (D.Disk.faults disk.new)
        (D.Disk.is_mixing disk.new)) }
    ensures written { OnOk result (IsOverwritten at bytes.now (D.Disk.seen disk.old) (D.Disk.seen disk.new)) }
    ensures crash { MayBeOverwritten at bytes.now (D.Disk.may_leave disk.old) (D.Disk.may_leave disk.new) }
{
    if !disk.mixes() {
        return Err(JournalFault::Device);
    }
    match disk.write_at(at, bytes) {
        Ok(()) => Ok(()),
        Err(_) => Err(JournalFault::Device),
    }
}

/// Whether a disk has no bytes.
pub(crate) fn is_empty<D: Disk>(disk: &mut D) -> Result<(), JournalFault>
    requires { IsTrue (D.Disk.is_usable disk.old) }
    ensures empty { OnOk result (IsTrue (D.Disk.is_clean disk.new) → D.Disk.seen disk.old ≡ []) }
    ensures which { IfErr result (λ e. (e ≡ fault.Device) ⊎ (e ≡ fault.SecondFile)) }
    ensures device { result ≡ Err fault.Device → MoreFaults (D.Disk.faults disk.old) (D.Disk.faults disk.new) }
    ensures other { result ≡ Err fault.SecondFile → IsTrue (D.Disk.is_clean disk.new) → D.Disk.seen disk.old ≢ [] }
{
    match disk.len() {
        Ok(0) => Ok(()),
        Ok(_) => Err(JournalFault::SecondFile),
        Err(_) => Err(JournalFault::Device),
    }
}
