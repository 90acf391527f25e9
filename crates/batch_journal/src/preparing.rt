//! What is made before a journal is begun, opened or written.

ghost use Rattle.std.specs.Prelude.{◌≡◌, ◌↔◌, ◌+◌, ◌<◌, ◌≤◌, ◌^◌, ◌⊎◌, [], ℕ, List, length, replicate, IsTrue, IfOk};
ghost use Rattle.std.specs.Prelude.{IfErr, OnOk, true, false};
ghost use Rattle.batch_journal.specs.Heads.{IsHead, head_of};
ghost use Rattle.batch_journal.specs.Faults.{IsBlank, IsNotBegun};
ghost use Rattle.batch_journal.specs.Readings.{batch_key, room_behind};

use crate::disk::{MOST_BYTES, is_empty, read_all};
use crate::fault::JournalFault;
use crate::head::{Head, head_bytes};
use crate::room::{room_behind, zeros};
use link_frames::hmac_sha256;
use sqlite_disk::{Disk, Files};
use std::alloc::{AllocError, Global};

/// What a journal has of its own.
#[derive(Drop)]
pub(crate) struct Parts {
    /// Its head as it stands in the file.
    pub(crate) front: Vec<u8>,
    /// The key of its batches.
    pub(crate) batch_key: [u8; 32],
    /// As many zeros as stand behind its batches.
    pub(crate) zeros: Vec<u8>,
}

/// The parts of a journal with this head.
#[tactic(auto, unfolding(crate::specs::Readings::batch_key))]
pub(crate) fn prepare(alloc: Global, key: &[u8; 32], head: &Head) -> Result<Parts, AllocError>
    requires { IsHead head.now }
    ensures front { IfOk result (λ p. p.front.items ≡ head_of key.now head.now) }
    ensures key { IfOk result (λ p. p.batch_key ≡ batch_key key.now head.now) }
    ensures zeros { IfOk result (λ p. p.zeros.items ≡ replicate room_behind 0) }
{
    let front = head_bytes(alloc, key, head)?;
    let batch_key = hmac_sha256(key, &front);
    let zeros = zeros(alloc, room_behind())?;
    Ok(Parts {
        front,
        batch_key,
        zeros,
    })
}

/// Whether each byte is 0.
fn are_zeros(bytes: &[u8]) -> bool
    ensures { IsTrue result ↔ IsBlank bytes.now }
{
    for byte in bytes {
        if *byte != 0 {
            return false;
        }
    }
    true
}

/// How long a file is in which a journal may begin, beside one that is empty.
pub(crate) fn blank_size<D: Disk>(
    alloc: Global,
    files: &mut Files<D>,
) -> Result<usize, JournalFault>
    requires beside { IsTrue (D.Disk.is_usable files.old.log) }
    requires usable { IsTrue (D.Disk.is_usable files.old.db) }
    ensures blank { IfOk result (λ n. IsTrue (D.Disk.is_clean files.new.db) →
        D.Disk.seen files.old.db ≡ replicate n 0) }
    ensures few { IfOk result (λ n. n ≤ 536870912) }
    ensures alone { IfOk result (λ _. IsTrue (D.Disk.is_clean files.new.log) → D.Disk.seen files.old.log ≡ []) }
    ensures why { IfErr result (IsNotBegun D.Disk.seen D.Disk.faults D.Disk.is_clean D.Disk.is_mixing files.old
        files.new) }
    ensures faults { OnOk result (D.Disk.faults files.new.db ≡ D.Disk.faults files.old.db) }
    ensures seen { D.Disk.seen files.new.db ≡ D.Disk.seen files.old.db }
    ensures clean { IsTrue (D.Disk.is_clean files.new.db) → IsTrue (D.Disk.is_clean files.old.db) }
    ensures usable { IsTrue (D.Disk.is_usable files.new.db) }
    ensures crash { (c : List ℕ) → D.Disk.may_leave files.new.db c → D.Disk.may_leave files.old.db c }
{
    is_empty(&mut files.log)?;
    let bytes = read_all(alloc, &mut files.db)?;
    if are_zeros(&bytes) {
        Ok(bytes.len())
    } else {
        Err(JournalFault::NotBlank)
    }
}

/// Whether a journal has no room for a batch with so many digits.
pub(crate) fn is_full(end: usize, size: usize, digits: usize, room: usize) -> bool
    requires end { end ≤ size }
    requires size { size ≤ 536870912 }
    requires digits { digits ≤ 1000000 }
    requires room { room ≤ 1048576 }
    ensures free { result ≡ false → (end + (41 + digits) + room ≤ size) ⊎ (size + room ≤ 536870912) }
    ensures full { result ≡ true → 536870912 < size + room }
{
    end + 41 + digits + room > size && size + room > MOST_BYTES
}
