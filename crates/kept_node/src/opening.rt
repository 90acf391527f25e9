//! A node's journal, opened with room for what will wait, and recorded by the node.

ghost use Rattle.std.specs.Prelude.{◌≡◌, [], false, IsTrue, IfOk, IfErr};
ghost use Rattle.std.specs.Vec.{vec_capacity};
ghost use Rattle.batch_journal.specs.declared.fault.JournalFault.TheVariants as journal_fault;
ghost use Rattle.role_node.specs.Nodes.{IsLegalNode};
ghost use Rattle.node_lock.specs.Holds.{end_of, Fits};
ghost use Rattle.kept_node.specs.Keeping.{StandsFor};
ghost use Rattle.kept_node.specs.Restoring.{IsUnrestored, LeavesAsBefore, file_of};
ghost use Rattle.kept_node.specs.inside.Fields.{IsKept};
ghost use Rattle.kept_node.specs.inside.Opening.{IsOpened};

use crate::event_digits::MOST_EVENT_DIGITS;
use crate::fault::Unrestored;
use crate::head::head_of;
use crate::replaying::{ReplayFault, replay_events};
use batch_journal::{Journal, JournalFault};
use node_lock::{Locked, Seat};
use sqlite_disk::{Disk, Files};
use std::alloc::Global;
use std::sync::ledger::Ledger;

/// The digits of as many events as may wait for a sync.
const WAITING_DIGITS: usize = 1_024 * MOST_EVENT_DIGITS;

/// Opens the journal of this node and has the node record its events: the journal, memory for what will wait, and how
/// many events these are.
///
/// # Errors
///
/// As [`open_with_room`]; the journal has an event that the node does not record; want of memory.
pub(crate) fn replay_journal<L: Ledger, D: Disk>(
    alloc: Global,
    locked: &mut Locked<L>,
    seat: &mut Seat<L>,
    key: &[u8; 32],
    files: Files<D>,
) -> Result<(Journal<D>, Vec<u8>, u64), Unrestored<D>>
    requires new { locked.old.node.history ≡ [] }
    requires fits { Fits locked.old seat.old }
    requires beside { IsTrue (D.Disk.is_usable files.log) }
    requires usable { IsTrue (D.Disk.is_usable files.db) }
    ensures node { IfOk result (λ _. locked.new.node ≡ record locked.old.node { history = locked.new.node.history }) }
    ensures legal { IfOk result (λ _. IsLegalNode locked.new.node) }
    ensures stands { IfOk result (λ r. IsTrue (D.Disk.is_clean r.0.disk) →
        StandsFor key.now locked.old.node.config locked.old.node.me (D.Disk.seen files.db) locked.new.node.history) }
    ensures kept { IfOk result (λ r. IsKept D.Disk.may_leave D.Disk.is_clean locked.new r.0 r.1.items (vec_capacity r.1)
        r.2 r.2) }
    ensures count { IfOk result (λ r. r.2 ≡ end_of locked.new) }
    ensures key { IfOk result (λ r. r.0.key ≡ key.now) }
    ensures whole { IfOk result (λ r. r.0.broken ≡ false) }
    ensures seat { IfOk result (λ _. Fits locked.new seat.new) }
    ensures why { IfErr result (IsUnrestored D.Disk.seen D.Disk.faults D.Disk.is_clean D.Disk.is_mixing key.now
        locked.old.node.config locked.old.node.me files) }
    ensures left { IfErr result (λ e. IsTrue (D.Disk.is_clean (file_of e)) → LeavesAsBefore key.now
        locked.old.node.config locked.old.node.me (D.Disk.seen files.db) (D.Disk.may_leave files.db)
        (D.Disk.may_leave (file_of e))) }
{
    let waiting = match Vec::with_capacity(alloc, WAITING_DIGITS) {
        Ok(waiting) => waiting,
        Err(_) => return Err(wanting(files)),
    };
    let (journal, digits) = open_with_room(alloc, locked, key, files)?;
    match replay_events(locked, seat, &digits) {
        Ok(count) => Ok((journal, waiting, count)),
        Err(ReplayFault::Illegal { place }) => Err(Unrestored::Illegal { place, journal }),
        Err(ReplayFault::Memory) => Err(Unrestored::Memory { journal }),
    }
}

/// Opens the journal of this node, makes room for what will wait, and reads its digits.
///
/// # Errors
///
/// The journal is not opened under the node's head and this key; want of memory. What was handed over is handed back.
fn open_with_room<L: Ledger, D: Disk>(
    alloc: Global,
    locked: &Locked<L>,
    key: &[u8; 32],
    files: Files<D>,
) -> Result<(Journal<D>, Vec<u8>), Unrestored<D>>
    requires beside { IsTrue (D.Disk.is_usable files.log) }
    requires usable { IsTrue (D.Disk.is_usable files.db) }
    ensures opened { IfOk result (λ r. IsOpened D.Disk.may_leave D.Disk.is_clean key.now locked.now.node.config
        locked.now.node.me (D.Disk.seen files.db) r.0 r.1.items) }
    ensures alone { IfOk result (λ r. IsTrue (D.Disk.is_clean r.0.beside) → D.Disk.seen files.log ≡ []) }
    ensures why { IfErr result (IsUnrestored D.Disk.seen D.Disk.faults D.Disk.is_clean D.Disk.is_mixing key.now
        locked.now.node.config locked.now.node.me files) }
    ensures left { IfErr result (λ e. IsTrue (D.Disk.is_clean (file_of e)) → LeavesAsBefore key.now
        locked.now.node.config locked.now.node.me (D.Disk.seen files.db) (D.Disk.may_leave files.db)
        (D.Disk.may_leave (file_of e))) }
{
    let head = match head_of(alloc, locked.config(), locked.me()) {
        Ok(head) => head,
        Err(_) => return Err(wanting(files)),
    };
    let (mut journal, digits) = match Journal::open(alloc, files, key, head) {
        Ok(opened) => opened,
        Err((fault, files)) => return Err(Unrestored::Unopened { fault, files }),
    };
    if journal.make_room(WAITING_DIGITS).is_err() {
        return Err(Unrestored::Memory { journal });
    }
    Ok((journal, digits))
}

/// What is handed back where memory is wanting before the journal is opened.
fn wanting<D: Disk>(files: Files<D>) -> Unrestored<D>
    ensures { result ≡ Unrestored.Unopened journal_fault.Memory files }
{
    Unrestored::Unopened {
        fault: JournalFault::Memory,
        files,
    }
}
