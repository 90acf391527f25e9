//! The journal of a node: begun, opened, and looked at. Nothing here knows where the files are.

ghost use Rattle.std.specs.Prelude.{◌≡◌, ◌↔◌, ◌⊎◌, ◌<◌, ◌≤◌, ◌==◌, ℕ, List, [], length, not, IsTrue, IfOk, IfErr};
ghost use Rattle.std.specs.List.{list_any};
ghost use Rattle.sqlite_disk.specs.Disk.{MoreFaults};
ghost use Rattle.batch_journal.specs.Faults.{IsBlank};
ghost use Rattle.batch_journal.specs.declared.fault.JournalFault.TheVariants as fault;
ghost use Rattle.node_lock.specs.Holds.{end_of, Fits};
ghost use Rattle.node_lock.specs.Seats.{most_seats};
ghost use Rattle.role_node.specs.Nodes.{IsLegalNode, new_node};
ghost use Rattle.kept_node.specs.Keeping.{StandsFor, Survives};
ghost use Rattle.kept_node.specs.NodeHeads.{IsHeadOf};
ghost use Rattle.cluster_text.specs.Linked.{own_key};
ghost use Rattle.cluster_text.specs.Setups.{IsNodeSetup, IsServerSetup};
ghost use Rattle.node_journal.specs.Refusals as refusals;
ghost use Rattle.node_journal.specs.Refusals.{IsNotMade, IsNotRestored};
ghost use Rattle.node_journal.specs.Sights.{HasByte, IsSeen};

use crate::beyond::{Beyond, beyond_in};
use crate::fault::KeptFault;
use crate::held::Journaled;
use batch_journal::{Journal, JournalFault, read};
use cluster_text::cluster::Setup;
use kept_node::{Kept, ReplayFault, Unrestored, head_of, replay_events};
use node_lock::{Locked, Seat, unshared};
use quorum_sizes::NodeName;
use role_node::{Config, Node};
use sqlite_disk::{Disk, Files};
use std::alloc::{AllocError, Global};
use std::marker::Brand;
use std::sync::ledger::{Blank, Ledger};

/// Begins the journal of a setup's node.
///
/// # Errors
///
/// As [`Journal::begin`].
pub fn begin<D: Disk + Drop>(
    alloc: Global,
    setup: &Setup,
    files: Files<D>,
) -> Result<Journal<D>, KeptFault>
    requires me { IsNodeSetup setup.now }
    requires peers { IsServerSetup setup.now }
    requires beside { IsTrue (D.Disk.is_usable files.log) }
    requires usable { IsTrue (D.Disk.is_usable files.db) }
    ensures key { IfOk result (λ j. j.key ≡ own_key setup.now) }
    ensures head { IfOk result (λ j. IsHeadOf setup.now.config setup.now.me j.head) }
    ensures empty { IfOk result (λ j. IsTrue (D.Disk.is_clean j.disk) → j.batches ≡ []) }
    ensures blank { IfOk result (λ j. IsTrue (D.Disk.is_clean j.disk) → IsBlank (D.Disk.seen files.db)) }
    ensures why { IfErr result (IsNotMade D.Disk.seen D.Disk.faults D.Disk.is_clean D.Disk.is_mixing files) }
{
    let head = head_of(alloc, &setup.config, setup.me)?;
    match Journal::begin(alloc, files, &setup.own_key(), head) {
        Ok(journal) => Ok(journal),
        Err((fault, _files)) => Err(KeptFault::Journal(fault)),
    }
}

/// A node that has recorded what its journal stands for, and its seats, so many.
///
/// # Errors
///
/// As [`Kept::restore`]; `Memory`.
pub fn restored<L: Ledger, D: Disk + Drop>(
    alloc: Global,
    blank: Blank,
    seats: u8,
    config: Config,
    me: NodeName,
    key: &[u8; 32],
    files: Files<D>,
) -> Result<(Journaled<L, D>, Vec<Seat<L>>), KeptFault>
    requires name { blank.name ≡ L.name }
    requires parts { (blank.parts ≡ L.parts) × (seats ≡ L.parts) }
    requires seats { (0 < seats) × (seats ≤ most_seats) }
    requires me { me < config.roles.sizes.nodes }
    requires beside { IsTrue (D.Disk.is_usable files.log) }
    requires usable { IsTrue (D.Disk.is_usable files.db) }
    ensures node { IfOk result (λ r. r.0.kept.held.node ≡
        record (new_node config me) { history = r.0.kept.held.node.history }) }
    ensures legal { IfOk result (λ r. IsLegalNode r.0.kept.held.node) }
    ensures stands { IfOk result (λ r. IsTrue (D.Disk.is_clean r.0.kept.disk) → StandsFor key.now
        config me (D.Disk.seen files.db) r.0.kept.held.node.history) }
    ensures synced { IfOk result (λ r. r.0.kept.synced ≡ end_of r.0.kept.held) }
    ensures key { IfOk result (λ r. r.0.kept.key ≡ key.now) }
    ensures crash { IfOk result (λ r. Survives D.Disk.may_leave D.Disk.is_clean r.0.kept) }
    ensures why { IfErr result (IsNotRestored D.Disk.seen D.Disk.faults D.Disk.is_clean D.Disk.is_mixing key.now
        config me files) }
{
    let (locked, mut seat, mut others) = fresh(alloc, blank, seats, config, me)?;
    match Kept::restore(alloc, locked, &mut seat, key, files) {
        Ok(kept) => {
            if others.push(seat).is_err() {
                return Err(KeptFault::Journal(JournalFault::Memory));
            }
            Ok((Journaled { kept }, others))
        }
        Err(unrestored) => Err(fault_in(unrestored)),
    }
}

/// Why a node was not restored, without what was handed back.
fn fault_in<D: Disk + Drop>(unrestored: Unrestored<D>) -> KeptFault
    ensures { result ≡ refusals.fault_in unrestored }
{
    match unrestored {
        Unrestored::Unopened { fault, .. } => KeptFault::Journal(fault),
        Unrestored::Illegal { .. } => KeptFault::Illegal,
        Unrestored::Memory { .. } => KeptFault::Journal(JournalFault::Memory),
    }
}

/// A node that has recorded nothing, one of its seats, so many, and the others.
///
/// # Errors
///
/// Only for want of memory.
fn fresh<L: Ledger>(
    alloc: Global,
    blank: Blank,
    seats: u8,
    config: Config,
    me: NodeName,
) -> Result<(Locked<L>, Seat<L>, Vec<Seat<L>>), AllocError>
    requires name { blank.name ≡ L.name }
    requires parts { (blank.parts ≡ L.parts) × (seats ≡ L.parts) }
    requires seats { (0 < seats) × (seats ≤ most_seats) }
    requires me { me < config.roles.sizes.nodes }
    ensures node { IfOk result (λ r. r.0.node ≡ new_node config me) }
    ensures fits { IfOk result (λ r. Fits r.0 r.1) }
{
    let node = Node::new(alloc, config, me)?;
    let (locked, mut others) = unshared::<L>(alloc, blank, node, seats)?;
    let Some(seat) = others.pop() else {
        return Err(AllocError);
    };
    Ok((locked, seat, others))
}

/// What a journal is.
#[derive(Clone, Copy, Debug, PartialEq, Eq)]
pub struct Sight {
    /// How many events it has, and in how many batches.
    pub events: u64,
    pub batches: u64,
    /// How many bytes of the file are its head and its batches, and how many it has.
    pub used: u64,
    pub size: u64,
    /// Behind the last batch stands what is none, which a crash may leave.
    pub is_torn: bool,
    /// An owner of whose stream it has more than its share, if there is one.
    pub beyond: Option<Beyond>,
}

/// Looks at the journal of a node with so many seats, and changes nothing.
///
/// # Errors
///
/// As [`restored`].
pub fn look<D: Disk + Drop>(
    alloc: Global,
    seats: u8,
    config: Config,
    me: NodeName,
    key: &[u8; 32],
    files: &mut Files<D>,
) -> Result<Sight, KeptFault>
    requires seats { (0 < seats) × (seats ≤ most_seats) }
    requires me { me < config.roles.sizes.nodes }
    requires beside { IsTrue (D.Disk.is_usable files.old.log) }
    requires usable { IsTrue (D.Disk.is_usable files.old.db) }
    ensures sight { IfOk result (λ s. IsTrue (D.Disk.is_clean files.new.db) →
        IsSeen key.now config me (D.Disk.seen files.old.db) s) }
    ensures why { IfErr result (IsNotRestored D.Disk.seen D.Disk.faults D.Disk.is_clean D.Disk.is_mixing key.now
        config me files.old) }
    ensures seen { D.Disk.seen files.new.db ≡ D.Disk.seen files.old.db }
    ensures crash { (c : List ℕ) → D.Disk.may_leave files.new.db c → D.Disk.may_leave files.old.db c }
{
    let blank = Blank::new(u64::from(seats));
    look_at::<Brand, D>(alloc, blank, seats, config, me, key, files)
}

/// The same at a ledger with one part for each seat.
fn look_at<L: Ledger, D: Disk + Drop>(
    alloc: Global,
    blank: Blank,
    seats: u8,
    config: Config,
    me: NodeName,
    key: &[u8; 32],
    files: &mut Files<D>,
) -> Result<Sight, KeptFault>
    requires name { blank.name ≡ L.name }
    requires parts { (blank.parts ≡ L.parts) × (seats ≡ L.parts) }
    requires seats { (0 < seats) × (seats ≤ most_seats) }
    requires me { me < config.roles.sizes.nodes }
    requires beside { IsTrue (D.Disk.is_usable files.old.log) }
    requires usable { IsTrue (D.Disk.is_usable files.old.db) }
    ensures sight { IfOk result (λ s. IsTrue (D.Disk.is_clean files.new.db) →
        IsSeen key.now config me (D.Disk.seen files.old.db) s) }
    ensures why { IfErr result (IsNotRestored D.Disk.seen D.Disk.faults D.Disk.is_clean D.Disk.is_mixing key.now
        config me files.old) }
    ensures seen { D.Disk.seen files.new.db ≡ D.Disk.seen files.old.db }
    ensures crash { (c : List ℕ) → D.Disk.may_leave files.new.db c → D.Disk.may_leave files.old.db c }
{
    let head = head_of(alloc, &config, me)?;
    let found = read(alloc, files, key, &head)?;
    let is_torn = has_bytes(
        alloc,
        &mut files.db,
        found.end as usize,
        found.size as usize,
    )?;
    let (mut locked, mut seat, _others) = fresh::<L>(alloc, blank, seats, config, me)?;
    match replay_events(&mut locked, &mut seat, &found.digits) {
        Ok(events) => Ok(Sight {
            events,
            batches: found.count,
            used: found.end,
            size: found.size,
            is_torn,
            beyond: beyond_in(locked.node()),
        }),
        Err(ReplayFault::Illegal { .. }) => Err(KeptFault::Illegal),
        Err(ReplayFault::Memory) => Err(KeptFault::Journal(JournalFault::Memory)),
    }
}

/// Whether a file has a byte from one place up to another that is not 0.
fn has_bytes<D: Disk>(
    alloc: Global,
    file: &mut D,
    from: usize,
    to: usize,
) -> Result<bool, JournalFault>
    requires usable { IsTrue (D.Disk.is_usable file.old) }
    requires order { from ≤ to }
    ensures byte { IfOk result (λ b. IsTrue (D.Disk.is_clean file.new) →
        (IsTrue b ↔ HasByte (D.Disk.seen file.old) from to)) }
    ensures why { IfErr result (λ e. (e ≡ fault.Memory) ⊎ ((e ≡ fault.Device) × ((IsTrue (D.Disk.is_clean file.old) →
        to ≤ length (D.Disk.seen file.old)) → MoreFaults (D.Disk.faults file.old) (D.Disk.faults file.new)))) }
    ensures clean { IsTrue (D.Disk.is_clean file.new) → IsTrue (D.Disk.is_clean file.old) }
    ensures seen { D.Disk.seen file.new ≡ D.Disk.seen file.old }
    ensures crash { (c : List ℕ) → D.Disk.may_leave file.new c → D.Disk.may_leave file.old c }
{
    let mut bytes = Vec::from_elem(alloc, 0u8, to - from)?;
    match file.read_at(from, bytes.as_mut_slice()) {
        Ok(()) => Ok(has_byte(&bytes)),
        Err(_) => Err(JournalFault::Device),
    }
}

/// Whether a byte is not 0.
fn has_byte(bytes: &[u8]) -> bool
    ensures { result ≡ list_any (λ byte. not (byte == 0)) bytes.now }
{
    bytes.iter().any(|byte| *byte != 0)
}
