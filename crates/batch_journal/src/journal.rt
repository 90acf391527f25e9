//! The journal over a disk.

ghost use Rattle.std.specs.Prelude.{◌≡◌, ◌↔◌, ◌≢◌, ◌⊎◌, ◌+◌, ◌<◌, ◌≤◌, ◌++◌, [], ◌∷◌, ℕ, List, true, false, length};
ghost use Rattle.std.specs.Prelude.{IsTrue, IfOk, IfErr, OnOk, OnErr, IsErr, Ok, Err};
ghost use Rattle.std.specs.List.{concat};
ghost use Rattle.batch_journal.specs.Digits.{AreDigits};
ghost use Rattle.batch_journal.specs.Faults.{Failed, IsBlank, IsRefused, IsNotBegun};
ghost use Rattle.batch_journal.specs.Found.{IsFound};
ghost use Rattle.batch_journal.specs.Heads.{IsHead};
ghost use Rattle.batch_journal.specs.Journals.{Survives, Records, IsSame, LeavesTheSame, LeavesNoBatch};
ghost use Rattle.batch_journal.specs.Readings.{reading, room_behind};
ghost use Rattle.batch_journal.specs.declared.fault.JournalFault.TheVariants as fault;

use crate::disk::{is_empty, read_all, sync_disk};
use crate::fault::JournalFault;
use crate::head::Head;
use crate::laying::lay;
use crate::placing::{blank, place};
use crate::preparing::{blank_size, is_full, prepare};
use crate::reading::{Found, read_journal};
use crate::room::{room_behind, zeros};
use crate::sealing::make_batch;
use sqlite_disk::{Disk, Files};
use std::alloc::{AllocError, Global};
use std::marker::Model;

/// A batch has so many digits at most.
pub const MOST_DIGITS: usize = 1_000_000;

/// Batches of digits over a disk, of which each crash leaves all that are synced.
#[derive(Drop)]
pub struct Journal<D: Disk> {
    files: Files<D>,
    key: [u8; 32],
    head: Head,
    batch_key: [u8; 32],
    zeros: Vec<u8>,
    last: Vec<u8>,
    end: usize,
    size: usize,
    count: u64,
    waits: bool,
    broken: bool,
}

impl<D: Disk> Model for Journal<D> {
    ghost use Rattle.batch_journal.specs.Journals.{JournalValue};

    ghost Value = { JournalValue D };

    ghost use Rattle.std.specs.Vec.{vec_capacity};
    ghost use Rattle.batch_journal.specs.inside.Keeping.{journal_of, IsKept};

    ghost view = { λ a. journal_of D.Disk.seen (record {
      disk = a.files.db;
      beside = a.files.log;
      key = a.key;
      head = a.head;
      batch_key = a.batch_key;
      zeros = a.zeros.items;
      last = a.last.items;
      end = a.end;
      size = a.size;
      count = a.count;
      waits = a.waits;
      broken = a.broken;
      room = vec_capacity a.last;
    }) };

    ghost invariant = { λ a. IsKept D.Disk.seen D.Disk.may_leave D.Disk.is_usable D.Disk.is_clean (record {
      disk = a.files.db;
      beside = a.files.log;
      key = a.key;
      head = a.head;
      batch_key = a.batch_key;
      zeros = a.zeros.items;
      last = a.last.items;
      end = a.end;
      size = a.size;
      count = a.count;
      waits = a.waits;
      broken = a.broken;
      room = vec_capacity a.last;
    }) };
}

impl<D: Disk> Journal<D> {
    /// Begins a journal in files of which the first is empty or all zeros, and the second, beside it, is empty.
    ///
    /// # Errors
    ///
    /// The files are handed back. The first that holds of `SecondFile`, `Unopened` and `NotBlank`, in whose place, and
    /// where it would succeed, there may be `Memory`; `Device` wherever a call of the disk fails. What a crash then
    /// leaves may be a journal with no batch, or none.
    pub fn begin(
        alloc: Global,
        files: Files<D>,
        key: &[u8; 32],
        head: Head,
    ) -> Result<Journal<D>, (JournalFault, Files<D>)>
        requires beside { IsTrue (D.Disk.is_usable files.log) }
        requires usable { IsTrue (D.Disk.is_usable files.db) }
        requires head { IsHead head }
        ensures key { IfOk result (λ j. j.key ≡ key.now) }
        ensures head { IfOk result (λ j. j.head ≡ head) }
        ensures whole { IfOk result (λ j. j.broken ≡ false) }
        ensures empty { IfOk result (λ j. IsTrue (D.Disk.is_clean j.disk) → j.batches ≡ []) }
        ensures synced { IfOk result (λ j. j.synced ≡ length j.batches) }
        ensures blank { IfOk result (λ j. IsTrue (D.Disk.is_clean j.disk) → IsBlank (D.Disk.seen files.db)) }
        ensures alone { IfOk result (λ j. IsTrue (D.Disk.is_clean j.beside) → D.Disk.seen files.log ≡ []) }
        ensures crash { IfOk result (Survives D.Disk.may_leave D.Disk.is_clean) }
        ensures why { IfErr result (λ e. IsNotBegun D.Disk.seen D.Disk.faults D.Disk.is_clean D.Disk.is_mixing files
            e.1 e.0) }
        ensures left { IfErr result (λ e. IsTrue (D.Disk.is_clean e.1.db) →
            LeavesNoBatch key.now head (D.Disk.may_leave files.db) (D.Disk.may_leave e.1.db)) }
    {
        let mut files = files;
        let size = match blank_size(alloc, &mut files) {
            Ok(size) => size,
            Err(fault) => return Err((fault, files)),
        };
        let parts = match prepare(alloc, key, &head) {
            Ok(parts) => parts,
            Err(_) => return Err((JournalFault::Memory, files)),
        };
        let twice = match zeros(alloc, 2 * room_behind()) {
            Ok(twice) => twice,
            Err(_) => return Err((JournalFault::Memory, files)),
        };
        let batch_key = parts.batch_key;
        match lay(&mut files.db, &parts.front, &twice, size) {
            Ok(size) => Ok(Journal {
                files,
                key: *key,
                head,
                batch_key,
                zeros: parts.zeros,
                last: Vec::new(alloc),
                end: parts.front.len(),
                size,
                count: 0,
                waits: false,
                broken: false,
            }),
            Err(fault) => Err((fault, files)),
        }
    }

    /// Opens a journal that a crash may have left: what stands for no batch is blanked. Beside it come the digits of
    /// its batches, one after another.
    ///
    /// # Errors
    ///
    /// The files are handed back. The first that holds of `SecondFile`, `Unopened` and what is wrong with the head or a
    /// batch (`Damaged`), in whose place, and where it would succeed, there may be `Memory`; `Device` wherever a call of
    /// the disk fails. What a crash then leaves stands for the same as the file did.
    pub fn open(
        alloc: Global,
        files: Files<D>,
        key: &[u8; 32],
        head: Head,
    ) -> Result<(Journal<D>, Vec<u8>), (JournalFault, Files<D>)>
        requires beside { IsTrue (D.Disk.is_usable files.log) }
        requires usable { IsTrue (D.Disk.is_usable files.db) }
        requires head { IsHead head }
        ensures key { IfOk result (λ r. r.0.key ≡ key.now) }
        ensures head { IfOk result (λ r. r.0.head ≡ head) }
        ensures whole { IfOk result (λ r. r.0.broken ≡ false) }
        ensures batches { IfOk result (λ r. IsTrue (D.Disk.is_clean r.0.disk) →
            reading key.now head (D.Disk.seen files.db) ≡ Ok r.0.batches) }
        ensures synced { IfOk result (λ r. r.0.synced ≡ length r.0.batches) }
        ensures digits { IfOk result (λ r. IsTrue (D.Disk.is_clean r.0.disk) → r.1.items ≡ concat r.0.batches) }
        ensures alone { IfOk result (λ r. IsTrue (D.Disk.is_clean r.0.beside) → D.Disk.seen files.log ≡ []) }
        ensures crash { IfOk result (λ r. Survives D.Disk.may_leave D.Disk.is_clean r.0) }
        ensures why { IfErr result (λ e. IsRefused D.Disk.seen D.Disk.faults D.Disk.is_clean D.Disk.is_mixing key.now
            head files e.1 e.0) }
        ensures left { IfErr result (λ e. IsTrue (D.Disk.is_clean e.1.db) →
            LeavesTheSame key.now head (D.Disk.seen files.db) (D.Disk.may_leave files.db) (D.Disk.may_leave e.1.db)) }
    {
        let mut files = files;
        let found = match read(alloc, &mut files, key, &head) {
            Ok(found) => found,
            Err(fault) => return Err((fault, files)),
        };
        let parts = match prepare(alloc, key, &head) {
            Ok(parts) => parts,
            Err(_) => return Err((JournalFault::Memory, files)),
        };
        let batch_key = parts.batch_key;
        let end = found.end as usize;
        let size = found.size as usize;
        let behind = match zeros(alloc, size - end) {
            Ok(behind) => behind,
            Err(_) => return Err((JournalFault::Memory, files)),
        };
        match blank(&mut files.db, &behind, end) {
            Ok(()) => Ok((
                Journal {
                    files,
                    key: *key,
                    head,
                    batch_key,
                    zeros: parts.zeros,
                    last: Vec::new(alloc),
                    end,
                    size,
                    count: found.count,
                    waits: false,
                    broken: false,
                },
                found.digits,
            )),
            Err(fault) => Err((fault, files)),
        }
    }

    /// Whether a call of the disk has failed. Then nothing more is written: the file has to be opened anew.
    pub fn is_broken(&self) -> bool
        ensures value { result ≡ self.now.broken }
        ensures crash { Survives D.Disk.may_leave D.Disk.is_clean self.now }
    {
        self.broken
    }

    /// Has memory for a batch of so many digits, so that [`Journal::write`] of one wants none.
    ///
    /// # Errors
    ///
    /// Memory, and then nothing has changed.
    pub fn make_room(&mut self, digits: usize) -> Result<(), AllocError>
        requires { digits ≤ 1000000 }
        ensures ok { OnOk result (41 + digits ≤ self.new.room) }
        ensures same { self.new ≡ record self.old { room = self.new.room } }
        ensures room { self.old.room ≤ self.new.room }
        ensures crash { Survives D.Disk.may_leave D.Disk.is_clean self.new }
    {
        self.last.reserve(41 + digits)
    }

    /// Whether all batches are synced, as [`Journal::write`] asks.
    pub fn is_synced(&self) -> bool
        ensures value { IsTrue result ↔ (self.now.synced ≡ length self.now.batches) }
        ensures crash { Survives D.Disk.may_leave D.Disk.is_clean self.now }
    {
        !self.waits
    }

    /// Writes a batch of digits, 1,000,000 at most, where all before it are synced. A crash may lose it until the next
    /// sync.
    ///
    /// # Errors
    ///
    /// `Full`, and then `Memory`: nothing has changed but the room in memory. `Device`: the journal is broken, and what
    /// a crash leaves, as the next opening, may have the batch or not.
    pub fn write(&mut self, batch: &[u8]) -> Result<(), JournalFault>
        requires synced { self.old.synced ≡ length self.old.batches }
        requires digits { AreDigits batch.now }
        requires few { length batch.now ≤ 1000000 }
        ensures same { IsSame D.Disk.is_clean self.old self.new }
        ensures ok { OnOk result (Records D.Disk.is_clean self.old self.new batch.now) }
        ensures whole { OnOk result (self.new.broken ≡ false) }
        ensures broken { IsTrue self.old.broken → (result ≡ Err fault.Device) × (self.new ≡ self.old) }
        ensures device { self.old.broken ≡ false → result ≡ Err fault.Device →
            IsTrue self.new.broken × Records D.Disk.is_clean self.old self.new batch.now }
        ensures failed { self.old.broken ≡ false → result ≡ Err fault.Device →
            Failed (D.Disk.faults self.old.disk) (D.Disk.faults self.new.disk) (D.Disk.is_mixing self.new.disk) }
        ensures other { IfErr result (λ e. (e ≡ fault.Device) ⊎ (((e ≡ fault.Full) ⊎ (e ≡ fault.Memory))
            × (self.new ≡ record self.old { room = self.new.room }))) }
        ensures room { self.old.room ≤ self.new.room }
        ensures enough { 41 + length batch.now ≤ self.old.room → result ≢ Err fault.Memory }
        ensures full { result ≡ Err fault.Full → IsTrue (D.Disk.is_clean self.old.disk) →
            536870912 < length (D.Disk.seen self.old.disk) + room_behind }
        ensures crash { Survives D.Disk.may_leave D.Disk.is_clean self.new }
    {
        if self.broken {
            return Err(JournalFault::Device);
        }
        if is_full(self.end, self.size, batch.len(), self.zeros.len()) {
            return Err(JournalFault::Full);
        }
        match make_batch(&mut self.last, &self.batch_key, self.count, batch) {
            Ok(()) => {}
            Err(_) => return Err(JournalFault::Memory),
        }
        self.waits = true;
        match place(
            &mut self.files.db,
            &self.last,
            &self.zeros,
            self.end,
            self.size,
        ) {
            Ok(size) => {
                self.size = size;
                Ok(())
            }
            Err(_) => {
                self.broken = true;
                Err(JournalFault::Device)
            }
        }
    }

    /// Has all batches on the disk. Where nothing was written since the last sync it asks nothing of the disk.
    ///
    /// # Errors
    ///
    /// `Device`: the journal is broken.
    pub fn sync(&mut self) -> Result<(), JournalFault>
        ensures same { IsSame D.Disk.is_clean self.old self.new }
        ensures broken { IsTrue self.old.broken → (result ≡ Err fault.Device) × (self.new ≡ self.old) }
        ensures nothing { self.old.broken ≡ false → self.old.synced ≡ length self.old.batches → (result ≡ Ok tt)
            × (self.new ≡ self.old) }
        ensures batches { IsTrue (D.Disk.is_clean self.old.disk) → self.new.batches ≡ self.old.batches }
        ensures room { self.new.room ≡ self.old.room }
        ensures ok { OnOk result ((self.new.synced ≡ length self.new.batches) × (self.new.broken ≡ false)) }
        ensures err { IfErr result (λ e. (e ≡ fault.Device) × IsTrue self.new.broken
            × (self.new.synced ≡ self.old.synced)) }
        ensures failed { self.old.broken ≡ false → OnErr result
            (Failed (D.Disk.faults self.old.disk) (D.Disk.faults self.new.disk) (D.Disk.is_mixing self.new.disk)) }
        ensures crash { Survives D.Disk.may_leave D.Disk.is_clean self.new }
    {
        if self.broken {
            return Err(JournalFault::Device);
        }
        if !self.waits {
            return Ok(());
        }
        match sync_disk(&mut self.files.db) {
            Ok(()) => {
                self.end += self.last.len();
                self.count += 1;
                self.waits = false;
                Ok(())
            }
            Err(_) => {
                self.broken = true;
                Err(JournalFault::Device)
            }
        }
    }
}

/// What the file of a journal stands for. Nothing is written, blanked or grown.
///
/// # Errors
///
/// As [`Journal::open`].
pub fn read<D: Disk>(
    alloc: Global,
    files: &mut Files<D>,
    key: &[u8; 32],
    head: &Head,
) -> Result<Found, JournalFault>
    requires beside { IsTrue (D.Disk.is_usable files.old.log) }
    requires usable { IsTrue (D.Disk.is_usable files.old.db) }
    requires head { IsHead head.now }
    ensures found { IfOk result (λ f. IsTrue (D.Disk.is_clean files.new.db) →
        IsFound key.now head.now (D.Disk.seen files.old.db) f) }
    ensures size { IfOk result (λ f. (f.count ≤ f.end) × (f.end + room_behind ≤ f.size) × (f.size ≤ 536870912)) }
    ensures alone { IfOk result (λ _. IsTrue (D.Disk.is_clean files.new.log) → D.Disk.seen files.old.log ≡ []) }
    ensures why { IfErr result (IsRefused D.Disk.seen D.Disk.faults D.Disk.is_clean D.Disk.is_mixing key.now head.now
        files.old files.new) }
    ensures faults { OnOk result (D.Disk.faults files.new.db ≡ D.Disk.faults files.old.db) }
    ensures seen { D.Disk.seen files.new.db ≡ D.Disk.seen files.old.db }
    ensures clean { IsTrue (D.Disk.is_clean files.new.db) → IsTrue (D.Disk.is_clean files.old.db) }
    ensures usable { IsTrue (D.Disk.is_usable files.new.db) }
    ensures crash { (c : List ℕ) → D.Disk.may_leave files.new.db c → D.Disk.may_leave files.old.db c }
{
    is_empty(&mut files.log)?;
    let bytes = read_all(alloc, &mut files.db)?;
    match read_journal(alloc, key, head, &bytes) {
        Ok(found) => Ok(found),
        Err(fault) => Err(fault),
    }
}
