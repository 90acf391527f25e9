//! The file of a journal, and the empty one beside it.

ghost use Rattle.std.specs.Prelude.{◌≡◌, IsTrue, IfOk, IfErr};
ghost use Rattle.sqlite_std_file.specs.File.{file_is_usable};
ghost use Rattle.batch_journal.specs.declared.fault.JournalFault.TheVariants.{Memory};
ghost use Rattle.node_journal.specs.Refusals.{IsNotThere, IsNotOpened};
ghost use Rattle.node_journal.specs.declared.fault.KeptFault.TheVariants.{Journal};

use crate::fault::KeptFault;
use batch_journal::JournalFault;
use sqlite_disk::{Files, Start};
use sqlite_std_file::{FileFrom, OpenError, open};
use std::fs::OpenOptions;
use std::io::ErrorKind;
use std::os::unix::fs::OpenOptionsExt;
use std::{fs, io};

/// The files of a journal that is there.
///
/// # Errors
///
/// `Absent`, `InUse`, `Unopened`, `Memory`.
pub fn open_journal<S: Start>(
    rt: &HostRuntime,
    path: &str,
    start: S,
) -> Result<Files<FileFrom<S>>, KeptFault>
    ensures beside { IfOk result (λ files. IsTrue (file_is_usable S.Start files.log)) }
    ensures usable { IfOk result (λ files. IsTrue (file_is_usable S.Start files.db)) }
    ensures why { IfErr result IsNotThere }
{
    match fs::exists(rt, path) {
        Ok(true) => opened(rt, path, start),
        Ok(false) => Err(KeptFault::Absent),
        Err(error) => Err(fault_of(&error)),
    }
}

/// The files of a journal that is to begin. One that is absent is made, for its owner alone. Its folder, and the folder
/// that this one is in, are synced, so that no loss of power takes the journal's path.
///
/// # Errors
///
/// As [`open_journal`], save `Absent`.
pub fn make_journal<S: Start>(
    rt: &HostRuntime,
    path: &str,
    start: S,
) -> Result<Files<FileFrom<S>>, KeptFault>
    ensures beside { IfOk result (λ files. IsTrue (file_is_usable S.Start files.log)) }
    ensures usable { IfOk result (λ files. IsTrue (file_is_usable S.Start files.db)) }
    ensures why { IfErr result IsNotOpened }
{
    let mut options = OpenOptions::new();
    options.write(true).create_new(true).mode(0o600);
    match options.open(rt, path) {
        Ok(_made) => made(rt, path, start),
        Err(error) => {
            if error.kind() == ErrorKind::AlreadyExists {
                made(rt, path, start)
            } else {
                Err(fault_of(&error))
            }
        }
    }
}

/// The files of a journal, to be looked at, and whether the one beside it was made for that.
///
/// # Errors
///
/// As [`open_journal`].
pub fn open_to_look<S: Start>(
    rt: &HostRuntime,
    path: &str,
    start: S,
) -> Result<(Files<FileFrom<S>>, bool), KeptFault>
    ensures beside { IfOk result (λ r. IsTrue (file_is_usable S.Start r.0.log)) }
    ensures usable { IfOk result (λ r. IsTrue (file_is_usable S.Start r.0.db)) }
    ensures why { IfErr result IsNotThere }
{
    let beside = beside(rt, path)?;
    let was_there = match fs::exists(rt, beside.as_str()) {
        Ok(there) => there,
        Err(error) => return Err(fault_of(&error)),
    };
    Ok((open_journal(rt, path, start)?, !was_there))
}

/// Removes the empty file beside a journal, whose lock is held.
pub fn remove_beside(rt: &HostRuntime, path: &str) {
    if let Ok(beside) = beside(rt, path) {
        let _ = fs::remove_file(rt, beside.as_str());
    }
}

/// The path of the file beside a journal.
fn beside(rt: &HostRuntime, path: &str) -> Result<String, KeptFault>
    ensures { IfErr result (λ fault. fault ≡ Journal Memory) }
{
    Ok(format!(in rt.alloc(); "{path}-wal")?)
}

/// The files of a journal that is there, once the folder above theirs is synced.
fn made<S: Start>(rt: &HostRuntime, path: &str, start: S) -> Result<Files<FileFrom<S>>, KeptFault>
    ensures beside { IfOk result (λ files. IsTrue (file_is_usable S.Start files.log)) }
    ensures usable { IfOk result (λ files. IsTrue (file_is_usable S.Start files.db)) }
    ensures why { IfErr result IsNotOpened }
{
    let files = opened(rt, path, start)?;
    sync_above(rt, path)?;
    Ok(files)
}

/// Syncs the folder that a journal's folder is in, where there is one that this process may open. The journal's own
/// folder is synced whenever its files are opened.
fn sync_above(rt: &HostRuntime, path: &str) -> Result<(), KeptFault>
    ensures why { IfErr result IsNotOpened }
{
    match folder_above(rt, path) {
        Ok(Some(folder)) => match folder.sync_all() {
            Ok(()) => Ok(()),
            Err(error) => Err(fault_of(&error)),
        },
        Ok(None) => Ok(()),
        Err(error) if error.kind() == ErrorKind::PermissionDenied => Ok(()),
        Err(error) => Err(fault_of(&error)),
    }
}

/// The folder that a file's folder is in; none where that is the root.
fn folder_above(rt: &HostRuntime, path: &str) -> io::Result<Option<fs::File>> {
    let mut folder = fs::canonicalize(rt, path)?;
    folder.pop();
    if folder.pop() {
        Ok(Some(fs::File::open(rt, folder.as_str())?))
    } else {
        Ok(None)
    }
}

fn opened<S: Start>(rt: &HostRuntime, path: &str, start: S) -> Result<Files<FileFrom<S>>, KeptFault>
    ensures beside { IfOk result (λ files. IsTrue (file_is_usable S.Start files.log)) }
    ensures usable { IfOk result (λ files. IsTrue (file_is_usable S.Start files.db)) }
    ensures why { IfErr result IsNotOpened }
{
    match open(rt, path, start) {
        Ok(files) => Ok(files),
        Err(OpenError::Busy) => Err(KeptFault::InUse),
        Err(OpenError::OutOfMemory) => Err(KeptFault::Journal(JournalFault::Memory)),
        Err(OpenError::Io(error)) => Err(fault_of(&error)),
        Err(OpenError::HotJournal) => Err(KeptFault::Unopened),
    }
}

fn fault_of(error: &io::Error) -> KeptFault
    ensures { IsNotOpened result }
{
    if error.kind() == ErrorKind::OutOfMemory {
        KeptFault::Journal(JournalFault::Memory)
    } else {
        KeptFault::Unopened
    }
}
