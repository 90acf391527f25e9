//! The files of a journal, in a folder of their own.

use row_words::{RowFault, text_of};
use sqlite_std_file::OpenError;
use std::alloc::Global;
use std::{fs, io};

const FOLDER: &str = "row_journal";

/// The journal's file.
pub const PATH: &str = "row_journal/journal";

/// The file that a journal has beside it.
const BESIDE: &str = "row_journal/journal-wal";

/// Memory was wanting, or something else was.
pub fn fault_of(error: io::Error) -> RowFault {
    if error.kind() == io::ErrorKind::OutOfMemory {
        RowFault::Memory
    } else {
        RowFault::BadRow
    }
}

/// Makes the folder anew.
pub fn clear(rt: &HostRuntime) -> Result<(), RowFault> {
    match fs::remove_dir_all(rt, FOLDER) {
        Err(error) if error.kind() != io::ErrorKind::NotFound => return Err(fault_of(error)),
        _ => {}
    }
    fs::create_dir(rt, FOLDER).map_err(fault_of)
}

/// What is answered where the files are not opened: `in use` where another handle has them.
pub fn unopened(alloc: Global, error: OpenError) -> Result<String, RowFault> {
    match error {
        OpenError::Busy => text_of(alloc, &"in use"),
        OpenError::OutOfMemory => Err(RowFault::Memory),
        OpenError::Io(error) => Err(fault_of(error)),
        OpenError::HotJournal => Err(RowFault::BadRow),
    }
}

/// All bytes of the journal's file.
pub fn bytes(rt: &HostRuntime) -> Result<Vec<u8>, RowFault> {
    fs::read(rt, PATH).map_err(fault_of)
}

/// Has the journal's file hold these bytes.
pub fn write(rt: &HostRuntime, bytes: &[u8]) -> Result<(), RowFault> {
    fs::write(rt, PATH, bytes).map_err(fault_of)
}

/// Has the file beside it hold these bytes.
pub fn write_beside(rt: &HostRuntime, bytes: &[u8]) -> Result<(), RowFault> {
    fs::write(rt, BESIDE, bytes).map_err(fault_of)
}
