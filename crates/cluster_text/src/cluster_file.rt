//! The cluster file: what a serving node is told at its start.

ghost use Rattle.std.specs.Prelude.{◌≡◌, ◌≢◌, IfOk, IfErr, OnOk, OnErr, Ok, Err};
ghost use Rattle.link_frames.specs.lines.Watching.{watched_inner, watched_tally};
ghost use Rattle.link_frames.specs.lines.Devices.{WentOn, ReaderFailed};
ghost use Rattle.cluster_text.specs.Files.{SetupRead, RefusesSetup, Filled};
ghost use Rattle.cluster_text.specs.Setups.{setup_due, IsNodeSetup, IsServerSetup};

use crate::cluster::{MOST_TEXT_BYTES, Mode, Setup, read_cluster};
use crate::fault::{ClusterFault, FileFault};
use link_frames::{DeviceFault, Watched, read_patiently};
use std::alloc::Global;
use std::io::Read;

/// The setup that a cluster file says. A text that is too long is read as far as shows it.
///
/// # Errors
///
/// `Unread` where the reader has failed, `Cluster` where the text sets up no server, and `Memory`.
pub fn read_setup<R: Read>(alloc: Global, reader: &mut Watched<R>) -> Result<Setup, FileFault>
    ensures read { SetupRead (R.remaining (watched_inner reader.old)) result }
    ensures node { IfOk result IsNodeSetup }
    ensures server { IfOk result IsServerSetup }
    ensures unread { IfErr result (λ e. e ≡ FileFault.Unread →
        ReaderFailed (watched_tally reader.old) (watched_tally reader.new)) }
    ensures quiet { result ≢ Err FileFault.Unread → WentOn (watched_tally reader.old) (watched_tally reader.new) }
{
    let mut buffer = Vec::from_elem(alloc, 0u8, MOST_TEXT_BYTES + 1)?;
    let count = fill(reader, buffer.as_mut_slice())?;
    setup_of(alloc, &buffer[..count])
}

/// The setup that a text says.
fn setup_of(alloc: Global, text: &[u8]) -> Result<Setup, FileFault>
    ensures ok { IfOk result (λ setup. setup_due Mode.Serve text.now ≡ Ok setup) }
    ensures err { IfErr result (RefusesSetup text.now) }
    ensures node { IfOk result IsNodeSetup }
    ensures server { IfOk result IsServerSetup }
{
    match read_cluster(alloc, text, Mode::Serve) {
        Ok(setup) => Ok(setup),
        Err(ClusterFault::Memory) => Err(FileFault::Memory),
        Err(fault) => Err(FileFault::Cluster(fault)),
    }
}

/// Reads until the buffer is full or the reader is at its end. How many bytes were read.
///
/// # Errors
///
/// The reader has failed.
pub fn fill<R: Read>(reader: &mut Watched<R>, buffer: &mut [u8]) -> Result<usize, DeviceFault>
    ensures filled { IfOk result (Filled (R.remaining (watched_inner reader.old))
        (R.remaining (watched_inner reader.new)) buffer.new) }
    ensures ok { OnOk result (WentOn (watched_tally reader.old) (watched_tally reader.new)) }
    ensures err { OnErr result (ReaderFailed (watched_tally reader.old) (watched_tally reader.new)) }
{
    let mut have = 0;
    while have < buffer.len() {
        let count = read_patiently(reader, &mut buffer[have..])?;
        if count == 0 {
            return Ok(have);
        }
        have += count;
    }
    Ok(have)
}
