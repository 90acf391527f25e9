//! The cluster file of a node, of which nothing is taken that is kept for later.

ghost use Rattle.std.specs.Prelude.{◌≡◌, ◌≢◌, IfOk, IfErr, Err};
ghost use Rattle.link_frames.specs.lines.Watching.{watched_inner, watched_tally};
ghost use Rattle.link_frames.specs.lines.Devices.{WentOn, ReaderFailed};
ghost use Rattle.cluster_text.specs.Setups.{IsNodeSetup, IsServerSetup};
ghost use Rattle.cluster_hosts.specs.Givens.{IsGiven, GivenRead};
ghost use Rattle.cluster_hosts.specs.Hosts.{HasHosts};

use crate::fault::GivenFault;
use crate::hosts::{Given, hosts_in};
use crate::reserved::{Reserved, has_reserved_role, reserved_in};
use cluster_text::cluster::{MOST_TEXT_BYTES, Mode, read_cluster};
use cluster_text::cluster_file::fill;
use cluster_text::fault::ClusterFault;
use link_frames::Watched;
use std::alloc::Global;
use std::io::Read;

/// What a cluster file says: the setup of the node, and the hosts of all nodes.
///
/// # Errors
///
/// `Unread` where the reader has failed; else the first of: a member that is kept for later, the fault of the text, a
/// role that is kept for later, hosts that are no list of an address for each node; and `Memory`.
pub fn read_given<R: Read>(alloc: Global, reader: &mut Watched<R>) -> Result<Given, GivenFault>
    ensures read { GivenRead (R.remaining (watched_inner reader.old)) result }
    ensures node { IfOk result (λ given. IsNodeSetup given.setup) }
    ensures server { IfOk result (λ given. IsServerSetup given.setup) }
    ensures hosts { IfOk result HasHosts }
    ensures unread { IfErr result (λ e. e ≡ GivenFault.Unread →
        ReaderFailed (watched_tally reader.old) (watched_tally reader.new)) }
    ensures quiet { result ≢ Err GivenFault.Unread → WentOn (watched_tally reader.old) (watched_tally reader.new) }
{
    let mut buffer = Vec::from_elem(alloc, 0u8, MOST_TEXT_BYTES + 1)?;
    let count = fill(reader, buffer.as_mut_slice())?;
    given_in(alloc, &buffer[..count])
}

/// What a text says, of which nothing is kept for later.
fn given_in(alloc: Global, text: &[u8]) -> Result<Given, GivenFault>
    ensures given { IsGiven text.now result }
    ensures node { IfOk result (λ given. IsNodeSetup given.setup) }
    ensures server { IfOk result (λ given. IsServerSetup given.setup) }
    ensures hosts { IfOk result HasHosts }
{
    match reserved_in(alloc, text) {
        Ok(None) => {}
        Ok(Some(member)) => return Err(GivenFault::Reserved(member)),
        Err(_) => return Err(GivenFault::Memory),
    }
    let setup = match read_cluster(alloc, text, Mode::Serve) {
        Ok(setup) => setup,
        Err(ClusterFault::Memory) => return Err(GivenFault::Memory),
        Err(fault) => return Err(GivenFault::Cluster(fault)),
    };
    if has_reserved_role(setup.config.roles()) {
        return Err(GivenFault::Reserved(Reserved::Roles));
    }
    match hosts_in(alloc, text, setup.config.roles().sizes().n()) {
        Ok(Some(hosts)) => Ok(Given { setup, hosts }),
        Ok(None) => Err(GivenFault::Hosts),
        Err(_) => Err(GivenFault::Memory),
    }
}
