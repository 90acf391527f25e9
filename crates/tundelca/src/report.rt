//! What is said of a cluster file.

ghost use Rattle.cluster_text.specs.Setups.{IsServerSetup};
ghost use Rattle.cluster_hosts.specs.Hosts.{HasHosts};

use cluster_hosts::{Given, of_common, of_key};
use cluster_text::cluster::Setup;
use node_journal::{Beyond, Sight};
use role_commands::RoleTable;
use std::alloc::{AllocError, Global};
use std::fmt::Write;
use std::net::SocketAddr;

/// What a cluster file says, in lines: the cluster and the node, where the nodes take frames, the roles with their
/// owners, and the fingerprints of what the texts of all nodes have in common and of each key. Nothing in it is secret.
///
/// # Errors
///
/// Only for want of memory.
pub fn report_of(alloc: Global, given: &Given) -> Result<String, AllocError>
    requires peers { IsServerSetup given.now.setup }
    requires hosts { HasHosts given.now }
{
    let mut text = String::new(alloc);
    push_cluster(&mut text, &given.setup)?;
    push_addresses(&mut text, &given.addresses(alloc)?)?;
    push_roles(&mut text, given.setup.config.roles())?;
    push_fingerprints(alloc, &mut text, &given.setup)?;
    Ok(text)
}

/// The cluster and the node.
fn push_cluster(text: &mut String, setup: &Setup) -> Result<(), AllocError> {
    let sizes = setup.config.roles().sizes();
    let (cluster, me) = (setup.config.cluster(), setup.me.index());
    writeln!(text, "cluster {cluster}")?;
    writeln!(text, "nodes {}, of which {} may lie", sizes.n(), sizes.f())?;
    writeln!(text, "this node {me}, clients at port {}", setup.client)
}

/// Where the nodes take frames.
fn push_addresses(text: &mut String, addresses: &[SocketAddr]) -> Result<(), AllocError> {
    for (node, address) in addresses.iter().enumerate() {
        writeln!(text, "node {node} at {address}")?;
    }
    Ok(())
}

/// The fingerprints of what all nodes have in common, and of each key.
fn push_fingerprints(alloc: Global, text: &mut String, setup: &Setup) -> Result<(), AllocError> {
    let common = of_common(alloc, &setup.config)?;
    writeln!(text, "fingerprint of cluster, nodes and roles: {common}")?;
    for (other, key) in setup.keys.as_slice().iter().enumerate() {
        let print = of_key(key);
        writeln!(text, "fingerprint of the key with node {other}: {print}")?;
    }
    Ok(())
}

/// The roles with their owners, the lowest role first.
fn push_roles(text: &mut String, roles: &RoleTable) -> Result<(), AllocError> {
    for role in 0..65_536u32 {
        if let Some(owner) = roles.owner(role as u16) {
            writeln!(text, "role {role} of node {}", owner.index())?;
        }
    }
    Ok(())
}

/// What a journal is, in a line; and in another one an owner of whose stream it has more than its share, if there is
/// one.
///
/// # Errors
///
/// Only for want of memory.
pub fn sight_text(alloc: Global, sight: &Sight) -> Result<String, AllocError> {
    let Sight {
        events,
        batches,
        used,
        size,
        is_torn,
        beyond,
    } = *sight;
    let end = if is_torn { "torn" } else { "whole" };
    let mut text = format!(in alloc;
        "journal of {events} events in {batches} batches, {used} of {size} bytes, its end {end}\n"
    )?;
    if let Some(beyond) = beyond {
        push_beyond(&mut text, &beyond)?;
    }
    Ok(text)
}

/// An owner of whose stream a journal has more than its share.
fn push_beyond(text: &mut String, beyond: &Beyond) -> Result<(), AllocError> {
    let Beyond {
        owner,
        reach,
        share,
    } = *beyond;
    writeln!(
        text,
        "beyond its share: node {owner}, {reach} of {share} places"
    )
}
