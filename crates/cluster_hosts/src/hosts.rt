//! Where the nodes of a cluster take frames.

ghost use Rattle.std.specs.Prelude.{◌≡◌, ◌<◌, List, map, length, option_map, slice_get, MatchOption, IfOk};
ghost use Rattle.std.specs.List.{All, AllZip};
ghost use Rattle.std.specs.declared.net.ip_addr.IpAddr.{IpAddr};
ghost use Rattle.serde_json.specs.View.{view};
ghost use Rattle.cluster_text.specs.Setups.{IsNodeSetup, IsServerSetup};
ghost use Rattle.cluster_hosts.specs.Hosts.{IsHost, IsThisMachine, AreHosts, AreHostsIn, HasHosts, TakesFramesAt};
ghost use Rattle.cluster_hosts.specs.Hosts.{AreAddresses};

use client_lines::read_json;
use cluster_text::cluster::Setup;
use cluster_text::list_of;
use role_commands::Items;
use serde_json::Value;
use std::alloc::{AllocError, Global};
use std::net::{IpAddr, Ipv4Addr, SocketAddr};

/// What the program is given: the setup of its node, and where the nodes of the cluster are.
#[derive(Drop, Debug)]
pub struct Given {
    pub setup: Setup,
    /// The address of each node's host, by its index.
    pub hosts: Items<IpAddr>,
}

impl Given {
    /// Where the node itself takes frames.
    pub fn own_address(&self) -> SocketAddr
        requires me { IsNodeSetup self.now.setup }
        requires peers { IsServerSetup self.now.setup }
        requires hosts { HasHosts self.now }
        ensures { TakesFramesAt self.now self.now.setup.me result }
    {
        self.address(self.setup.me.index())
    }

    /// Where each node takes frames, by its index.
    ///
    /// # Errors
    ///
    /// Only for want of memory.
    pub fn addresses(&self, alloc: Global) -> Result<Vec<SocketAddr>, AllocError>
        requires peers { IsServerSetup self.now.setup }
        requires hosts { HasHosts self.now }
        ensures { IfOk result (λ made. AreAddresses self.now made.items) }
    {
        let mut made = Vec::new(alloc);
        for index in 0..self.setup.config.roles().sizes().n() {
            made.push(self.address(index))?;
        }
        Ok(made)
    }

    fn address(&self, index: u8) -> SocketAddr
        requires node { index < self.now.setup.config.roles.sizes.nodes }
        requires peers { IsServerSetup self.now.setup }
        requires hosts { HasHosts self.now }
        ensures { TakesFramesAt self.now index result }
    {
        let index = usize::from(index);
        let host = self.hosts.as_slice()[index];
        SocketAddr::new(host, self.setup.nodes.as_slice()[index])
    }
}

/// The hosts of so many nodes that a text says, all this machine where it has no member `hosts`; none where that member
/// is no list of as many addresses.
///
/// # Errors
///
/// Only for want of memory.
#[tactic(auto, unfolding(crate::specs::Hosts::hosts_member))]
pub fn hosts_in(alloc: Global, bytes: &[u8], nodes: u8) -> Result<Option<Items<IpAddr>>, AllocError>
    ensures { IfOk result (λ found. MatchOption found
        ((hosts : List IpAddr) → ¬ (AreHostsIn bytes.now nodes hosts)) (AreHostsIn bytes.now nodes)) }
{
    let text = read_json(alloc, bytes)?;
    let member = match &text {
        Some(text) => text.get("hosts"),
        None => None,
    };
    match hosts_of(alloc, member, nodes)? {
        Some(hosts) => Ok(Some(Items::new(hosts))),
        None => Ok(None),
    }
}

/// The hosts that the member says.
fn hosts_of(
    alloc: Global,
    member: Option<&Value>,
    nodes: u8,
) -> Result<Option<Vec<IpAddr>>, AllocError>
    ensures { IfOk result (λ found. MatchOption found
        ((hosts : List IpAddr) → ¬ (AreHosts (option_map (λ v. view v.now) member.entry) nodes hosts))
        (λ hosts. AreHosts (option_map (λ v. view v.now) member.entry) nodes hosts.items)) }
{
    let Some(value) = member else {
        return Ok(Some(this_machine(alloc, nodes)?));
    };
    match list_of(value) {
        Some(items) if items.len() == usize::from(nodes) => listed(alloc, items),
        _ => Ok(None),
    }
}

/// This machine's own address, so many times.
fn this_machine(alloc: Global, nodes: u8) -> Result<Vec<IpAddr>, AllocError>
    ensures count { IfOk result (λ hosts. length hosts.items ≡ nodes) }
    ensures local { IfOk result (λ hosts. All IsThisMachine hosts.items) }
{
    let local = IpAddr::V4(Ipv4Addr::new(127, 0, 0, 1));
    let mut hosts = Vec::new(alloc);
    for node in 0..nodes {
        hosts.push(local)?;
    }
    Ok(hosts)
}

/// The addresses of which the items are the texts, if each is one.
fn listed(alloc: Global, items: &[Value]) -> Result<Option<Vec<IpAddr>>, AllocError>
    ensures { IfOk result (λ found. MatchOption found
        ((hosts : List IpAddr) → ¬ (AllZip IsHost (map view items.now) hosts))
        (λ hosts. AllZip IsHost (map view items.now) hosts.items)) }
{
    let mut hosts = Vec::new(alloc);
    for item in items {
        match host_of(item) {
            Some(host) => hosts.push(host)?,
            None => return Ok(None),
        }
    }
    Ok(Some(hosts))
}

/// The address of which the value is the text.
fn host_of(value: &Value) -> Option<IpAddr>
    ensures { MatchOption result ((host : IpAddr) → ¬ (IsHost (view value.now) host)) (IsHost (view value.now)) }
{
    IpAddr::parse_ascii(value.as_str()?.as_bytes()).ok()
}
