//! The node that is served: frames of its peers at its host, and lines of its clients at this machine's own address, at
//! a socket, or both.

ghost use Rattle.std.specs.Prelude.{◌≡◌, IsTrue, IfOk, Some};
ghost use Rattle.cluster_text.specs.Setups.{IsNodeSetup, IsServerSetup};
ghost use Rattle.cluster_hosts.specs.Hosts.{HasHosts, AreAddresses};
ghost use Rattle.owner_shares.specs.Shares.{shares_of};

use crate::fault::Fault;
use cluster_hosts::Given;
use node_journal::{keys_of, restored};
use node_lock::SharedNode;
use node_server::{Limits, SEATS, Site, listen};
use owner_shares::Shares;
use role_node::Node;
use sqlite_disk::{Disk, Files};
use std::alloc::Global;
use std::marker::Brand;
use std::net::{Ipv4Addr, Net, SocketAddr, SocketAddrV4, TcpListener, TcpStream};
use std::os::unix::net::UnixListener;
use std::sync::Wait;
use std::sync::ledger::{Blank, Ledger};
use std::thread::Threads;
use std::time::{Clock, Duration};

/// The milliseconds after which a client that sends nothing is closed.
const IDLE: u64 = 600_000;

/// The listeners of a node.
#[derive(Drop)]
pub struct Doors {
    /// Takes the frames of peers.
    pub peers: TcpListener,
    /// Takes the lines of clients at the port, where that is open.
    pub port: Option<TcpListener>,
    /// Takes those at the socket, where there is one.
    pub socket: Option<UnixListener>,
}

/// The listeners of the node that is given, without a socket: for its peers, and for clients where its port is open to
/// them.
///
/// # Errors
///
/// `Device` where one could not be made, and `Memory`.
pub fn open_ports<R>(rt: &R, given: &Given, has_port: bool) -> Result<Doors, Fault>
where
    R: Net<Listener = TcpListener, Stream = TcpStream>,
    requires me { IsNodeSetup given.now.setup }
    requires peers { IsServerSetup given.now.setup }
    requires hosts { HasHosts given.now }
{
    let clients = SocketAddr::V4(SocketAddrV4::new(Ipv4Addr::LOCALHOST, given.setup.client));
    Ok(Doors {
        peers: listen(rt, given.own_address())?,
        port: if has_port {
            Some(listen(rt, clients)?)
        } else {
            None
        },
        socket: None,
    })
}

/// Serves the node that is given, which keeps all in memory, until a client stops it.
///
/// # Errors
///
/// `Device` where a listener has failed, and `Memory`.
pub fn serve_in_memory<R>(rt: &R, alloc: Global, given: Given, doors: Doors) -> Result<(), Fault>
where
    R: Net<Listener = TcpListener, Stream = TcpStream> + Threads + Wait + Clock + Sync,
    requires me { IsNodeSetup given.setup }
    requires peers { IsServerSetup given.setup }
    requires hosts { HasHosts given }
{
    serve_at::<Brand, R>(rt, alloc, Blank::new(u64::from(SEATS)), given, doors)
}

/// The same at a ledger with one part for each seat.
fn serve_at<L: Ledger + Send + Sync, R>(
    rt: &R,
    alloc: Global,
    blank: Blank,
    given: Given,
    doors: Doors,
) -> Result<(), Fault>
where
    R: Net<Listener = TcpListener, Stream = TcpStream> + Threads + Wait + Clock + Sync,
    requires name { blank.name ≡ L.name }
    requires parts { (blank.parts ≡ L.parts) × (SEATS ≡ L.parts) }
    requires me { IsNodeSetup given.setup }
    requires peers { IsServerSetup given.setup }
    requires hosts { HasHosts given }
{
    let site = site_of(alloc, &given, doors)?;
    let Given { setup, .. } = given;
    let keys = keys_of(alloc, &setup)?;
    let node = Node::new(alloc, setup.config, setup.me)?;
    let (shared, seats) = SharedNode::<L>::new(alloc, blank, node, SEATS)?;
    let SharedNode { node } = shared;
    node_server::serve(rt, alloc, node.into_inner(), seats, keys, site)?;
    Ok(())
}

/// Serves the node that is given, which keeps all in its journal, until a client stops it. Nobody is answered before
/// the journal is opened.
///
/// # Errors
///
/// Why the journal is not opened; `Device` where a listener or a call of the disk has failed, and `Memory`.
pub fn serve_kept<D: Disk + Drop + Send, R>(
    rt: &R,
    alloc: Global,
    given: Given,
    files: Files<D>,
    doors: Doors,
) -> Result<(), Fault>
where
    R: Net<Listener = TcpListener, Stream = TcpStream> + Threads + Wait + Clock + Sync,
    requires me { IsNodeSetup given.setup }
    requires peers { IsServerSetup given.setup }
    requires hosts { HasHosts given }
    requires beside { IsTrue (D.Disk.is_usable files.log) }
    requires usable { IsTrue (D.Disk.is_usable files.db) }
{
    serve_kept_at::<Brand, D, R>(rt, alloc, Blank::new(u64::from(SEATS)), given, files, doors)
}

/// The same at a ledger with one part for each seat.
fn serve_kept_at<L: Ledger + Send + Sync, D: Disk + Drop + Send, R>(
    rt: &R,
    alloc: Global,
    blank: Blank,
    given: Given,
    files: Files<D>,
    doors: Doors,
) -> Result<(), Fault>
where
    R: Net<Listener = TcpListener, Stream = TcpStream> + Threads + Wait + Clock + Sync,
    requires name { blank.name ≡ L.name }
    requires parts { (blank.parts ≡ L.parts) × (SEATS ≡ L.parts) }
    requires me { IsNodeSetup given.setup }
    requires peers { IsServerSetup given.setup }
    requires hosts { HasHosts given }
    requires beside { IsTrue (D.Disk.is_usable files.log) }
    requires usable { IsTrue (D.Disk.is_usable files.db) }
{
    let site = site_of(alloc, &given, doors)?;
    let Given { setup, .. } = given;
    let keys = keys_of(alloc, &setup)?;
    let own = setup.own_key();
    let (config, me) = (setup.config, setup.me);
    let (node, seats) = restored::<L, D>(alloc, blank, SEATS, config, me, &own, files)?;
    node_server::serve(rt, alloc, node, seats, keys, site)?;
    Ok(())
}

/// Where a node is served, with the shares of its table.
///
/// # Errors
///
/// Only for want of memory.
fn site_of(alloc: Global, given: &Given, doors: Doors) -> Result<Site, Fault>
    requires peers { IsServerSetup given.now.setup }
    requires hosts { HasHosts given.now }
    ensures addresses { IfOk result (λ site. AreAddresses given.now site.addresses.items) }
    ensures shares { IfOk result (λ site. site.shares ≡ Some (shares_of given.now.setup.config.roles)) }
{
    Ok(Site {
        peers: doors.peers,
        port: doors.port,
        socket: doors.socket,
        addresses: given.addresses(alloc)?,
        limits: Limits::new(),
        idle: Duration::from_millis(IDLE),
        operators: true,
        shares: Some(Shares::of(given.setup.config.roles())),
    })
}
