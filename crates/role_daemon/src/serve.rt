//! The node over TCP: frames of its peers, and lines of its clients, on this machine's own address.

ghost use Rattle.std.specs.Prelude.{◌≡◌, length, IfOk};
ghost use Rattle.cluster_text.specs.Linked.{ring_of};
ghost use Rattle.cluster_text.specs.Setups.{IsNodeSetup, IsServerSetup};

use crate::cluster::Setup;
use crate::fault::ServeFault;
use node_lock::SharedNode;
use node_server::{ClusterKeys, Limits, SEATS, Site, listen};
use role_node::Node;
use std::alloc::{AllocError, Global};
use std::marker::Brand;
use std::net::{Ipv4Addr, Net, SocketAddr, SocketAddrV4, TcpListener, TcpStream};
use std::sync::Wait;
use std::sync::ledger::{Blank, Ledger};
use std::thread::Threads;
use std::time::{Clock, Duration};

/// The most connections of peers.
const MOST_PEERS: u8 = 128;

/// The milliseconds after which a client that sends nothing is closed.
const IDLE: u64 = 600_000;

/// Serves the node of a setup, on this machine's own address, until a client stops it.
///
/// # Errors
///
/// `Device` where a listener could not be made or has failed, and `Memory`.
pub fn serve<R>(rt: &R, alloc: Global, setup: Setup) -> Result<(), ServeFault>
where
    R: Net<Listener = TcpListener, Stream = TcpStream> + Threads + Wait + Clock + Sync,
    requires me { IsNodeSetup setup }
    requires peers { IsServerSetup setup }
{
    let blank = Blank::new(u64::from(SEATS));
    serve_at::<Brand, R>(rt, alloc, blank, setup)
}

/// The same at a ledger with one part for each seat.
fn serve_at<L: Ledger + Send + Sync, R>(
    rt: &R,
    alloc: Global,
    blank: Blank,
    setup: Setup,
) -> Result<(), ServeFault>
where
    R: Net<Listener = TcpListener, Stream = TcpStream> + Threads + Wait + Clock + Sync,
    requires name { blank.name ≡ L.name }
    requires parts { (blank.parts ≡ L.parts) × (SEATS ≡ L.parts) }
    requires me { IsNodeSetup setup }
    requires peers { IsServerSetup setup }
{
    let site = site_of(rt, alloc, &setup)?;
    let keys = keys_of(alloc, &setup)?;
    let node = Node::new(alloc, setup.config, setup.me)?;
    let (shared, seats) = SharedNode::<L>::new(alloc, blank, node, SEATS)?;
    let SharedNode { node } = shared;
    node_server::serve(rt, alloc, node.into_inner(), seats, keys, site)?;
    Ok(())
}

/// Where the node of a setup is served.
fn site_of<R>(rt: &R, alloc: Global, setup: &Setup) -> Result<Site, ServeFault>
where
    R: Net<Listener = TcpListener, Stream = TcpStream>,
    requires me { IsNodeSetup setup.now }
    requires peers { IsServerSetup setup.now }
{
    let idle = Duration::from_millis(IDLE);
    let ports = setup.nodes.as_slice();
    let peers = listen(rt, local(ports[usize::from(setup.me.index())]))?;
    let clients = listen(rt, local(setup.client))?;
    Ok(Site {
        peers,
        port: Some(clients),
        socket: None,
        addresses: addresses(alloc, ports)?,
        limits: Limits::within(setup.config.roles().sizes().n(), MOST_PEERS),
        idle,
        operators: false,
        shares: None,
    })
}

/// The addresses of ports on this machine.
fn addresses(alloc: Global, ports: &[u16]) -> Result<Vec<SocketAddr>, AllocError> {
    let mut made = Vec::with_capacity(alloc, ports.len())?;
    for port in ports {
        made.push(local(*port))?;
    }
    Ok(made)
}

/// The address of a port on this machine.
fn local(port: u16) -> SocketAddr {
    SocketAddr::V4(SocketAddrV4::new(Ipv4Addr::LOCALHOST, port))
}

/// The keys of the node of a setup, in its cluster.
///
/// # Errors
///
/// Only for want of memory.
fn keys_of(alloc: Global, setup: &Setup) -> Result<ClusterKeys, AllocError>
    requires me { IsNodeSetup setup.now }
    requires peers { IsServerSetup setup.now }
    ensures keys { IfOk result (λ made. made.keys ≡ ring_of setup.now) }
    ensures cluster { IfOk result (λ made. made.cluster ≡ setup.now.config.cluster) }
{
    let keys = setup.pair_keys(alloc)?;
    let sizes = setup.config.roles().sizes();
    Ok(ClusterKeys::new(keys, sizes, setup.config.cluster(), setup.me))
}
