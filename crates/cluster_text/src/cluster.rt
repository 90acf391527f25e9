//! The cluster text: what a node is told at its start.

ghost use Rattle.std.specs.Prelude.{◌≡◌, ◌<◌, ◌≤◌, ◌==◌, [], length, option_and_then, IsOk, IfOk, IfErr, OnOk, Ok};
ghost use Rattle.std.specs.List.{filter_map, cons_option, list_any};
ghost use Rattle.serde_json.specs.View.{view};
ghost use Rattle.role_commands.specs.Tables.{no_roles};
ghost use Rattle.cluster_text.specs.Linked.{ring_of, own_key};
ghost use Rattle.cluster_text.specs.Results.{IsDueOrMemory, IsDueElseMemory};
ghost use Rattle.cluster_text.specs.Shapes as shapes;
ghost use Rattle.cluster_text.specs.Setups as setups;
ghost use Rattle.cluster_text.specs.Setups.{setup_due, most_text_bytes, IsNodeSetup, IsServerSetup, IsSetupIn};
ghost use Rattle.cluster_text.specs.Setups.{AreCounted};

use crate::fault::ClusterFault;
use crate::shape::{Shape, key_of, pair_of, port_of, shape_of};
use client_lines::{Member, read_json};
use link_frames::{KeyFault, PairKeys};
use quorum_sizes::{NodeName, Sizes};
use role_commands::{Items, RoleTable, TableFault};
use role_node::{Config, MOST_EVENTS};
use serde_json::Value;
use std::alloc::{AllocError, Global};

/// The most bytes of a cluster text.
pub const MOST_TEXT_BYTES: usize = 65_536;

/// The most roles of a cluster.
const MOST_ROLES: usize = 1024;

/// Which members a cluster text has.
#[derive(Clone, Copy, Debug, PartialEq, Eq)]
pub enum Mode {
    /// One node, which has no links.
    Pipe,
    /// A node with links to others.
    Serve,
}

/// What a node is told at its start.
#[derive(Drop, Debug)]
pub struct Setup {
    /// The number of the cluster, its roles, and how many events the node may record.
    pub config: Config,
    /// The node's own name.
    pub me: NodeName,
    /// The key that it shares with each node; none in a pipe.
    pub keys: Items<[u8; 32]>,
    /// The port of each node; none in a pipe.
    pub nodes: Items<u16>,
    /// The port for clients; 0 in a pipe.
    pub client: u16,
}

impl Setup {
    /// The keys that a server's node shares with each node.
    ///
    /// # Errors
    ///
    /// Only for want of memory.
    pub fn pair_keys(&self, alloc: Global) -> Result<PairKeys, AllocError>
        requires me { IsNodeSetup self.now }
        requires peers { IsServerSetup self.now }
        ensures { IfOk result (λ keys. keys ≡ ring_of self.now) }
    {
        let sizes = self.config.roles().sizes();
        match PairKeys::new(alloc, &sizes, self.me, self.keys.as_slice()) {
            Ok(keys) => Ok(keys),
            Err(KeyFault::Memory) => Err(AllocError),
            Err(KeyFault::WrongCount) => unreachable!(),
        }
    }

    /// The key of a server's node with itself.
    pub fn own_key(&self) -> [u8; 32]
        requires me { IsNodeSetup self.now }
        requires peers { IsServerSetup self.now }
        ensures { result ≡ own_key self.now }
    {
        self.keys.as_slice()[usize::from(self.me.index())]
    }
}

/// The setup that a cluster text says.
///
/// # Errors
///
/// The first fault that holds: of the text, of a member in the order of the members, of the sizes, of the node's own
/// name, of a role in the order of the roles, and of the numbers of keys and ports. `Memory` where there was none to
/// read the text, of at most [`MOST_TEXT_BYTES`], and else only where no fault holds.
#[tactic(auto, unfolding(crate::specs::Setups::setup_due))]
pub fn read_cluster(alloc: Global, bytes: &[u8], mode: Mode) -> Result<Setup, ClusterFault>
    ensures due { IsDueOrMemory (setup_due mode bytes.now) result }
    ensures memory { IfErr result (λ e. e ≡ ClusterFault.Memory → length bytes.now ≤ most_text_bytes) }
    ensures node { IfOk result IsNodeSetup }
    ensures server { IfOk result (IsSetupIn mode) }
{
    if bytes.len() > MOST_TEXT_BYTES {
        return Err(ClusterFault::NotJson);
    }
    match read_json(alloc, bytes)? {
        Some(text) => setup_of_value(alloc, mode, &text),
        None => Err(ClusterFault::NotJson),
    }
}

#[tactic(auto, unfolding(crate::specs::Setups::setup_of_value))]
fn setup_of_value(alloc: Global, mode: Mode, text: &Value) -> Result<Setup, ClusterFault>
    ensures due { IsDueElseMemory (setups.setup_of_value mode (view text.now)) result }
    ensures node { IfOk result IsNodeSetup }
    ensures server { IfOk result (IsSetupIn mode) }
{
    if !text.is_object() {
        return Err(ClusterFault::NotObject);
    }
    let shape = shape_of(mode, text)?;
    setup_of(alloc, mode, &shape)
}

#[tactic(auto, unfolding(crate::specs::Setups::setup_of))]
fn setup_of(alloc: Global, mode: Mode, shape: &Shape<'_>) -> Result<Setup, ClusterFault>
    ensures due { IsDueElseMemory (setups.setup_of mode (shapes.shape_view shape.now)) result }
    ensures node { IfOk result IsNodeSetup }
    ensures server { IfOk result (IsSetupIn mode) }
{
    let sizes = Sizes::new(shape.n, shape.f)?;
    let me = name_of(mode, &sizes, shape.me)?;
    check_roles(&sizes, shape.roles)?;
    let links = &shape.links;
    counted(mode, &sizes, key_count(links.keys), port_count(links.nodes))?;
    let roles = roles_of(alloc, sizes, shape.roles)?;
    Ok(Setup {
        config: Config::new(shape.cluster, roles, MOST_EVENTS).unwrap(),
        me,
        keys: Items::new(keys_of(alloc, links.keys)?),
        nodes: Items::new(ports_of(alloc, links.nodes)?),
        client: links.client,
    })
}

/// The name of the node itself; in a pipe there is no other.
#[tactic(auto, unfolding(crate::specs::Setups::name_of))]
fn name_of(mode: Mode, sizes: &Sizes, me: u8) -> Result<NodeName, ClusterFault>
    ensures value { result ≡ setups.name_of mode sizes.now me }
    ensures node { IfOk result (λ me. me < sizes.now.nodes) }
{
    if matches!(mode, Mode::Pipe) && sizes.n() != 1 {
        return Err(ClusterFault::OutOfRange(Member::N));
    }
    match sizes.name(me) {
        Some(name) => Ok(name),
        None => Err(ClusterFault::OutOfRange(Member::Me)),
    }
}

/// Refuses the roles with their owners by the first fault of one, in their order. It takes no memory.
fn check_roles(sizes: &Sizes, items: &[Value]) -> Result<(), ClusterFault>
    ensures { result ≡ setups.checked
        (setups.table_of (no_roles sizes.now) (filter_map (λ v. shapes.pair_of (view v)) items.now)) }
{
    for (index, item) in items.iter().enumerate() {
        if let Some(fault) = role_fault(sizes, &items[..index], item) {
            return Err(ClusterFault::Table(fault));
        }
    }
    Ok(())
}

/// Why a role is refused behind these others, each of another role.
fn role_fault(sizes: &Sizes, before: &[Value], item: &Value) -> Option<TableFault>
    ensures { result ≡ option_and_then
        (setups.fault_behind sizes.now (filter_map (λ v. shapes.pair_of (view v)) before.now))
        (shapes.pair_of (view item.now)) }
{
    let (role, owner) = pair_of(item)?;
    if sizes.name(owner).is_none() {
        Some(TableFault::NoSuchNode)
    } else if has_role(before, role) {
        Some(TableFault::Repeated)
    } else if role_count(before) >= MOST_ROLES {
        Some(TableFault::TooManyRoles)
    } else {
        None
    }
}

fn has_role(items: &[Value], role: u16) -> bool
    ensures { result ≡ list_any (λ pair. role == pair.0) (filter_map (λ v. shapes.pair_of (view v)) items.now) }
{
    items
        .iter()
        .filter_map(pair_of)
        .any(|(other, _)| role == other)
}

fn role_count(items: &[Value]) -> usize
    ensures { result ≡ length (filter_map (λ v. shapes.pair_of (view v)) items.now) }
{
    items.iter().filter_map(pair_of).count()
}

/// The table of roles with their owners that were checked, so that it is refused for want of memory alone.
fn roles_of(alloc: Global, sizes: Sizes, items: &[Value]) -> Result<RoleTable, AllocError>
    requires { IsOk (setups.table_of (no_roles sizes) (filter_map (λ v. shapes.pair_of (view v)) items.now)) }
    ensures table { IfOk result (λ roles.
        setups.table_of (no_roles sizes) (filter_map (λ v. shapes.pair_of (view v)) items.now) ≡ Ok roles) }
    ensures sizes { IfOk result (λ roles. roles.sizes ≡ sizes) }
{
    let mut roles = RoleTable::new(alloc, sizes);
    for item in items {
        add_role(&mut roles, item)?;
    }
    Ok(roles)
}

/// Adds a role that is not refused.
#[tactic(auto, unfolding(crate::specs::Setups::table_of))]
fn add_role(roles: &mut RoleTable, item: &Value) -> Result<(), AllocError>
    requires { IsOk (setups.table_of roles.old (cons_option (shapes.pair_of (view item.now)) [])) }
    ensures added { OnOk result
        (setups.table_of roles.old (cons_option (shapes.pair_of (view item.now)) []) ≡ Ok roles.new) }
    ensures sizes { roles.new.sizes ≡ roles.old.sizes }
{
    let Some((role, owner)) = pair_of(item) else {
        return Ok(());
    };
    match roles.add(role, owner) {
        Ok(()) => Ok(()),
        Err(TableFault::Memory) => Err(AllocError),
        Err(TableFault::NoSuchNode | TableFault::Repeated | TableFault::TooManyRoles) => {
            unreachable!()
        }
    }
}

/// Refuses a server that has so many keys and ports, where they are not as many as the nodes.
#[tactic(auto, unfolding(crate::specs::Setups::counted))]
fn counted(mode: Mode, sizes: &Sizes, keys: usize, nodes: usize) -> Result<(), ClusterFault>
    ensures value { result ≡ setups.counted mode sizes.now keys nodes }
    ensures counted { OnOk result (AreCounted mode sizes.now keys nodes) }
{
    if matches!(mode, Mode::Serve) {
        let due = usize::from(sizes.n());
        if keys != due {
            return Err(ClusterFault::OutOfRange(Member::Keys));
        }
        if nodes != due {
            return Err(ClusterFault::OutOfRange(Member::Nodes));
        }
    }
    Ok(())
}

fn key_count(items: &[Value]) -> usize
    ensures { result ≡ length (filter_map (λ v. shapes.key_of (view v)) items.now) }
{
    items.iter().filter_map(key_of).count()
}

fn port_count(items: &[Value]) -> usize
    ensures { result ≡ length (filter_map (λ v. shapes.port_of (view v)) items.now) }
{
    items.iter().filter_map(port_of).count()
}

fn keys_of(alloc: Global, items: &[Value]) -> Result<Vec<[u8; 32]>, AllocError>
    ensures { IfOk result (λ keys. keys.items ≡ filter_map (λ v. shapes.key_of (view v)) items.now) }
{
    items.iter().filter_map(key_of).collect(alloc)
}

fn ports_of(alloc: Global, items: &[Value]) -> Result<Vec<u16>, AllocError>
    ensures { IfOk result (λ ports. ports.items ≡ filter_map (λ v. shapes.port_of (view v)) items.now) }
{
    items.iter().filter_map(port_of).collect(alloc)
}
