//! A caller of the library: one node that publishes, takes its own packets, and decides on an access.
#![tactic(auto)]

ghost use Rattle.std.specs.Prelude.{◌≡◌};
ghost use Rattle.role_node.specs.Access.{verdict_at};

use anyhow::{Context, Result, bail};
use link_frames::Packet;
use quorum_sizes::Sizes;
use role_commands::{Command, RoleTable};
use role_node::{ClientEvent, Config, Event, Node, Reply, Verdict};
use std::alloc::Global;

const ASSIGN: Command = Command::Assign { user: 7, role: 2 };

const GRANT: Command = Command::Grant {
    role: 2,
    operation: 5,
    object: 9,
};

fn main(rt: HostRuntime) -> Result<()> {
    let mut node = node_of_one(rt.alloc())?;
    publish(&mut node, ASSIGN)?;
    publish(&mut node, GRANT)?;
    let session = log_in(&mut node, 7, 2)?;
    match decide(&mut node, session, 7, 5, 9) {
        Verdict::Allow(role) => println!(rt; "allowed in role {role}")?,
        Verdict::Deny(rule) => println!(rt; "denied by {rule}")?,
    }
    Ok(())
}

/// The node of a cluster of one, which owns role 2 and may record a thousand events.
fn node_of_one(alloc: Global) -> Result<Node> {
    let mut roles = RoleTable::new(alloc, Sizes::new(1, 0)?);
    roles.add(2, 0)?;
    let config = Config::new(1, roles, 1_000).context("no configuration")?;
    let me = config.roles().sizes().name(0).context("no such node")?;
    Ok(Node::new(alloc, config, me)?)
}

/// Publishes a command. What a node sends goes to all nodes: here its SEND, its ECHO and its READY, to itself.
fn publish(node: &mut Node, command: Command) -> Result<()> {
    let me = node.me();
    let mut reply = node.apply(Event::Issue(command))?;
    for _ in 0..3 {
        let Some(message) = reply.message() else {
            break;
        };
        let packet = Packet::new(me, me, message).context("no packet")?;
        reply = node.apply(Event::Take(packet))?;
    }
    Ok(())
}

/// Opens a session of the user in which the role is active.
fn log_in(node: &mut Node, user: u32, role: u16) -> Result<u64> {
    let opened = act(node, ClientEvent::Open { user })?;
    let session = opened.context("no session")?;
    let _none = act(
        node,
        ClientEvent::Activate {
            session,
            user,
            role,
        },
    )?;
    Ok(session)
}

/// Has a client act. The session that is opened, if that is what it does.
fn act(node: &mut Node, event: ClientEvent) -> Result<Option<u64>> {
    match node.apply(Event::Client(event)) {
        Ok(Reply::Session(session)) => Ok(Some(session)),
        Ok(_) => Ok(None),
        Err(fault) => bail!("{fault}"),
    }
}

/// The decision on an access: the one that is due by the node's history, which stays as it is.
fn decide(node: &mut Node, session: u64, user: u32, operation: u16, object: u32) -> Verdict
    ensures verdict { result ≡
        verdict_at node.old.config.roles node.old.history session user operation object }
    ensures same { node.new ≡ node.old }
{
    node.check(session, user, operation, object)
}
