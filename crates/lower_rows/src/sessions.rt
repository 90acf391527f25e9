//! Rows of sessions over a policy.

use crate::roles::table_of;
use crate::said::{Decided, Replied};
use quorum_sizes::NodeName;
use rbac_state::Policy;
use role_commands::Command;
use role_node::Reply;
use role_sessions::{EndFault, SessionFault, Sessions};
use row_words::{RowFault, Words, list_text, permissions_text, text_of};
use std::alloc::Global;
use std::marker::Model;

/// A policy with its sessions, whose kept answers are right.
#[derive(Drop)]
pub struct Bench {
    owner: NodeName,
    policy: Policy,
    sessions: Sessions,
}

impl Model for Bench {
    ghost use Rattle.std.specs.Prelude.{ℕ};
    ghost use Rattle.role_sessions.specs.Decisions.{relations_of};
    ghost use Rattle.role_sessions.specs.Kept.{KeptAreRight};

    ghost Value = { ℕ };

    ghost view = { λ a. a.owner };

    ghost invariant = { λ a. KeptAreRight (relations_of a.policy) a.sessions };
}

/// `sessions N F ROLE:0 ..`: no session is open.
pub fn begin(alloc: Global, words: &mut Words<'_>) -> Result<Bench, RowFault> {
    let sizes = words.sizes()?;
    let owner = sizes.name(0).ok_or(RowFault::BadRow)?;
    let table = table_of(alloc, words, sizes)?;
    Ok(Bench {
        owner,
        policy: Policy::new(alloc, table),
        sessions: Sessions::new(alloc),
    })
}

pub fn answer(alloc: Global, bench: &mut Bench, line: &str) -> Result<String, RowFault> {
    let mut words = Words::new(line);
    match words.word() {
        "as" => apply(alloc, bench, words.command()?),
        "open" => open(alloc, bench, words.wide()?),
        "open-many" => open_many(alloc, bench, words.wide()?),
        "activate" => activate(alloc, bench, &mut words),
        "drop" => drop_role(alloc, bench, &mut words),
        "close" => close(alloc, bench, &mut words),
        "check" => check(alloc, bench, &mut words),
        name => look(alloc, bench, name, &mut words),
    }
}

/// `as C`: the owner of all roles says this.
fn apply(alloc: Global, bench: &mut Bench, command: Command) -> Result<String, RowFault> {
    bench.sessions.forget();
    bench.policy.make_room()?;
    bench.policy.apply(bench.owner, command);
    text_of(alloc, &"ok")
}

/// `ok`, or the fault.
fn done(alloc: Global, came: Result<(), SessionFault>) -> Result<String, RowFault> {
    match came {
        Ok(()) => text_of(alloc, &"ok"),
        Err(SessionFault::Memory) => Err(RowFault::Memory),
        Err(fault) => text_of(alloc, &fault),
    }
}

fn ended(alloc: Global, came: Result<(), EndFault>) -> Result<String, RowFault> {
    match came {
        Ok(()) => text_of(alloc, &"ok"),
        Err(fault) => text_of(alloc, &fault),
    }
}

fn opened(bench: &mut Bench, user: u32) -> Result<u64, SessionFault> {
    if bench.sessions.opened() == u64::MAX {
        return Err(SessionFault::TooManySessions);
    }
    bench.sessions.open(user)
}

/// `open USER`
fn open(alloc: Global, bench: &mut Bench, user: u32) -> Result<String, RowFault> {
    match opened(bench, user) {
        Ok(id) => text_of(alloc, &Replied(Reply::Session(id))),
        Err(fault) => done(alloc, Err(fault)),
    }
}

/// `open-many COUNT`: each user below that number opens a session. How many did.
fn open_many(alloc: Global, bench: &mut Bench, count: u32) -> Result<String, RowFault> {
    for user in 0..count {
        if opened(bench, user).is_err() {
            return text_of(alloc, &user);
        }
    }
    text_of(alloc, &count)
}

/// `activate S USER ROLE`
fn activate(alloc: Global, bench: &mut Bench, words: &mut Words<'_>) -> Result<String, RowFault> {
    let (session, user, role) = (words.long()?, words.wide()?, words.narrow()?);
    let came = bench.sessions.activate(&bench.policy, session, user, role);
    done(alloc, came)
}

/// `drop S USER ROLE`
fn drop_role(alloc: Global, bench: &mut Bench, words: &mut Words<'_>) -> Result<String, RowFault> {
    let (session, user, role) = (words.long()?, words.wide()?, words.narrow()?);
    ended(alloc, bench.sessions.drop_role(session, user, role))
}

/// `close S USER`
fn close(alloc: Global, bench: &mut Bench, words: &mut Words<'_>) -> Result<String, RowFault> {
    let (session, user) = (words.long()?, words.wide()?);
    ended(alloc, bench.sessions.close(session, user))
}

/// `check S USER OPERATION OBJECT`
fn check(alloc: Global, bench: &mut Bench, words: &mut Words<'_>) -> Result<String, RowFault> {
    let (session, user) = (words.long()?, words.wide()?);
    let (operation, object) = (words.narrow()?, words.wide()?);
    let verdict = bench
        .sessions
        .check(&bench.policy, session, user, operation, object);
    text_of(alloc, &Decided(verdict))
}

fn look(
    alloc: Global,
    bench: &Bench,
    name: &str,
    words: &mut Words<'_>,
) -> Result<String, RowFault> {
    match name {
        "may-open" => done(alloc, bench.sessions.may_open()),
        "may-activate" => may_activate(alloc, bench, words),
        "may-drop" => {
            let (session, user) = (words.long()?, words.wide()?);
            ended(
                alloc,
                bench.sessions.may_drop(session, user, words.narrow()?),
            )
        }
        "may-close" => {
            let session = words.long()?;
            ended(alloc, bench.sessions.may_close(session, words.wide()?))
        }
        "session-roles" => session_roles(alloc, bench, words.long()?),
        "session-permissions" => session_permissions(alloc, bench, words.long()?),
        "open-count" => text_of(alloc, &bench.sessions.open_count()),
        "open-from" => open_from(alloc, bench, words),
        _ => Err(RowFault::BadRow),
    }
}

/// `may-activate S USER ROLE`
fn may_activate(alloc: Global, bench: &Bench, words: &mut Words<'_>) -> Result<String, RowFault> {
    let (session, user, role) = (words.long()?, words.wide()?, words.narrow()?);
    let came = bench
        .sessions
        .may_activate(&bench.policy, session, user, role);
    done(alloc, came)
}

/// `session-roles S`
fn session_roles(alloc: Global, bench: &Bench, session: u64) -> Result<String, RowFault> {
    match bench.sessions.session_roles(&bench.policy, session) {
        Ok(roles) => list_text(alloc, &roles),
        Err(fault) => done(alloc, Err(fault)),
    }
}

/// `session-permissions S`
fn session_permissions(alloc: Global, bench: &Bench, session: u64) -> Result<String, RowFault> {
    match bench.sessions.session_permissions(&bench.policy, session) {
        Ok(permissions) => permissions_text(alloc, &permissions),
        Err(fault) => done(alloc, Err(fault)),
    }
}

/// `open-from S MOST`: the open sessions from this one on, each as `S:USER`.
fn open_from(alloc: Global, bench: &Bench, words: &mut Words<'_>) -> Result<String, RowFault> {
    let from = words.long()?;
    let open = bench.sessions.open_from(from, usize::from(words.byte()?))?;
    pairs_text(alloc, &open)
}

/// `list`, and each session as `S:USER` behind a space.
pub fn pairs_text(alloc: Global, open: &[(u64, u32)]) -> Result<String, RowFault> {
    let mut text = String::new(alloc);
    text.push_str("list")?;
    for (session, user) in open {
        let item = format!(in alloc; " {session}:{user}")?;
        text.push_str(&item)?;
    }
    Ok(text)
}

/// How many sessions were opened, and how many are open.
pub fn seen(bench: &Bench) -> [u64; 3] {
    [
        bench.sessions.opened(),
        bench.sessions.open_count() as u64,
        u64::from(bench.policy.is_assigned(7, 2)),
    ]
}
