//! Rows of what an operator hears: how it is written.

use operator_lines::*;
use role_commands::numbers::{long_number, narrow_number, wide_number};
use role_commands::{Command, Items};
use role_sessions::{Rule, Verdict};
use row_words::{RowFault, Words, text_of};
use std::alloc::Global;

/// What is told of a node, its journal and its peers, as far as rows have said it.
#[derive(Drop)]
pub struct Told {
    at: u32,
    begun_twice: bool,
    acts: u32,
    liars: u8,
    limit: u32,
    published: u32,
    sessions: u32,
    unopened: u64,
    reaches: Vec<u32>,
    shares: Option<Vec<u32>>,
    journal: Option<JournalStanding>,
    peers: Vec<Option<PeerStanding>>,
}

/// `told AT LIARS LIMIT PUBLISHED SESSIONS UNOPENED`
pub fn begin(alloc: Global, words: &mut Words<'_>) -> Result<Told, RowFault> {
    Ok(Told {
        at: words.wide()?,
        begun_twice: false,
        acts: 0,
        liars: words.byte()?,
        limit: words.wide()?,
        published: words.wide()?,
        sessions: words.wide()?,
        unopened: words.long()?,
        reaches: Vec::new(alloc),
        shares: None,
        journal: None,
        peers: Vec::new(alloc),
    })
}

pub fn answer(alloc: Global, told: &mut Told, line: &str) -> Result<String, RowFault> {
    let mut words = Words::new(line);
    match words.word() {
        "begun-twice" => begun_twice(alloc, told),
        "acts" => acts(alloc, told, &mut words),
        "shares" => shares(alloc, told),
        "share" => share(alloc, told, &mut words),
        "reaches" => reaches(alloc, told, &mut words),
        "syncs" => syncs(alloc, told, &mut words),
        "myself" => peer(alloc, told, None),
        "peer" => peer(alloc, told, Some(peer_of(&mut words)?)),
        "status" => status(alloc, told),
        "command" => command(alloc, Some(words.command()?)),
        "no-command" => command(alloc, None),
        "open-sessions" => sessions(alloc, told.at, &mut words),
        "decision" => decision(alloc, told.at, &mut words),
        "decisions" => decisions(alloc, told.at, &mut words),
        "bad" => bad(alloc, &mut words),
        "refused" => refused(alloc, &mut words),
        _ => Err(RowFault::BadRow),
    }
}

/// Some numbers that tell whether anything has changed.
pub fn seen(told: &Told) -> [u64; 3] {
    [
        told.reaches.len() as u64,
        told.peers.len() as u64,
        u64::from(told.journal.is_some()),
    ]
}

/// `begun-twice`: the node was.
fn begun_twice(alloc: Global, told: &mut Told) -> Result<String, RowFault> {
    told.begun_twice = true;
    text_of(alloc, &"ok")
}

/// `acts ACTS`: its clients have done so many.
fn acts(alloc: Global, told: &mut Told, words: &mut Words<'_>) -> Result<String, RowFault> {
    told.acts = words.wide()?;
    text_of(alloc, &"ok")
}

/// `shares`: there are shares, of no node yet.
fn shares(alloc: Global, told: &mut Told) -> Result<String, RowFault> {
    told.shares = Some(Vec::new(alloc));
    text_of(alloc, &"ok")
}

/// `share PLACES`: the next node has so many places.
fn share(alloc: Global, told: &mut Told, words: &mut Words<'_>) -> Result<String, RowFault> {
    let Some(shares) = &mut told.shares else {
        return Err(RowFault::BadRow);
    };
    shares.push(words.wide()?)?;
    text_of(alloc, &"ok")
}

/// `refused F2`, `refused F4` or `refused F6`: what a client reads whose line the server refuses.
fn refused(alloc: Global, words: &mut Words<'_>) -> Result<String, RowFault> {
    match words.word() {
        "F2" => Ok(refused_text(alloc, ServingFault::StreamFull)?),
        "F4" => Ok(refused_text(alloc, ServingFault::Full)?),
        "F6" => Ok(refused_text(alloc, ServingFault::BegunTwice)?),
        _ => Err(RowFault::BadRow),
    }
}

/// `reaches REACH`: the next owner's stream reaches so far.
fn reaches(alloc: Global, told: &mut Told, words: &mut Words<'_>) -> Result<String, RowFault> {
    told.reaches.push(words.wide()?)?;
    text_of(alloc, &"ok")
}

/// `syncs SYNCS LAST MEAN WORST SOUND`: how the journal stands.
fn syncs(alloc: Global, told: &mut Told, words: &mut Words<'_>) -> Result<String, RowFault> {
    let times = SyncTimes {
        syncs: words.long()?,
        last: words.long()?,
        mean: words.long()?,
        worst: words.long()?,
    };
    let sound = yes_of(words)?;
    told.journal = Some(JournalStanding { times, sound });
    text_of(alloc, &"ok")
}

fn yes_of(words: &mut Words<'_>) -> Result<bool, RowFault> {
    match words.word() {
        "yes" => Ok(true),
        "no" => Ok(false),
        _ => Err(RowFault::BadRow),
    }
}

/// `myself`, or `peer CONNECTED HEARD WAITING AGAIN LOST UNOPENED`
fn peer(alloc: Global, told: &mut Told, peer: Option<PeerStanding>) -> Result<String, RowFault> {
    told.peers.push(peer)?;
    text_of(alloc, &"ok")
}

fn peer_of(words: &mut Words<'_>) -> Result<PeerStanding, RowFault> {
    Ok(PeerStanding {
        connected: yes_of(words)?,
        heard: yes_of(words)?,
        waiting: words.wide()?,
        again: words.long()?,
        lost: words.long()?,
        unopened: words.long()?,
    })
}

/// `status`: all that was said.
fn status(alloc: Global, told: &Told) -> Result<String, RowFault> {
    let node = standing(alloc, told)?;
    let peers = Items::new(told.peers.to_vec(alloc)?);
    let status = Status {
        node,
        journal: told.journal,
        peers,
        unopened: told.unopened,
    };
    Ok(operator_text(alloc, &OperatorAnswer::Status(status))?)
}

fn standing(alloc: Global, told: &Told) -> Result<NodeStanding, RowFault> {
    Ok(NodeStanding {
        acts: told.acts,
        at: told.at,
        begun_twice: told.begun_twice,
        liars: told.liars,
        limit: told.limit,
        published: told.published,
        sessions: told.sessions,
        reaches: Items::new(told.reaches.to_vec(alloc)?),
        shares: places(alloc, told)?,
    })
}

/// How many places each node has, where there are shares.
fn places(alloc: Global, told: &Told) -> Result<Option<Items<u32>>, RowFault> {
    match &told.shares {
        Some(shares) => Ok(Some(Items::new(shares.to_vec(alloc)?))),
        None => Ok(None),
    }
}

/// `command COMMAND`, or `no-command`
fn command(alloc: Global, command: Option<Command>) -> Result<String, RowFault> {
    Ok(operator_text(alloc, &OperatorAnswer::Command(command))?)
}

/// `open-sessions SESSION:USER ..`
fn sessions(alloc: Global, at: u32, words: &mut Words<'_>) -> Result<String, RowFault> {
    let sessions = Items::new(sessions_of(alloc, words)?);
    let answer = OperatorAnswer::Sessions { at, sessions };
    Ok(operator_text(alloc, &answer)?)
}

fn sessions_of(alloc: Global, words: &mut Words<'_>) -> Result<Vec<(u64, u32)>, RowFault> {
    let mut sessions = Vec::new(alloc);
    for _ in 0..u16::MAX {
        if words.is_done() {
            return Ok(sessions);
        }
        sessions.push(session_of(words.word())?)?;
    }
    Err(RowFault::BadRow)
}

fn session_of(word: &str) -> Result<(u64, u32), RowFault> {
    let (session, user) = word.split_once(':').ok_or(RowFault::BadRow)?;
    let session = long_number(session).ok_or(RowFault::BadRow)?;
    let user = wide_number(user).ok_or(RowFault::BadRow)?;
    Ok((session, user))
}

/// `decision REACH:ROLE`, or `decision REACH:RULE`
fn decision(alloc: Global, at: u32, words: &mut Words<'_>) -> Result<String, RowFault> {
    let decision = decision_of(words.word())?;
    Ok(operator_text(alloc, &OperatorAnswer::Decision { at, decision })?)
}

/// `decisions REACH:ROLE REACH:RULE ..`
fn decisions(alloc: Global, at: u32, words: &mut Words<'_>) -> Result<String, RowFault> {
    let decisions = Items::new(decisions_of(alloc, words)?);
    let answer = OperatorAnswer::Decisions { at, decisions };
    Ok(operator_text(alloc, &answer)?)
}

fn decisions_of(alloc: Global, words: &mut Words<'_>) -> Result<Vec<Decision>, RowFault> {
    let mut decisions = Vec::new(alloc);
    for _ in 0..u16::MAX {
        if words.is_done() {
            return Ok(decisions);
        }
        decisions.push(decision_of(words.word())?)?;
    }
    Err(RowFault::BadRow)
}

fn decision_of(word: &str) -> Result<Decision, RowFault> {
    let (reach, verdict) = word.split_once(':').ok_or(RowFault::BadRow)?;
    Ok(Decision {
        reach: wide_number(reach).ok_or(RowFault::BadRow)?,
        verdict: verdict_of(verdict)?,
    })
}

fn verdict_of(word: &str) -> Result<Verdict, RowFault> {
    match word {
        "N3" => Ok(Verdict::Deny(Rule::NoActiveRole)),
        "N4" => Ok(Verdict::Deny(Rule::NoneAssigned)),
        "N5" => Ok(Verdict::Deny(Rule::NotPermitted)),
        role => Ok(Verdict::Allow(narrow_number(role).ok_or(RowFault::BadRow)?)),
    }
}

/// `bad CODE MEMBER`: the line is no request.
fn bad(alloc: Global, words: &mut Words<'_>) -> Result<String, RowFault> {
    let fault = match words.word() {
        "J5" => OperatorFault::Missing(member_of(words.word())?),
        "J6" => OperatorFault::OutOfRange(member_of(words.word())?),
        _ => return Err(RowFault::BadRow),
    };
    Ok(operator_text(alloc, &OperatorAnswer::BadLine(fault))?)
}

fn member_of(name: &str) -> Result<OperatorMember, RowFault> {
    match name {
        "owner" => Ok(OperatorMember::Owner),
        "place" => Ok(OperatorMember::Place),
        "from" => Ok(OperatorMember::From),
        "asked" => Ok(OperatorMember::Asked),
        _ => Err(RowFault::BadRow),
    }
}
