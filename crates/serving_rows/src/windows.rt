//! Rows of what a node sends again by itself.

ghost use Rattle.std.specs.Prelude.{◌<◌, ◌≤◌, ◌^◌, IfOk};
ghost use Rattle.role_node.specs.Windows.{voted_to, window_to};
ghost use Rattle.peer_windows.specs.Pauses.{most_time};

use link_frames::{PLACES, Place};
use peer_windows::{Level, MOST_TIME, Pairs, PeerWindow, Repeat, Seen, vote_end};
use quorum_sizes::{NodeName, Sizes};
use role_commands::numbers::wide_number;
use row_words::{RowFault, Words, text_of, yes_or_no};
use std::alloc::Global;
use std::fmt;
use std::fmt::Display;

/// The pairs of a node of a cluster of these sizes.
#[derive(Drop)]
pub struct Windows {
    sizes: Sizes,
    pairs: Pairs,
}

/// `windows N F ME NOW`: times are milliseconds.
pub fn begin(alloc: Global, words: &mut Words<'_>) -> Result<Windows, RowFault> {
    let sizes = words.sizes()?;
    let me = words.node(&sizes)?;
    let now = time_of(words)?;
    Ok(Windows {
        sizes,
        pairs: Pairs::new(alloc, sizes, me, now)?,
    })
}

/// The time that the next word spells.
fn time_of(words: &mut Words<'_>) -> Result<u64, RowFault>
    ensures { IfOk result (λ time. time ≤ most_time) }
{
    let time = words.long()?;
    if time > MOST_TIME {
        return Err(RowFault::BadRow);
    }
    Ok(time)
}

pub fn answer(alloc: Global, windows: &mut Windows, line: &str) -> Result<String, RowFault> {
    let mut words = Words::new(line);
    match words.word() {
        "around" => around(alloc, &mut words),
        "vote-end" => end(alloc, &mut words),
        "settled" => settled(alloc, &mut words),
        "served" => served(alloc, windows, &mut words),
        "due" => due(alloc, windows),
        name => {
            windows.change(name, &mut words)?;
            due(alloc, windows)
        }
    }
}

/// Some numbers that tell whether anything has changed.
pub fn seen(windows: &Windows) -> [u64; 3] {
    [windows.pairs.next_due(), 0, 0]
}

/// `around PLACE`, or `around none`: the window of a peer with this last vote.
fn around(alloc: Global, words: &mut Words<'_>) -> Result<String, RowFault> {
    text_of(alloc, &Shown(PeerWindow::around(last_of(words)?)))
}

/// `FROM-TO`
#[derive(Clone, Copy)]
struct Shown(PeerWindow);

impl Display for Shown {
    fn fmt<W: fmt::Write>(&self, f: &mut fmt::Formatter<W>) -> fmt::Result {
        let PeerWindow { from, to } = self.0;
        write!(f, "{from}-{to}")
    }
}

/// `vote-end PLACE`, or `vote-end none`: how far a peer has voted with this last vote.
fn end(alloc: Global, words: &mut Words<'_>) -> Result<String, RowFault> {
    text_of(alloc, &vote_end(last_of(words)?))
}

/// The place of the last vote.
fn last_of(words: &mut Words<'_>) -> Result<Option<Place>, RowFault>
    ensures voted { IfOk result (λ last. voted_to last < 2 ^ 32) }
    ensures window { IfOk result (λ last. window_to last < 2 ^ 32) }
{
    let word = words.word();
    if word == "none" {
        return Ok(None);
    }
    match wide_number(word) {
        Some(place) if place < PLACES => Ok(Some(place)),
        _ => Err(RowFault::BadRow),
    }
}

/// `settled REACH VOTED OUTSTANDING`
fn settled(alloc: Global, words: &mut Words<'_>) -> Result<String, RowFault> {
    let seen = Seen {
        reach: words.wide()?,
        voted: words.wide()?,
        outstanding: words.wide()?,
    };
    yes_or_no(alloc, seen.is_settled())
}

/// `served OWNER PEER`: a window went to the peer since it was as far.
fn served(alloc: Global, windows: &Windows, words: &mut Words<'_>) -> Result<String, RowFault> {
    let (owner, peer) = pair_of(words, &windows.sizes)?;
    yes_or_no(alloc, windows.pairs.is_served(owner, peer))
}

/// `due`: when something is due next.
fn due(alloc: Global, windows: &Windows) -> Result<String, RowFault> {
    text_of(alloc, &windows.pairs.next_due())
}

fn pair_of(words: &mut Words<'_>, sizes: &Sizes) -> Result<(NodeName, NodeName), RowFault> {
    let owner = words.node(sizes)?;
    Ok((owner, words.node(sizes)?))
}

/// How far the stream reaches here, and how far the peer has voted.
fn level_of(words: &mut Words<'_>) -> Result<Level, RowFault> {
    let reach = words.wide()?;
    let voted = words.wide()?;
    Ok(Level { reach, voted })
}

impl Windows {
    /// What happens at a time. Answered is when something is due then.
    fn change(&mut self, name: &str, words: &mut Words<'_>) -> Result<(), RowFault> {
        let now = time_of(words)?;
        match name {
            "grow" => self.pairs.grow(now, words.node(&self.sizes)?),
            "connected" => self.pairs.connected(now, words.node(&self.sizes)?),
            "move-on" => self.move_on(now, words)?,
            "hear" => self.hear(now, words)?,
            "pass" => self.pass(now, words)?,
            "vote" => self.vote(now, words)?,
            _ => return Err(RowFault::BadRow),
        }
        Ok(())
    }

    /// `move-on NOW OWNER PEER`
    fn move_on(&mut self, now: u64, words: &mut Words<'_>) -> Result<(), RowFault>
        requires { now ≤ most_time }
    {
        let (owner, peer) = pair_of(words, &self.sizes)?;
        self.pairs.move_on(now, owner, peer);
        Ok(())
    }

    /// `hear NOW OWNER PEER REACH VOTED PLACE KIND`: the peer's packet changed nothing.
    fn hear(&mut self, now: u64, words: &mut Words<'_>) -> Result<(), RowFault>
        requires { now ≤ most_time }
    {
        let (owner, peer) = pair_of(words, &self.sizes)?;
        let level = level_of(words)?;
        let repeat = Repeat {
            place: words.wide()?,
            is_ready: words.word() == "ready",
        };
        self.pairs.hear(now, owner, peer, level, repeat);
        Ok(())
    }

    /// `pass NOW OWNER PEER REACH VOTED`: the peer's packet is beyond the window.
    fn pass(&mut self, now: u64, words: &mut Words<'_>) -> Result<(), RowFault>
        requires { now ≤ most_time }
    {
        let (owner, peer) = pair_of(words, &self.sizes)?;
        let level = level_of(words)?;
        self.pairs.pass(now, owner, peer, level);
        Ok(())
    }

    /// `vote NOW OWNER PEER REACH VOTED`: a vote of the peer counted.
    fn vote(&mut self, now: u64, words: &mut Words<'_>) -> Result<(), RowFault>
        requires { now ≤ most_time }
    {
        let (owner, peer) = pair_of(words, &self.sizes)?;
        let level = level_of(words)?;
        self.pairs.vote(now, owner, peer, level);
        Ok(())
    }
}
