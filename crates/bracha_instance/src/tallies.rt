//! The votes of an instance, by command.

ghost use Rattle.std.specs.Prelude.{◌≡◌, length, None, Some, position, IfOk, IfSome, IfNone, OnOk, OnErr};
ghost use Rattle.std.specs.FinMap as maps;
ghost use Rattle.std.specs.FinSet as sets;
ghost use Rattle.bracha_instance.specs.inside.Next.{kind_of};
ghost use Rattle.bracha_instance.specs.inside.Tallies.{no_votes, votes_of, with_vote, support_of, AreVoted};
ghost use Rattle.bracha_instance.specs.inside.Tallies.{is_tally_of, IsFirst, with_tally, voted_by, support_in};
ghost use Rattle.bracha_instance.specs.inside.Tallies.{no_names, names_in_tally, IsFirstChanged, IsOther};

use link_frames::Kind;
use quorum_sizes::{NodeName, NodeSet};
use role_commands::Command;
use std::alloc::{AllocError, Global};
use std::marker::Model;

/// The kinds of message that are votes for a command.
#[derive(Clone, Copy)]
pub enum Vote {
    Echo,
    Ready,
}

impl Vote {
    /// The kind of message that it is.
    #[inline(always)]
    pub fn kind(self) -> Kind
        ensures { result ≡ kind_of self }
    {
        match self {
            Vote::Echo => Kind::Echo,
            Vote::Ready => Kind::Ready,
        }
    }
}

/// The names of the nodes whose vote is for a command, and how many these are.
#[derive(Drop)]
struct Tally {
    command: Command,
    echo_count: u8,
    ready_count: u8,
    echoes: NodeSet,
    readies: NodeSet,
}

impl Model for Tally {
    ghost use Rattle.std.specs.Prelude.{◌≡◌};
    ghost use Rattle.std.specs.FinSet as sets;
    ghost use Rattle.bracha_instance.specs.inside.Tallies.{TallyValue, tally_code};

    ghost Value = { TallyValue };

    ghost coded = { tally_code };

    ghost view = { λ a. record { command = a.command; echoes = a.echoes; readies = a.readies } };

    ghost invariant = { λ a. (a.echo_count ≡ sets.len a.echoes) × (a.ready_count ≡ sets.len a.readies) };
}

/// How many nodes echoed a command, and how many are ready for it.
#[derive(Clone, Copy)]
pub struct Support {
    pub echoes: usize,
    pub readies: usize,
}

/// The votes of an instance: for each command that has one, the names of its ECHOs and of its READYs.
///
/// Unless nodes lie there is one such command, whose tally needs no memory of its own.
#[derive(Drop)]
pub struct Tallies {
    first: Option<Tally>,
    others: Vec<Tally>,
}

impl Model for Tallies {
    ghost use Rattle.bracha_instance.specs.inside.Tallies.{Tallied, tallied_code, tallied, all_of, AreKept};

    ghost Value = { Tallied };

    ghost coded = { tallied_code };

    ghost view = { λ a. tallied (all_of a.first a.others.items) };

    ghost invariant = { λ a. AreKept a.first a.others.items };
}

impl Tally {
    /// The tally of a command that has no vote.
    #[inline(always)]
    fn new(command: Command) -> Self
        ensures { result ≡ no_names command }
    {
        Tally {
            command,
            echo_count: 0,
            ready_count: 0,
            echoes: NodeSet::new(),
            readies: NodeSet::new(),
        }
    }

    /// Whether it is the tally of this command.
    #[inline(always)]
    fn is_of(&self, command: Command) -> bool
        ensures { result ≡ is_tally_of command self.now }
    {
        command.is_same(&self.command)
    }

    /// Adds a name to the votes of this kind. How many nodes support the command then.
    #[inline(always)]
    fn add(&mut self, vote: Vote, name: NodeName) -> Support
        ensures tally { self.new ≡ voted_by vote name self.old }
        ensures support { result ≡ names_in_tally self.new }
    {
        match vote {
            Vote::Echo => {
                if self.echoes.insert(name) {
                    self.echo_count += 1;
                }
            }
            Vote::Ready => {
                if self.readies.insert(name) {
                    self.ready_count += 1;
                }
            }
        }
        self.support()
    }

    #[inline(always)]
    fn support(&self) -> Support
        ensures { result ≡ names_in_tally self.now }
    {
        Support {
            echoes: usize::from(self.echo_count),
            readies: usize::from(self.ready_count),
        }
    }
}

/// The place of the command's tally.
fn place_of(tallies: &[Tally], command: Command) -> Option<usize>
    ensures { result ≡ position (is_tally_of command) tallies.now }
{
    tallies.iter().position(|tally| tally.is_of(command))
}

/// The place of the command's tally, which is made where there is none.
fn tally_of(tallies: &mut Vec<Tally>, command: Command) -> Result<usize, AllocError>
    ensures place { IfOk result (λ at. IsFirst command tallies.new.items at) }
    ensures tallies { OnOk result (tallies.new.items ≡ with_tally (λ t. t) command tallies.old.items) }
    ensures err { OnErr result (tallies.new.items ≡ tallies.old.items) }
{
    match place_of(tallies, command) {
        Some(at) => Ok(at),
        None => add_tally(tallies, command),
    }
}

/// Adds the tally of a command that has none. Its place.
fn add_tally(tallies: &mut Vec<Tally>, command: Command) -> Result<usize, AllocError>
    requires { position (is_tally_of command) tallies.old.items ≡ None }
    ensures place { IfOk result (λ at. IsFirst command tallies.new.items at) }
    ensures tallies { OnOk result (tallies.new.items ≡ with_tally (λ t. t) command tallies.old.items) }
    ensures err { OnErr result (tallies.new.items ≡ tallies.old.items) }
{
    let at = tallies.len();
    tallies.push(Tally::new(command))?;
    Ok(at)
}

/// Adds a name to the votes of this kind for a command. How many nodes support it then.
#[inline(never)]
fn add(
    tallies: &mut Vec<Tally>,
    vote: Vote,
    name: NodeName,
    command: Command,
) -> Result<Support, AllocError>
    ensures tallies { OnOk result (tallies.new.items ≡ with_tally (voted_by vote name) command tallies.old.items) }
    ensures support { IfOk result (λ support. support ≡ support_in command tallies.new.items) }
    ensures err { OnErr result (tallies.new.items ≡ tallies.old.items) }
{
    let at = tally_of(tallies, command)?;
    Ok(tallies[at].add(vote, name))
}

/// Adds a name to the votes of this kind for the first command, which this is where there is none yet. How many nodes
/// support it then; `None`, which changes nothing, where the first is another.
#[inline(always)]
fn add_to_first(
    first: &mut Option<Tally>,
    vote: Vote,
    name: NodeName,
    command: Command,
) -> Option<Support>
    ensures some { IfSome result (IsFirstChanged (voted_by vote name) command first.old first.new) }
    ensures none { IfNone result (IsOther command first.old × (first.new ≡ first.old)) }
{
    match first {
        Some(tally) => {
            if tally.is_of(command) {
                Some(tally.add(vote, name))
            } else {
                None
            }
        }
        None => {
            let mut tally = Tally::new(command);
            let support = tally.add(vote, name);
            *first = Some(tally);
            Some(support)
        }
    }
}

impl Tallies {
    /// No votes. Takes no memory.
    pub fn new(alloc: Global) -> Self
        ensures { result ≡ no_votes }
    {
        Tallies {
            first: None,
            others: Vec::new(alloc),
        }
    }

    /// Counts the vote of a node that has none of this kind. How many nodes support its command then.
    ///
    /// # Errors
    ///
    /// `AllocError`, which changes nothing.
    #[inline(always)]
    pub fn count(
        &mut self,
        vote: Vote,
        name: NodeName,
        command: Command,
    ) -> Result<Support, AllocError>
        requires { maps.get (votes_of vote self.old) name ≡ None }
        ensures ok { OnOk result (self.new ≡ with_vote vote self.old name command) }
        ensures support { IfOk result (λ support. support ≡ support_of self.new command) }
        ensures err { OnErr result (self.new ≡ self.old) }
    {
        if let Some(support) = add_to_first(&mut self.first, vote, name, command) {
            return Ok(support);
        }
        let support = add(&mut self.others, vote, name, command)?;
        Ok(support)
    }

    /// Forgets all votes, and gives their memory back.
    pub fn forget(&mut self)
        ensures { self.new ≡ no_votes }
    {
        let alloc = *self.others.allocator();
        self.first = None;
        self.others = Vec::new(alloc);
    }

    /// How many commands have a vote.
    pub fn len(&self) -> usize
        ensures commands { AreVoted self.now }
        ensures len { result ≡ length self.now.commands }
    {
        match self.first {
            Some(_) => 1 + self.others.len(),
            None => self.others.len(),
        }
    }
}
