//! What a node notes of its history, so that it needn't read it again.

ghost use Rattle.std.specs.Prelude.{◌≡◌, ℕ, ◌+◌, ◌<◌, ◌≤◌, List, [], ◌∷◌, ◌++◌};
ghost use Rattle.std.specs.Bool.{Decides};
ghost use Rattle.quorum_sizes.specs.Sizes.{Counts};
ghost use Rattle.role_commands.specs.Tables.{Table};
ghost use Rattle.link_frames.specs.frames.Packets.{PacketValue};
ghost use Rattle.role_node.specs.Answers.{reply_to};
ghost use Rattle.role_node.specs.Configs.{most_events};
ghost use Rattle.role_node.specs.inside.Kept.{IsStateAfter};
ghost use Rattle.role_node.specs.inside.Noting.{IsNotedOf, IsIssuedAt, AreIssued};
ghost use Rattle.role_node.specs.declared.event.Event.{Event};
ghost use Rattle.role_node.specs.declared.event.Event.TheVariants.{Take};

use crate::entry::Entry;
use crate::event::{Event, Reply};
use crate::state::State;
use link_frames::Place;
use quorum_sizes::NodeName;

/// What a node notes of its history.
#[derive(Clone, Copy)]
pub(crate) struct Noted {
    /// How many acts of clients stand in it.
    pub(crate) acts: u32,
    /// Whether it shows that the node was begun twice.
    pub(crate) begun_twice: bool,
}

impl Noted {
    /// What is noted before the first event.
    pub(crate) fn new() -> Noted
        ensures { (s : Counts) (me : ℕ) → IsNotedOf s me [] result }
    {
        Noted {
            acts: 0,
            begun_twice: false,
        }
    }

    /// Notes an event that was recorded as this entry, when the state is that after it.
    #[inline(always)]
    pub(crate) fn note(&mut self, state: &State, me: NodeName, event: &Event, entry: &Entry)
        requires me { me < state.now.streams.sizes.nodes }
        requires few { self.old.acts ≤ most_events }
        ensures { (roles : Table) (history : List Event) → IsNotedOf roles.sizes me history self.old →
            IsStateAfter roles (history ++ event.now ∷ []) state.now →
            entry.now.reply ≡ reply_to roles me history event.now →
            IsNotedOf roles.sizes me (history ++ event.now ∷ []) self.new }
    {
        match event {
            Event::Issue(_) => {}
            Event::Take(packet) => {
                if packet.owner() == me {
                    self.note_own(state, me, *entry);
                }
            }
            Event::Client(_) => self.acts += 1,
        }
    }

    /// Notes what the node delivers of its own stream with a packet that was recorded as this entry. It takes the entry
    /// by value, so that one of another owner's packet never has to lie in memory for it.
    fn note_own(&mut self, state: &State, me: NodeName, entry: Entry)
        requires { me < state.now.streams.sizes.nodes }
        ensures { (roles : Table) (history : List Event) (p : PacketValue) → p.owner ≡ me →
            IsNotedOf roles.sizes me history self.old → IsStateAfter roles (history ++ Take p ∷ []) state.now →
            entry.reply ≡ reply_to roles me history (Take p) →
            IsNotedOf roles.sizes me (history ++ Take p ∷ []) self.new }
    {
        if let Reply::Counted { from, to, .. } = entry.reply() {
            if !are_issued(state, me, from, to) {
                self.begun_twice = true;
            }
        }
    }
}

/// Whether the node delivers of its own stream what it issued at each place from `from` up to, not including, `to`.
fn are_issued(state: &State, me: NodeName, from: Place, to: Place) -> bool
    requires { me < state.now.streams.sizes.nodes }
    ensures { (roles : Table) (history : List Event) → IsStateAfter roles history state.now →
        Decides result (AreIssued roles.sizes me history from to) }
{
    for place in from..to {
        if !is_issued(state, me, place) {
            return false;
        }
    }
    true
}

/// Whether what the node delivers at a place of its own stream, if anything, is what it issued there.
fn is_issued(state: &State, me: NodeName, place: Place) -> bool
    requires { me < state.now.streams.sizes.nodes }
    ensures { (roles : Table) (history : List Event) → IsStateAfter roles history state.now →
        Decides result (IsIssuedAt roles.sizes me history place) }
{
    match state.streams.command(me, place) {
        None => true,
        Some(delivered) => match state.issued.get(place as usize) {
            Some(issued) => issued.is_same(&delivered),
            None => false,
        },
    }
}
