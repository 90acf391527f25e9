//! Digits of a journal as an event.

ghost use Rattle.std.specs.Prelude.{◌≡◌, ◌≤◌, ◌<◌, ◌++◌, ℕ, List, IfSome, Some, length, option_map};
ghost use Rattle.std.specs.Prelude.{drop};
ghost use Rattle.role_node.specs.declared.event.Event.{Event};
ghost use Rattle.kept_node.specs.Events.{event_digits, IsEventOf};
ghost use Rattle.kept_node.specs.inside.EventReading as reading;

use link_frames::{Kind, Message, Packet};
use quorum_sizes::{NodeName, Sizes};
use role_commands::Command;
use role_node::Event;
use role_sessions::ClientEvent;
use std::marker::Model;

/// The event of a node of these sizes and this name with whose digits these begin, and how many these are; `None` where
/// they begin with no such event.
pub fn read_event(sizes: Sizes, me: NodeName, digits: &[u8]) -> Option<(Event, usize)>
    ensures found { IfSome result (λ r. IsEventOf sizes me r.0
        × (digits.now ≡ event_digits r.0 ++ drop r.1 digits.now)) }
    ensures count { IfSome result (λ r. (0 < r.1) × (r.1 ≤ length digits.now)) }
    ensures only { (event : Event) (behind : List ℕ) → IsEventOf sizes me event →
        digits.now ≡ event_digits event ++ behind → result ≡ Some (event, length (event_digits event)) }
{
    let _nodes = sizes.n();
    let mut reader = Digits { rest: digits };
    let event = reader.event(sizes, me)?;
    Some((event, digits.len() - reader.rest.len()))
}

/// Digits that are read. Contracts see those that are left.
#[derive(Drop)]
struct Digits<'a> {
    rest: &'a [u8],
}

impl<'a> Model for Digits<'a> {
    ghost use Rattle.std.specs.Prelude.{ℕ, List};

    ghost Value = { List ℕ };

    ghost view = { λ a. a.rest.now };
}

impl<'a> Digits<'a> {
    /// The next event.
    #[tactic(auto, unfolding(crate::specs::inside::EventReading::event_at))]
    fn event(&mut self, sizes: Sizes, me: NodeName) -> Option<Event>
        ensures { option_map (λ r. (r, self.new)) result ≡ reading.event_at sizes me self.old }
    {
        let number = self.number(1, 119)?;
        self.numbered_event(sizes, me, number)
    }

    /// What is behind the number of an event.
    #[tactic(auto, unfolding(crate::specs::inside::EventReading::numbered_event))]
    fn numbered_event(&mut self, sizes: Sizes, me: NodeName, number: u64) -> Option<Event>
        ensures { option_map (λ r. (r, self.new)) result ≡ reading.numbered_event sizes me number self.old }
    {
        if number < 5 {
            Some(Event::Issue(self.command(number)?))
        } else if number < 10 {
            Some(Event::Take(self.packet(sizes, me, Kind::Send, number - 5)?))
        } else if number < 15 {
            Some(Event::Take(self.packet(sizes, me, Kind::Echo, number - 10)?))
        } else if number < 20 {
            Some(Event::Take(self.packet(sizes, me, Kind::Ready, number - 15)?))
        } else {
            Some(Event::Client(self.act(number)?))
        }
    }

    /// The packet of this kind whose command has this number.
    #[tactic(auto, unfolding(crate::specs::inside::EventReading::packet_at))]
    fn packet(&mut self, sizes: Sizes, me: NodeName, kind: Kind, number: u64) -> Option<Packet>
        ensures { option_map (λ r. (r, self.new)) result ≡ reading.packet_at sizes me kind number self.old }
    {
        let from = self.name(sizes)?;
        let owner = self.name(sizes)?;
        let place = self.number(3, 1_048_575)? as u32;
        let command = self.command(number)?;
        let message = Message {
            kind,
            owner,
            place,
            command,
        };
        Packet::new(from, me, message)
    }

    /// The name of a node.
    #[tactic(auto, unfolding(crate::specs::inside::EventReading::name_at))]
    fn name(&mut self, sizes: Sizes) -> Option<NodeName>
        ensures { option_map (λ r. (r, self.new)) result ≡ reading.name_at sizes self.old }
    {
        let index = self.number(2, 127)?;
        sizes.name(index as u8)
    }

    /// What is behind the number of a command.
    #[tactic(auto, unfolding(crate::specs::inside::EventReading::command_at))]
    fn command(&mut self, number: u64) -> Option<Command>
        ensures { option_map (λ r. (r, self.new)) result ≡ reading.command_at number self.old }
    {
        match number {
            0 => {
                let (role, user) = self.role_and_user()?;
                Some(Command::Assign { user, role })
            }
            1 => {
                let (role, user) = self.role_and_user()?;
                Some(Command::Deassign { user, role })
            }
            2 => {
                let (role, operation, object) = self.permission()?;
                Some(Command::Grant {
                    role,
                    operation,
                    object,
                })
            }
            3 => {
                let (role, operation, object) = self.permission()?;
                Some(Command::Revoke {
                    role,
                    operation,
                    object,
                })
            }
            4 => {
                let role = self.number(3, 65_535)? as u16;
                Some(Command::Clear { role })
            }
            _ => None,
        }
    }

    /// What is behind the number of what a client does.
    #[tactic(auto, unfolding(crate::specs::inside::EventReading::act_at))]
    fn act(&mut self, number: u64) -> Option<ClientEvent>
        ensures { option_map (λ r. (r, self.new)) result ≡ reading.act_at number self.old }
    {
        match number {
            20 => {
                let user = self.number(5, 4_294_967_295)? as u32;
                Some(ClientEvent::Open { user })
            }
            21 => {
                let (session, user, role) = self.session_and_role()?;
                Some(ClientEvent::Activate {
                    session,
                    user,
                    role,
                })
            }
            22 => {
                let (session, user, role) = self.session_and_role()?;
                Some(ClientEvent::DropRole {
                    session,
                    user,
                    role,
                })
            }
            23 => {
                let session = self.number(10, u64::MAX)?;
                let user = self.number(5, 4_294_967_295)? as u32;
                Some(ClientEvent::Close { session, user })
            }
            _ => None,
        }
    }

    #[tactic(auto, unfolding(crate::specs::inside::EventReading::role_and_user_at))]
    fn role_and_user(&mut self) -> Option<(u16, u32)>
        ensures { option_map (λ r. (r, self.new)) result ≡ reading.role_and_user_at self.old }
    {
        let role = self.number(3, 65_535)? as u16;
        let user = self.number(5, 4_294_967_295)? as u32;
        Some((role, user))
    }

    #[tactic(auto, unfolding(crate::specs::inside::EventReading::permission_at))]
    fn permission(&mut self) -> Option<(u16, u16, u32)>
        ensures { option_map (λ r. (r, self.new)) result ≡ reading.permission_at self.old }
    {
        let role = self.number(3, 65_535)? as u16;
        let operation = self.number(3, 65_535)? as u16;
        let object = self.number(5, 4_294_967_295)? as u32;
        Some((role, operation, object))
    }

    #[tactic(auto, unfolding(crate::specs::inside::EventReading::session_and_role_at))]
    fn session_and_role(&mut self) -> Option<(u64, u32, u16)>
        ensures { option_map (λ r. (r, self.new)) result ≡ reading.session_and_role_at self.old }
    {
        let session = self.number(10, u64::MAX)?;
        let user = self.number(5, 4_294_967_295)? as u32;
        let role = self.number(3, 65_535)? as u16;
        Some((session, user, role))
    }

    /// The number of so many digits, if it is at most this.
    #[tactic(auto, unfolding(crate::specs::inside::EventReading::number_at))]
    fn number(&mut self, width: usize, most: u64) -> Option<u64>
        ensures value { option_map (λ r. (r, self.new)) result ≡ reading.number_at width most self.old }
        ensures within { IfSome result (λ n. n ≤ most) }
    {
        if width > self.rest.len() {
            return None;
        }
        let (front, behind) = self.rest.split_at(width);
        let number = number_of(front)?;
        if number > most {
            return None;
        }
        self.rest = behind;
        Some(number)
    }
}

/// The number of these digits, the lowest first.
#[tactic(auto, unfolding(crate::specs::inside::EventReading::number_of))]
fn number_of(digits: &[u8]) -> Option<u64>
    ensures { result ≡ reading.number_of digits.now }
{
    if digits.is_empty() {
        return Some(0);
    }
    let digit = digits[0];
    if digit < 129 || digit > 248 {
        return None;
    }
    let high = number_of(&digits[1..])?;
    high.checked_mul(120)?.checked_add(u64::from(digit - 129))
}
