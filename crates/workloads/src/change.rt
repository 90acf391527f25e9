//! Commands at one node whose policy gets large: assignments in descending order, then in random order, and then a mix
//! with clears of roles that have no pair or, mostly, some 1,100; at last clears of two roles that have 66,000 each.

use crate::digest::Digest;
use crate::registry::{lone_node, publish};
use crate::sample::{Sample, part};
use anyhow::Result;
use role_commands::Command;
use role_node::{Node, Question};
use std::alloc::Global;

/// So many roles have users. The first have very many.
const ROLES: u16 = 200;

const LARGE_ROLES: u16 = 2;

/// All roles: the rest have none.
const ALL_ROLES: u16 = 256;

const USERS: u32 = 400_000;

/// So many assignments come in descending order of the users, and so many in random order.
const DESCENDING: u32 = 120_000;

const RANDOM: u32 = 230_000;

const MIXED: u32 = 250_000;

/// The node, what is drawn, and what was assigned and granted.
#[derive(Drop)]
struct Changes {
    node: Node,
    sample: Sample,
    given: Vec<Command>,
    digest: Digest,
}

impl Changes {
    /// Publishes a command by which a user or a permission gets a role, and remembers it.
    fn give(&mut self, command: Command) -> Result<()> {
        self.given.push(command)?;
        self.publish(command)
    }

    fn publish(&mut self, command: Command) -> Result<()> {
        publish(&mut self.node, command, &mut self.digest)
    }

    fn role(&mut self) -> u16 {
        if self.sample.below(5) < 2 {
            self.sample.role(LARGE_ROLES)
        } else {
            self.sample.role(ROLES)
        }
    }

    fn assign(&mut self, user: u32) -> Result<()> {
        let role = self.role();
        self.give(Command::Assign { user, role })
    }

    fn grant(&mut self) -> Result<()> {
        let role = self.sample.role(ROLES);
        let operation = self.sample.role(16);
        let object = self.sample.below(50_000);
        self.give(Command::Grant {
            role,
            operation,
            object,
        })
    }

    /// Takes back something that was given at some time.
    fn take_back(&mut self) -> Result<()> {
        match self.draw_given().and_then(taking_back) {
            Some(command) => self.publish(command),
            None => Ok(()),
        }
    }

    /// One of the commands that were given.
    fn draw_given(&mut self) -> Option<Command> {
        let count = u32::try_from(self.given.len()).ok()?;
        let index = self.sample.below(count);
        self.given.get(index as usize).copied()
    }

    /// One command of the mix: among a thousand one clear of a role with no pair, and one of another small role.
    fn mixed(&mut self) -> Result<()> {
        let user = self.sample.below(USERS);
        let drawn = self.sample.below(1_000);
        match drawn {
            0 => self.clear_drawn(ROLES, ALL_ROLES - ROLES),
            1 => self.clear_drawn(LARGE_ROLES, ROLES - LARGE_ROLES),
            2..450 => self.assign(user),
            450..550 => self.grant(),
            _ => self.take_back(),
        }
    }

    /// Clears one of so many roles from this one on.
    fn clear_drawn(&mut self, first: u16, count: u16) -> Result<()> {
        let role = first.saturating_add(self.sample.role(count));
        self.publish(Command::Clear { role })
    }

    /// Assigns roles to so many users, in descending order of the users, and grants something with each eighth.
    fn give_descending(&mut self, count: u32) -> Result<()> {
        for number in 0..count {
            self.give_numbered(number)?;
        }
        Ok(())
    }

    fn give_numbered(&mut self, number: u32) -> Result<()> {
        self.assign(USERS.saturating_sub(number))?;
        if number % 8 == 0 {
            return self.grant();
        }
        Ok(())
    }

    /// Makes so many assignments in random order.
    fn give_at_random(&mut self, count: u32) -> Result<()> {
        for _ in 0..count {
            let user = self.sample.below(USERS);
            self.assign(user)?;
        }
        Ok(())
    }

    /// So many commands of the mix.
    fn mix(&mut self, count: u32) -> Result<()> {
        for _ in 0..count {
            self.mixed()?;
        }
        Ok(())
    }

    /// Gives, changes and clears, and looks at all before and after the last.
    fn make_all(&mut self, share: u32) -> Result<()> {
        self.give_descending(part(DESCENDING, share))?;
        self.give_at_random(part(RANDOM, share))?;
        self.mix(part(MIXED, share))?;
        self.review()?;
        self.clear_large_roles()?;
        self.review()
    }

    fn into_digest(self) -> Digest {
        let Changes { digest, .. } = self;
        digest
    }

    fn clear_large_roles(&mut self) -> Result<()> {
        for role in 0..LARGE_ROLES {
            self.publish(Command::Clear { role })?;
        }
        Ok(())
    }

    /// Adds who has each role, and what each may do, to the digest.
    fn review(&mut self) -> Result<()> {
        for role in 0..ALL_ROLES {
            self.ask(Question::AssignedUsers(role))?;
            self.ask(Question::RolePermissions(role))?;
        }
        Ok(())
    }

    fn ask(&mut self, question: Question) -> Result<()> {
        let answer = self.node.ask(question)?;
        self.digest.answer(&answer);
        Ok(())
    }
}

/// The command that takes back what another gave.
fn taking_back(given: Command) -> Option<Command> {
    match given {
        Command::Assign { user, role } => Some(Command::Deassign { user, role }),
        Command::Grant {
            role,
            operation,
            object,
        } => Some(Command::Revoke {
            role,
            operation,
            object,
        }),
        _ => None,
    }
}

/// Does the job on the input of a seed.
pub fn run(alloc: Global, seed: u32, share: u32) -> Result<Digest> {
    let mut changes = Changes {
        node: lone_node(alloc, ALL_ROLES)?,
        sample: Sample::new(seed, 3),
        given: Vec::new(alloc),
        digest: Digest::new(),
    };
    changes.make_all(share)?;
    Ok(changes.into_digest())
}
