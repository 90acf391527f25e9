//! Listings of two registries, as lines of clients: of one user most of them, of whole roles some.

use crate::deck::Deck;
use crate::digest::Digest;
use crate::line::Line;
use crate::registry::{Client, activate, lone_node, open, publish};
use crate::sample::{Sample, part};
use anyhow::{Context, Result};
use role_commands::Command;
use role_node::Node;
use std::alloc::Global;

/// So many registries, one after another.
const REGISTRIES: u32 = 2;

const ROLES: u16 = 400;

const USERS: u32 = 30_000;

const ROLES_OF_USER: u32 = 5;

const GRANTS_OF_ROLE: u32 = 150;

const OPERATIONS: u16 = 6;

const OBJECTS: u32 = 2_000;

/// So many objects each role is asked about.
const OBJECTS_OF_ROLE: u32 = 5;

const SESSIONS: u32 = 500;

const ROLES_OF_SESSION: u32 = 4;

/// A registry, its client, and what is drawn for it.
#[derive(Drop)]
struct Registry {
    alloc: Global,
    node: Node,
    client: Client,
    line: Line,
    sample: Sample,
    digest: Digest,
    /// All objects, to be drawn.
    objects: Deck,
    /// Each user's roles.
    roles_of: Vec<Vec<u16>>,
}

/// Does the job on the input of a seed.
pub fn run(alloc: Global, seed: u32, share: u32) -> Result<Digest> {
    let mut registry = Registry::new(alloc, seed)?;
    registry.list_often(part(USERS, share), part(SESSIONS, share))?;
    Ok(registry.into_digest())
}

impl Registry {
    /// What a seed gives, with an empty registry.
    fn new(alloc: Global, seed: u32) -> Result<Registry> {
        let objects = Deck::new(alloc, OBJECTS)?;
        Ok(Registry {
            alloc,
            node: lone_node(alloc, ROLES)?,
            client: Client::new(alloc),
            line: Line::new(alloc),
            sample: Sample::new(seed, 4),
            digest: Digest::new(),
            objects,
            roles_of: Vec::new(alloc),
        })
    }

    /// Begins with an empty registry and another client.
    fn begin(&mut self) -> Result<()> {
        self.node = lone_node(self.alloc, ROLES)?;
        self.client = Client::new(self.alloc);
        self.objects = Deck::new(self.alloc, OBJECTS)?;
        self.roles_of.clear();
        Ok(())
    }

    fn into_digest(self) -> Digest {
        let Registry { digest, .. } = self;
        digest
    }

    /// Lists all of one registry after another.
    fn list_often(&mut self, users: u32, sessions: u32) -> Result<()> {
        for _ in 0..REGISTRIES {
            self.begin()?;
            self.list_all(users, sessions)?;
        }
        Ok(())
    }

    fn list_all(&mut self, users: u32, sessions: u32) -> Result<()> {
        self.assign(users)?;
        self.grant()?;
        self.ask_of_users(users)?;
        self.ask_of_roles()?;
        self.ask_of_sessions(users, sessions)
    }

    fn publish(&mut self, command: Command) -> Result<()> {
        publish(&mut self.node, command, &mut self.digest)
    }

    /// Asks for an operation with these members.
    fn ask(&mut self, op: &str, members: &[(&str, u64)]) -> Result<()> {
        let line = self.line.write(op, members)?;
        self.client.say(&mut self.node, line, &mut self.digest)
    }

    /// Gives so many users their roles.
    fn assign(&mut self, users: u32) -> Result<()> {
        let mut roles = Deck::new(self.alloc, u32::from(ROLES))?;
        for user in 0..users {
            let mine = self.assign_to(user, &mut roles)?;
            self.roles_of.push(mine)?;
        }
        Ok(())
    }

    /// Gives a user roles of the deck: these.
    fn assign_to(&mut self, user: u32, roles: &mut Deck) -> Result<Vec<u16>> {
        let mut mine = Vec::new(self.alloc);
        roles.ready(ROLES_OF_USER);
        for _ in 0..ROLES_OF_USER {
            let role = roles.role(&mut self.sample);
            mine.push(role)?;
            self.publish(Command::Assign { user, role })?;
        }
        Ok(mine)
    }

    /// Gives the roles their permissions, those of a role on objects that differ.
    fn grant(&mut self) -> Result<()> {
        for role in 0..ROLES {
            self.objects.ready(GRANTS_OF_ROLE);
            for _ in 0..GRANTS_OF_ROLE {
                let operation = self.sample.role(OPERATIONS);
                let object = self.objects.deal(&mut self.sample);
                self.publish(Command::Grant {
                    role,
                    operation,
                    object,
                })?;
            }
        }
        Ok(())
    }

    /// The roles of each of so many users, of each eighth also the permissions, and of each eighth the operations on an
    /// object.
    fn ask_of_users(&mut self, users: u32) -> Result<()> {
        let mut deck = Deck::new(self.alloc, users)?;
        for number in 0..users {
            let user = deck.deal(&mut self.sample);
            self.ask_of_user(number, u64::from(user))?;
        }
        Ok(())
    }

    fn ask_of_user(&mut self, number: u32, user: u64) -> Result<()> {
        self.ask("assigned_roles", &[("user", user)])?;
        match number % 8 {
            0 => self.ask("user_permissions", &[("user", user)]),
            4 => {
                let object = u64::from(self.sample.below(OBJECTS));
                self.ask("user_operations", &[("user", user), ("object", object)])
            }
            _ => Ok(()),
        }
    }

    /// The users and permissions of each role, and its operations on some objects.
    fn ask_of_roles(&mut self) -> Result<()> {
        for role in 0..ROLES {
            self.ask_of_role(u64::from(role))?;
        }
        Ok(())
    }

    fn ask_of_role(&mut self, role: u64) -> Result<()> {
        self.ask("assigned_users", &[("role", role)])?;
        self.ask("role_permissions", &[("role", role)])?;
        self.objects.ready(OBJECTS_OF_ROLE);
        for _ in 0..OBJECTS_OF_ROLE {
            let object = u64::from(self.objects.deal(&mut self.sample));
            self.ask("role_operations", &[("role", role), ("object", object)])?;
        }
        Ok(())
    }

    /// The roles and the permissions of so many sessions, each of another of so many users.
    fn ask_of_sessions(&mut self, users: u32, sessions: u32) -> Result<()> {
        let mut deck = Deck::new(self.alloc, users)?;
        for _ in 0..sessions {
            let user = deck.deal(&mut self.sample);
            let session = self.open_for(user)?;
            self.ask("session_roles", &[("session", session)])?;
            self.ask("session_permissions", &[("session", session)])?;
        }
        Ok(())
    }

    /// Makes the user's first roles active.
    fn activate_roles(&mut self, session: u64, user: u32) -> Result<()> {
        let mine = self.roles_of.get(user as usize).context("no user")?;
        for role in mine.iter().take(ROLES_OF_SESSION as usize) {
            activate(&mut self.node, session, user, *role)?;
        }
        Ok(())
    }

    /// A session of the user, in which the user's first roles are active.
    fn open_for(&mut self, user: u32) -> Result<u64> {
        let session = open(&mut self.node, user)?;
        self.activate_roles(session, user)?;
        Ok(session)
    }
}
