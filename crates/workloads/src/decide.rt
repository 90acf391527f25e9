//! Checks of accesses: lines of clients in 3,989 sessions of 1 to 64 active roles, no check twice, some two in nine of
//! them denied, with a command between them now and then.

use crate::accesses::{Access, Permissions};
use crate::deck::Deck;
use crate::digest::Digest;
use crate::line::Line;
use crate::registry::{Client, activate, lone_node, open, publish};
use crate::sample::{Sample, part};
use anyhow::{Context, Result};
use role_commands::Command;
use role_node::Node;
use std::alloc::{AllocError, Global};

const ROLES: u16 = 500;

const USERS: u32 = 20_000;

/// So many roles of a user, as a rule, and of each twentieth user with a session.
const ROLES_OF_USER: u32 = 6;

const ROLES_OF_WIDE_USER: u32 = 64;

/// So many roles have each popular permission.
const ROLES_OF_POPULAR: u32 = 300;

const SESSIONS: u32 = 3_989;

/// So many checks in each session.
const ROUNDS: u32 = 180;

/// One command comes for so many checks.
const CHECKS_FOR_COMMAND: u32 = 500;

/// A session, and whose it is.
#[derive(Clone, Copy)]
struct Session {
    id: u64,
    user: u32,
    /// So many of the user's first roles are active in it.
    active: u32,
}

/// What is drawn for a registry.
#[derive(Drop)]
struct Draws {
    sample: Sample,
    permissions: Permissions,
    /// All roles, to be drawn.
    roles: Deck,
    /// All users, to be drawn.
    users: Deck,
}

impl Draws {
    /// What a seed gives, for so many users.
    fn new(alloc: Global, seed: u32, users: u32) -> Result<Draws, AllocError> {
        let mut sample = Sample::new(seed, 1);
        let permissions = Permissions::new(alloc, &mut sample, ROLES)?;
        let roles = Deck::new(alloc, u32::from(ROLES))?;
        Ok(Draws {
            users: Deck::new(alloc, users)?,
            sample,
            permissions,
            roles,
        })
    }

    fn role(&mut self) -> u16 {
        self.roles.role(&mut self.sample)
    }

    fn user(&mut self) -> u32 {
        self.users.deal(&mut self.sample)
    }

    /// What is asked in a session in which these roles are active, in no order.
    fn accesses(&mut self, alloc: Global, active: &[u16]) -> Result<Vec<Access>, AllocError> {
        let mut drawn = Vec::with_capacity(alloc, ROUNDS as usize)?;
        self.permissions.begin_session();
        for number in 0..ROUNDS {
            drawn.push(self.permissions.draw(&mut self.sample, number, active))?;
        }
        self.sample.shuffle(&mut drawn);
        Ok(drawn)
    }
}

/// The registry of a seed, its client, and what is drawn for it.
#[derive(Drop)]
struct Registry {
    alloc: Global,
    node: Node,
    client: Client,
    line: Line,
    digest: Digest,
    draws: Draws,
    /// Each user's roles at the start.
    roles_of: Vec<Vec<u16>>,
}

/// Does the job on the input of a seed.
pub fn run(alloc: Global, seed: u32, share: u32) -> Result<Digest> {
    let users = part(USERS, share);
    let mut registry = Registry::new(alloc, seed, users)?;
    registry.check_all_of(users, part(SESSIONS, share))?;
    Ok(registry.into_digest())
}

impl Registry {
    /// A registry without commands, for so many users.
    fn new(alloc: Global, seed: u32, users: u32) -> Result<Registry> {
        let draws = Draws::new(alloc, seed, users)?;
        Ok(Registry {
            alloc,
            node: lone_node(alloc, ROLES)?,
            client: Client::new(alloc),
            line: Line::new(alloc),
            digest: Digest::new(),
            draws,
            roles_of: Vec::new(alloc),
        })
    }

    fn publish(&mut self, command: Command) -> Result<()> {
        publish(&mut self.node, command, &mut self.digest)
    }

    /// Gives so many users their roles.
    fn assign(&mut self, users: u32) -> Result<()> {
        for user in 0..users {
            let mine = self.assign_to(user)?;
            self.roles_of.push(mine)?;
        }
        Ok(())
    }

    /// Gives a user roles: these.
    fn assign_to(&mut self, user: u32) -> Result<Vec<u16>> {
        let mut mine = Vec::new(self.alloc);
        self.draws.roles.ready(ROLES_OF_USER);
        for _ in 0..ROLES_OF_USER {
            let role = self.draws.role();
            mine.push(role)?;
            self.publish(Command::Assign { user, role })?;
        }
        Ok(mine)
    }

    /// Gives the roles their permissions.
    fn grant(&mut self) -> Result<()> {
        for role in 0..ROLES {
            let common = self.draws.permissions.common(self.alloc, role)?;
            self.grant_each(role, &common)?;
        }
        let popular = self.draws.permissions.popular(self.alloc)?;
        self.grant_each_to_many(&popular)
    }

    fn grant_each(&mut self, role: u16, accesses: &[Access]) -> Result<()> {
        for access in accesses {
            self.grant_to(role, *access)?;
        }
        Ok(())
    }

    fn grant_each_to_many(&mut self, accesses: &[Access]) -> Result<()> {
        for access in accesses {
            self.grant_to_many(*access)?;
        }
        Ok(())
    }

    /// Gives a popular permission to so many roles.
    fn grant_to_many(&mut self, access: Access) -> Result<()> {
        self.draws.roles.ready(ROLES_OF_POPULAR);
        for _ in 0..ROLES_OF_POPULAR {
            let role = self.draws.role();
            self.grant_to(role, access)?;
        }
        Ok(())
    }

    fn grant_to(&mut self, role: u16, access: Access) -> Result<()> {
        let Access { operation, object } = access;
        self.publish(Command::Grant {
            role,
            operation,
            object,
        })
    }

    /// Opens so many sessions, each of another user.
    fn open_all(&mut self, sessions: u32) -> Result<Vec<Session>> {
        let mut opened = Vec::new(self.alloc);
        self.draws.users.ready(sessions);
        for number in 0..sessions {
            opened.push(self.open_one(number)?)?;
        }
        Ok(opened)
    }

    /// Opens the session of this number, of the next user. Each twentieth user gets as many roles as may be active.
    fn open_one(&mut self, number: u32) -> Result<Session> {
        let user = self.draws.user();
        let active = self.roles_to_activate(number, user)?;
        let id = open(&mut self.node, user)?;
        let session = Session { id, user, active };
        self.activate_roles(&session)?;
        Ok(session)
    }

    /// How many roles are to be active in the session of this number. Its user has as many from now on.
    fn roles_to_activate(&mut self, number: u32, user: u32) -> Result<u32> {
        if number % 20 == 0 {
            self.widen(user)?;
            return Ok(ROLES_OF_WIDE_USER);
        }
        Ok(1 + number % ROLES_OF_USER)
    }

    fn activate_roles(&mut self, session: &Session) -> Result<()> {
        let Session { id, user, active } = *session;
        let mine = self.roles_of.get(user as usize).context("no user")?;
        for role in mine.iter().take(active as usize) {
            activate(&mut self.node, id, user, *role)?;
        }
        Ok(())
    }

    fn into_digest(self) -> Digest {
        let Registry { digest, .. } = self;
        digest
    }

    /// Gives the users and the roles what they have, opens so many sessions, draws what is asked in each, and asks.
    fn check_all_of(&mut self, users: u32, sessions: u32) -> Result<()> {
        self.assign(users)?;
        self.grant()?;
        let sessions = self.open_all(sessions)?;
        let rounds = self.draw_rounds(&sessions)?;
        self.check_all(&sessions, &rounds)
    }

    /// Gives a user more roles, so that there are as many as may be active.
    fn widen(&mut self, user: u32) -> Result<()> {
        self.draws.roles.ready(ROLES_OF_WIDE_USER);
        for _ in 0..ROLES_OF_WIDE_USER {
            let role = self.draws.role();
            if self.gains(user, role)? {
                self.publish(Command::Assign { user, role })?;
            }
        }
        Ok(())
    }

    /// Whether the role is a further one of the user's, who has not too many. From now on it is one of them.
    fn gains(&mut self, user: u32, role: u16) -> Result<bool> {
        let mine = self.roles_of.get_mut(user as usize).context("no user")?;
        if mine.len() >= ROLES_OF_WIDE_USER as usize || mine.as_slice().contains(&role) {
            return Ok(false);
        }
        mine.push(role)?;
        Ok(true)
    }

    /// For each round what is asked in each session, in the order of the sessions.
    fn draw_rounds(&mut self, sessions: &[Session]) -> Result<Vec<Vec<Access>>> {
        let mut rounds = empty_rounds(self.alloc, sessions.len())?;
        self.deal_all(sessions, &mut rounds)?;
        Ok(rounds)
    }

    fn deal_all(&mut self, sessions: &[Session], rounds: &mut [Vec<Access>]) -> Result<()> {
        for session in sessions {
            let drawn = self.draw_for(session)?;
            deal(rounds, &drawn)?;
        }
        Ok(())
    }

    /// What is asked in a session.
    fn draw_for(&mut self, session: &Session) -> Result<Vec<Access>> {
        let mine = self.roles_of.get(session.user as usize).context("no user")?;
        let active = mine.get(..session.active as usize).context("no role")?;
        Ok(self.draws.accesses(self.alloc, active)?)
    }

    /// Asks all that was drawn, round by round.
    fn check_all(&mut self, sessions: &[Session], rounds: &[Vec<Access>]) -> Result<()> {
        let mut number = 0u32;
        self.draws.users.begin();
        for round in rounds {
            for (session, access) in sessions.iter().zip(round.iter()) {
                number = number.wrapping_add(1);
                self.check_numbered(number, session, access)?;
            }
        }
        Ok(())
    }

    /// The check of this number, and a command before it now and then.
    fn check_numbered(&mut self, number: u32, session: &Session, access: &Access) -> Result<()> {
        if number % CHECKS_FOR_COMMAND == 0 {
            self.change(number)?;
        }
        self.check(session, access)
    }

    /// Says that the operation is asked for, with these members.
    fn say(&mut self, op: &str, members: &[(&str, u64)]) -> Result<()> {
        let line = self.line.write(op, members)?;
        self.client.say(&mut self.node, line, &mut self.digest)
    }

    /// A command about another user each time. Two of three take away one of the user's roles, and one gives a role
    /// that the user does not have.
    fn change(&mut self, number: u32) -> Result<()> {
        let user = self.draws.user();
        let (op, role) = if number % 3 == 0 {
            ("assign", self.role_to_give(user)?)
        } else {
            ("deassign", self.role_to_take(user)?)
        };
        self.say(op, &[("user", u64::from(user)), ("role", u64::from(role))])
    }

    /// A role that the user does not have.
    fn role_to_give(&mut self, user: u32) -> Result<u16> {
        let mine = self.roles_of.get(user as usize).context("no user")?;
        let count = u32::try_from(mine.len())?;
        self.draws.roles.ready(count.saturating_add(1));
        let mut role = self.draws.role();
        for _ in 0..count {
            if mine.as_slice().contains(&role) {
                role = self.draws.role();
            }
        }
        Ok(role)
    }

    /// One of the user's roles.
    fn role_to_take(&mut self, user: u32) -> Result<u16> {
        let mine = self.roles_of.get(user as usize).context("no user")?;
        let place = self.draws.sample.below(u32::try_from(mine.len())?);
        mine.get(place as usize).copied().context("no role")
    }

    /// A check of the access in the session. Of a hundred one is asked for another user than the session's.
    fn check(&mut self, session: &Session, access: &Access) -> Result<()> {
        let asking = if self.draws.sample.below(100) == 0 {
            session.user.wrapping_add(1)
        } else {
            session.user
        };
        let members = [
            ("session", session.id),
            ("user", u64::from(asking)),
            ("operation", u64::from(access.operation)),
            ("object", u64::from(access.object)),
        ];
        self.say("check", &members)
    }
}

/// The rounds, with room for what is asked in so many sessions.
fn empty_rounds(alloc: Global, sessions: usize) -> Result<Vec<Vec<Access>>, AllocError> {
    let mut rounds = Vec::new(alloc);
    for _ in 0..ROUNDS {
        rounds.push(Vec::with_capacity(alloc, sessions)?)?;
    }
    Ok(rounds)
}

/// Puts one of the accesses into each round.
fn deal(rounds: &mut [Vec<Access>], accesses: &[Access]) -> Result<(), AllocError> {
    for (round, access) in rounds.iter_mut().zip(accesses.iter()) {
        round.push(*access)?;
    }
    Ok(())
}
