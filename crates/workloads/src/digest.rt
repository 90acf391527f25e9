//! A digest of what was answered.

use link_frames::{Kind, Message};
use quorum_sizes::NodeName;
use role_commands::{Command, encode};
use role_node::{Answer, Node, Reply, Verdict};
use std::alloc::{AllocError, Global};
use std::fmt::Display;
use std::hash::{FoldHasher, Hasher};

/// A digest of numbers, texts, replies and answers, in their order.
#[derive(Drop)]
pub struct Digest {
    hasher: FoldHasher,
}

impl Digest {
    /// The digest of nothing.
    pub fn new() -> Digest {
        Digest {
            hasher: FoldHasher::default(),
        }
    }

    /// Adds a number.
    pub fn number(&mut self, number: u64) {
        self.hasher.write_u64(number);
    }

    /// Adds a text or other bytes, and how many they are.
    pub fn bytes(&mut self, bytes: &[u8]) {
        self.number(bytes.len() as u64);
        self.hasher.write(bytes);
    }

    /// Adds a command.
    pub fn command(&mut self, command: &Command) {
        self.hasher.write(&encode(command));
    }

    /// Adds a message.
    pub fn message(&mut self, message: &Message) {
        let kind = match message.kind {
            Kind::Send => 1,
            Kind::Echo => 2,
            Kind::Ready => 3,
        };
        let owner = u64::from(message.owner.index());
        self.number(kind << 40 | owner << 32 | u64::from(message.place));
        self.command(&message.command);
    }

    /// Adds what a node replied.
    pub fn reply(&mut self, reply: &Reply) {
        match reply {
            Reply::Idle => self.number(1),
            Reply::Issued(message) => {
                self.number(2);
                self.message(message);
            }
            Reply::Counted {
                send,
                delivered,
                from,
                to,
            } => {
                self.counted(send, delivered);
                self.number(u64::from(*from) << 32 | u64::from(*to));
            }
            Reply::Session(session) => {
                self.number(5);
                self.number(*session);
            }
            Reply::Done => self.number(6),
        }
    }

    fn counted(&mut self, send: &Option<Message>, delivered: &Option<Command>) {
        self.number(3);
        if let Some(message) = send {
            self.message(message);
        }
        if let Some(command) = delivered {
            self.number(4);
            self.command(command);
        }
    }

    /// Adds what a node answered, each list with its length.
    pub fn answer(&mut self, answer: &Answer) {
        match answer {
            Answer::Verdict(Verdict::Allow(role)) => self.number(u64::from(*role)),
            Answer::Verdict(Verdict::Deny(rule)) => self.bytes(rule.code().as_bytes()),
            Answer::Users(users) => self.users(users.as_slice()),
            Answer::Roles(numbers) | Answer::Operations(numbers) => {
                self.numbers(numbers.as_slice());
            }
            Answer::Permissions(permissions) => self.permissions(permissions.as_slice()),
        }
    }

    fn users(&mut self, users: &[u32]) {
        self.number(users.len() as u64);
        for user in users {
            self.number(u64::from(*user));
        }
    }

    fn numbers(&mut self, numbers: &[u16]) {
        self.number(numbers.len() as u64);
        for number in numbers {
            self.number(u64::from(*number));
        }
    }

    fn permissions(&mut self, permissions: &[(u16, u32)]) {
        self.number(permissions.len() as u64);
        for (operation, object) in permissions {
            self.number(u64::from(*operation) << 32 | u64::from(*object));
        }
    }

    /// Adds the commands that were delivered to a node in the stream of an owner, and how many they are.
    pub fn stream(&mut self, node: &Node, owner: NodeName) {
        if !node.config().roles().sizes().has(owner) {
            return;
        }
        let end = node.reach(owner);
        self.number(u64::from(end));
        for place in 0..end {
            if let Some(command) = node.command(owner, place) {
                self.command(&command);
            }
        }
    }

    /// Adds the text of a refusal.
    ///
    /// # Errors
    ///
    /// Only for want of memory.
    pub fn refusal<F: Display>(&mut self, alloc: Global, fault: &F) -> Result<(), AllocError> {
        let text = format!(in alloc; "{fault}")?;
        self.bytes(text.as_bytes());
        Ok(())
    }

    /// The digest of what was added.
    pub fn value(&self) -> u64 {
        self.hasher.finish()
    }
}
