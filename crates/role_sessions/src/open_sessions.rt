//! The table of the sessions that are open.

ghost use Rattle.std.specs.Prelude.{◌≡◌, [], IfOk, OnOk, OnErr};
ghost use Rattle.std.specs.FinMap as map;
ghost use Rattle.std.specs.Option.{option_copied};
ghost use Rattle.role_sessions.specs.inside.Changes.{changed_at, with_role, without_role};
ghost use Rattle.role_sessions.specs.Decisions.{relations_of, verdict};
ghost use Rattle.role_sessions.specs.Kept.{KeptAreRight, KeepsRight};
ghost use Rattle.role_sessions.specs.Listed.{listed_from};
ghost use Rattle.role_sessions.specs.inside.Remembered.{as_sessions};

use crate::open_session::OpenSession;
use crate::session::Session;
use crate::verdict::{Rule, Verdict};
use indexmap::IndexMap;
use rbac_state::Policy;
use std::alloc::{AllocError, Global};
use std::marker::Model;

/// The open sessions, by their ids, with the answers that they remember. Those of an earlier generation are forgotten.
#[derive(Drop, Debug)]
pub(crate) struct OpenSessions {
    sessions: IndexMap<u64, OpenSession>,
    generation: u64,
}

impl Model for OpenSessions {
    ghost use Rattle.role_sessions.specs.inside.Remembered.{OpenValue, open_code, open_value, IsTable};

    ghost Value = { OpenValue };

    ghost coded = { open_code };

    ghost view = { λ a. open_value a.generation a.sessions.entries };

    ghost invariant = { λ a. IsTable a.generation a.sessions.entries };
}

impl OpenSessions {
    pub(crate) fn new(alloc: Global) -> Self
        ensures sessions { result.sessions ≡ map.empty }
        ensures kept { result.kept ≡ [] }
    {
        OpenSessions {
            sessions: IndexMap::new(alloc),
            generation: 1,
        }
    }

    pub(crate) fn len(&self) -> usize
        ensures { result ≡ map.len self.now.sessions }
    {
        self.sessions.len()
    }

    pub(crate) fn get(&self, id: u64) -> Option<&Session>
        ensures { option_copied result ≡ map.get self.now.sessions id }
    {
        match self.sessions.get(&id) {
            Some(found) => Some(&found.session),
            None => None,
        }
    }

    pub(crate) fn insert(&mut self, id: u64, session: Session) -> Result<(), AllocError>
        ensures ok { OnOk result (self.new.sessions ≡ map.insert self.old.sessions id session) }
        ensures err { OnErr result (self.new ≡ self.old) }
        ensures kept { KeepsRight (as_sessions self.old) (as_sessions self.new) }
    {
        self.sessions.insert(id, OpenSession::new(session))?;
        Ok(())
    }

    pub(crate) fn remove(&mut self, id: u64)
        ensures sessions { self.new.sessions ≡ map.remove self.old.sessions id }
        ensures kept { KeepsRight (as_sessions self.old) (as_sessions self.new) }
    {
        let _removed = self.sessions.swap_remove(&id);
    }

    /// Makes the role the last active one of the session, and forgets its answers.
    pub(crate) fn activate(&mut self, id: u64, role: u16) -> Result<(), AllocError>
        ensures ok { OnOk result (self.new.sessions ≡ changed_at self.old.sessions id (with_role role)) }
        ensures err { OnErr result (self.new ≡ self.old) }
        ensures kept { KeepsRight (as_sessions self.old) (as_sessions self.new) }
    {
        let Some(found) = self.sessions.get_mut(&id) else {
            return Ok(());
        };
        found.activate(role)?;
        Ok(())
    }

    /// Takes the role out of the active ones of the session, and forgets its answers.
    pub(crate) fn drop_role(&mut self, id: u64, role: u16)
        ensures sessions { self.new.sessions ≡ changed_at self.old.sessions id (without_role role) }
        ensures kept { KeepsRight (as_sessions self.old) (as_sessions self.new) }
    {
        let Some(found) = self.sessions.get_mut(&id) else {
            return;
        };
        found.drop_role(role);
    }

    /// The decision on an access, which the session may remember.
    pub(crate) fn check(
        &mut self,
        policy: &Policy,
        id: u64,
        user: u32,
        operation: u16,
        object: u32,
    ) -> Verdict
        requires { KeptAreRight (relations_of policy.now) (as_sessions self.old) }
        ensures verdict { let found = map.get self.old.sessions id in
            result ≡ verdict (relations_of policy.now) found user operation object }
        ensures sessions { self.new.sessions ≡ self.old.sessions }
        ensures kept { KeptAreRight (relations_of policy.now) (as_sessions self.new) }
    {
        let generation = self.generation;
        let Some(found) = self.sessions.get_mut(&id) else {
            return Verdict::Deny(Rule::NoSession);
        };
        found.check(policy, generation, user, operation, object)
    }

    /// The first `most` of those with this id or a greater one, in the order of their ids, each with its user.
    pub(crate) fn listed_from(
        &self,
        alloc: Global,
        from: u64,
        most: usize,
    ) -> Result<Vec<(u64, u32)>, AllocError>
        ensures { IfOk result (λ listed. listed.items ≡ listed_from self.now.sessions from most) }
    {
        let mut listed: Vec<(u64, u32)> = self
            .sessions
            .iter()
            .map(|(id, found)| (*id, found.session.user()))
            .filter(|listed| from <= listed.0)
            .collect(alloc)?;
        listed.sort_unstable();
        listed.truncate(most);
        Ok(listed)
    }

    /// Forgets all answers.
    pub(crate) fn forget(&mut self)
        ensures sessions { self.new.sessions ≡ self.old.sessions }
        ensures kept { self.new.kept ≡ [] }
    {
        self.generation = self.generation.saturating_add(1);
    }
}
