//! A session: its user and its active roles.

ghost use Rattle.std.specs.Prelude.{◌≡◌, ◌++◌, [], ◌∷◌, ◌==◌, ◌&&◌, not, find, Some, OnOk, OnErr, IfOk};
ghost use Rattle.std.specs.List.{list_any};
ghost use Rattle.rbac_state.specs.Policies.{permission_cmp};
ghost use Rattle.rbac_state.specs.Listings.{IsListing};
ghost use Rattle.role_sessions.specs.Decisions.{relations_of, counted_roles, SessionMay, verdict};
ghost use Rattle.role_sessions.specs.Refusals.{is_active, activate_in, drop_in, close_in, AnswersExactly};
ghost use Rattle.role_sessions.specs.inside.Changes.{with_role, without_role};

use crate::faults::{EndFault, SessionFault};
use crate::verdict::{Rule, Verdict};
use rbac_state::{Permission, Policy};
use std::alloc::{AllocError, Global};
use std::marker::Model;

/// The most roles that are active in a session at once.
const MOST_ACTIVE_ROLES: usize = 64;

/// An open session: its user, and the roles that are active in it, in the order of their activation.
#[derive(Drop, Debug)]
pub(crate) struct Session {
    user: u32,
    active: Vec<u16>,
}

impl Model for Session {
    ghost use Rattle.role_sessions.specs.Sessions as seen;
    ghost use Rattle.role_sessions.specs.inside.Codes.{session_code};

    ghost Value = { seen.Session };

    ghost coded = { session_code };

    ghost view = { λ a. record { user = a.user; active = a.active.items } };
}

impl Session {
    /// A session of this user with no active roles. It takes no memory.
    pub(crate) fn new(alloc: Global, user: u32) -> Self
        ensures { result ≡ record { user = user; active = [] } }
    {
        Session {
            user,
            active: Vec::new(alloc),
        }
    }

    /// The session's user.
    pub(crate) fn user(&self) -> u32
        ensures { result ≡ self.now.user }
    {
        self.user
    }

    /// Whether the session is this user's.
    pub(crate) fn is_of(&self, user: u32) -> bool
        ensures { result ≡ (self.now.user == user) }
    {
        self.user == user
    }

    fn is_active(&self, role: u16) -> bool
        ensures { result ≡ is_active self.now role }
    {
        self.active.contains(&role)
    }

    /// The first refusal of an activation.
    pub(crate) fn may_activate(
        &self,
        policy: &Policy,
        user: u32,
        role: u16,
    ) -> Result<(), SessionFault>
        ensures { let due = activate_in policy.now.table (relations_of policy.now) (Some self.now) user role in
            AnswersExactly due result }
    {
        if self.user != user {
            return Err(SessionFault::NotYours);
        }
        if policy.roles().owner(role).is_none() {
            return Err(SessionFault::NoSuchRole);
        }
        if !policy.is_assigned(user, role) {
            return Err(SessionFault::NotAssigned);
        }
        if self.is_active(role) {
            return Err(SessionFault::AlreadyActive);
        }
        if self.active.len() >= MOST_ACTIVE_ROLES {
            return Err(SessionFault::TooManyRoles);
        }
        Ok(())
    }

    /// The first refusal of a drop.
    pub(crate) fn may_drop(&self, user: u32, role: u16) -> Result<(), EndFault>
        ensures { AnswersExactly (drop_in (Some self.now) user role) result }
    {
        if self.user != user {
            return Err(EndFault::NotYours);
        }
        if !self.is_active(role) {
            return Err(EndFault::NotActive);
        }
        Ok(())
    }

    /// The first refusal of a close.
    pub(crate) fn may_close(&self, user: u32) -> Result<(), EndFault>
        ensures { AnswersExactly (close_in (Some self.now) user) result }
    {
        if self.user != user {
            return Err(EndFault::NotYours);
        }
        Ok(())
    }

    /// Makes the role the last active one.
    pub(crate) fn activate(&mut self, role: u16) -> Result<(), AllocError>
        ensures ok { OnOk result (self.new ≡ with_role role self.old) }
        ensures err { OnErr result (self.new ≡ self.old) }
    {
        self.active.push(role)?;
        Ok(())
    }

    /// Takes the role out of the active ones.
    pub(crate) fn drop_role(&mut self, role: u16)
        ensures { self.new ≡ without_role role self.old }
    {
        self.active.retain(
            |active: &u16| -> bool
                ensures { result ≡ not (active.now == role) }
            { *active != role },
        );
    }

    /// The decision on an access by this user.
    pub(crate) fn verdict(&self, policy: &Policy, user: u32, operation: u16, object: u32) -> Verdict
        ensures { result ≡ verdict (relations_of policy.now) (Some self.now) user operation object }
    {
        if self.user != user {
            return Verdict::Deny(Rule::NotYours);
        }
        if self.active.is_empty() {
            return Verdict::Deny(Rule::NoActiveRole);
        }
        match self.granting(policy, operation, object) {
            Some(role) => Verdict::Allow(role),
            None => {
                if self.counts(policy) {
                    Verdict::Deny(Rule::NotPermitted)
                } else {
                    Verdict::Deny(Rule::NoneAssigned)
                }
            }
        }
    }

    /// Whether some role counts.
    fn counts(&self, policy: &Policy) -> bool
        ensures { result ≡ list_any ((relations_of policy.now).assigned self.now.user) self.now.active }
    {
        self.active
            .iter()
            .any(|role| policy.is_assigned(self.user, *role))
    }

    /// The first active role that counts and has the permission.
    fn granting(&self, policy: &Policy, operation: u16, object: u32) -> Option<u16>
        ensures { let relations = relations_of policy.now in
            result ≡ find
            (λ role. relations.assigned self.now.user role && relations.granted operation object role) self.now.active }
    {
        policy.first_granting(self.user, &self.active, operation, object)
    }

    /// The roles that count, in the order of their activation.
    pub(crate) fn counted(&self, policy: &Policy) -> Result<Vec<u16>, AllocError>
        ensures { IfOk result (λ roles. roles.items ≡ counted_roles (relations_of policy.now) self.now) }
    {
        self.active
            .iter()
            .copied()
            .filter(|role| policy.is_assigned(self.user, *role))
            .collect(*self.active.allocator())
    }

    /// What some role that counts may do, in ascending order.
    pub(crate) fn permissions(&self, policy: &Policy) -> Result<Vec<Permission>, AllocError>
        ensures { IfOk result (λ permissions.
            IsListing permission_cmp (λ p. SessionMay (relations_of policy.now) self.now p.0 p.1) permissions.items) }
    {
        let counted = self.counted(policy)?;
        policy.permissions_of(&counted)
    }
}
