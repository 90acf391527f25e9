//! The sessions of a node: opened, changed, closed, checked and listed.

ghost use Rattle.std.specs.Prelude.{◌≡◌, ◌+◌, ◌<◌, ◌++◌, [], ◌∷◌, IfOk, IsSomeAnd, OnOk, OnErr};
ghost use Rattle.std.specs.FinMap as map;
ghost use Rattle.rbac_state.specs.Policies.{permission_cmp};
ghost use Rattle.rbac_state.specs.Listings.{IsListing};
ghost use Rattle.role_sessions.specs.declared.event.ClientEvent.TheVariants.{Open, Activate, DropRole, Close};
ghost use Rattle.role_sessions.specs.Sessions.{state_of, Happened};
ghost use Rattle.role_sessions.specs.Decisions.{relations_of, counted_roles, SessionMay, verdict};
ghost use Rattle.role_sessions.specs.Refusals.{open_due, activate_due, drop_due, close_due};
ghost use Rattle.role_sessions.specs.Refusals.{listing_due, AnswersExactly, AnswersDue};
ghost use Rattle.role_sessions.specs.Kept.{KeptAreRight, KeepsRight};
ghost use Rattle.role_sessions.specs.Listed.{listed_from};

use crate::faults::{EndFault, SessionFault};
use crate::open_sessions::OpenSessions;
use crate::session::Session;
use crate::verdict::Verdict;
use rbac_state::{Permission, Policy};
use std::alloc::{AllocError, Global};
use std::marker::Model;

/// The most sessions that are open at once.
const MOST_SESSIONS: usize = 4096;

/// The sessions of a cluster's users. Contracts see them as the open ones with their active roles,
/// the count of all that were opened, and the answers that are kept between checks.
#[derive(Drop, Debug)]
pub struct Sessions {
    opened: u64,
    open_sessions: OpenSessions,
    alloc: Global,
}

impl Model for Sessions {
    ghost use Rattle.role_sessions.specs.Kept.{SessionsValue};
    ghost use Rattle.role_sessions.specs.inside.Codes.{sessions_code};

    ghost Value = { SessionsValue };

    ghost coded = { sessions_code };

    ghost view = { λ a. record {
      state = record { opened = a.opened; open_sessions = a.open_sessions.sessions };
      kept = a.open_sessions.kept;
    } };
}

impl Sessions {
    /// No session is open, and none was ever opened. It takes no memory.
    pub fn new(alloc: Global) -> Self
        ensures state { result.state ≡ state_of [] }
        ensures kept { result.kept ≡ [] }
    {
        Sessions {
            opened: 0,
            open_sessions: OpenSessions::new(alloc),
            alloc,
        }
    }

    /// How many sessions were opened so far, closed ones included.
    pub fn opened(&self) -> u64
        ensures { result ≡ self.now.state.opened }
    {
        self.opened
    }

    /// How many sessions are open.
    pub fn open_count(&self) -> usize
        ensures { result ≡ map.len self.now.state.open_sessions }
    {
        self.open_sessions.len()
    }

    /// The open sessions with this id or a greater one, each with its user, in the order of their ids: the first `most`
    /// of them, or all where they are fewer.
    ///
    /// # Errors
    ///
    /// Only for want of memory.
    pub fn open_from(&self, from: u64, most: usize) -> Result<Vec<(u64, u32)>, AllocError>
        ensures { IfOk result (λ listed. listed.items ≡ listed_from self.now.state.open_sessions from most) }
    {
        self.open_sessions.listed_from(self.alloc, from, most)
    }

    /// The refusal of [`open`](Sessions::open) now, memory apart.
    ///
    /// # Errors
    ///
    /// 4,096 sessions are open.
    pub fn may_open(&self) -> Result<(), SessionFault>
        ensures { AnswersExactly (open_due self.now.state) result }
    {
        if self.open_sessions.len() >= MOST_SESSIONS {
            return Err(SessionFault::TooManySessions);
        }
        Ok(())
    }

    /// Opens a session of this user, with no active roles, and gives its id: 1 for the first, and one
    /// more each time.
    ///
    /// # Errors
    ///
    /// 4,096 sessions are open; then want of memory. The sessions stay as they were.
    pub fn open(&mut self, user: u32) -> Result<u64, SessionFault>
        requires { self.old.state.opened < u64.MAX }
        ensures due { AnswersDue (open_due self.old.state) result }
        ensures id { IfOk result (λ id. id ≡ self.old.state.opened + 1) }
        ensures ok { OnOk result (Happened (Open user) self.old.state self.new.state) }
        ensures err { OnErr result (self.new ≡ self.old) }
        ensures kept { KeepsRight self.old self.new }
    {
        self.may_open()?;
        let id = self.opened + 1;
        let Ok(()) = self
            .open_sessions
            .insert(id, Session::new(self.alloc, user))
        else {
            return Err(SessionFault::Memory);
        };
        self.opened = id;
        Ok(id)
    }

    /// The first refusal of [`activate`](Sessions::activate) now, memory apart.
    ///
    /// # Errors
    ///
    /// Those of `activate`, without want of memory.
    pub fn may_activate(
        &self,
        policy: &Policy,
        session: u64,
        user: u32,
        role: u16,
    ) -> Result<(), SessionFault>
        ensures { let due = activate_due policy.now.table (relations_of policy.now) self.now.state session user role in
            AnswersExactly due result }
    {
        match self.open_sessions.get(session) {
            Some(found) => found.may_activate(policy, user, role),
            None => Err(SessionFault::NoSession),
        }
    }

    /// Activates the role in the user's session, as the last of its active roles.
    ///
    /// # Errors
    ///
    /// The first of these that holds: the session isn't open, it is another user's, the role isn't in
    /// the table, the user isn't assigned to it, it is active already, and 64 roles are active; then
    /// want of memory. The sessions stay as they were.
    pub fn activate(
        &mut self,
        policy: &Policy,
        session: u64,
        user: u32,
        role: u16,
    ) -> Result<(), SessionFault>
        ensures due { let relations = relations_of policy.now in
            AnswersDue (activate_due policy.now.table relations self.old.state session user role) result }
        ensures ok { OnOk result (Happened (Activate session user role) self.old.state self.new.state) }
        ensures err { OnErr result (self.new ≡ self.old) }
        ensures kept { KeepsRight self.old self.new }
    {
        self.may_activate(policy, session, user, role)?;
        let Ok(()) = self.open_sessions.activate(session, role) else {
            return Err(SessionFault::Memory);
        };
        Ok(())
    }

    /// The first refusal of [`drop_role`](Sessions::drop_role) now.
    ///
    /// # Errors
    ///
    /// Those of `drop_role`.
    pub fn may_drop(&self, session: u64, user: u32, role: u16) -> Result<(), EndFault>
        ensures { AnswersExactly (drop_due self.now.state session user role) result }
    {
        match self.open_sessions.get(session) {
            Some(found) => found.may_drop(user, role),
            None => Err(EndFault::NoSession),
        }
    }

    /// Takes the role out of the active ones of the user's session, also where the user is no longer
    /// assigned to it. It takes no memory.
    ///
    /// # Errors
    ///
    /// The first of these that holds: the session isn't open, it is another user's, and the role isn't
    /// active in it. The sessions stay as they were.
    pub fn drop_role(&mut self, session: u64, user: u32, role: u16) -> Result<(), EndFault>
        ensures due { AnswersExactly (drop_due self.old.state session user role) result }
        ensures ok { OnOk result (Happened (DropRole session user role) self.old.state self.new.state) }
        ensures err { OnErr result (self.new ≡ self.old) }
        ensures kept { KeepsRight self.old self.new }
    {
        self.may_drop(session, user, role)?;
        self.open_sessions.drop_role(session, role);
        Ok(())
    }

    /// The first refusal of [`close`](Sessions::close) now.
    ///
    /// # Errors
    ///
    /// Those of `close`.
    pub fn may_close(&self, session: u64, user: u32) -> Result<(), EndFault>
        ensures { AnswersExactly (close_due self.now.state session user) result }
    {
        match self.open_sessions.get(session) {
            Some(found) => found.may_close(user),
            None => Err(EndFault::NoSession),
        }
    }

    /// Closes the user's session. Its id is never used again. It takes no memory.
    ///
    /// # Errors
    ///
    /// The first of these that holds: the session isn't open, and it is another user's. The sessions
    /// stay as they were.
    pub fn close(&mut self, session: u64, user: u32) -> Result<(), EndFault>
        ensures due { AnswersExactly (close_due self.old.state session user) result }
        ensures ok { OnOk result (Happened (Close session user) self.old.state self.new.state) }
        ensures err { OnErr result (self.new ≡ self.old) }
        ensures kept { KeepsRight self.old self.new }
    {
        self.may_close(session, user)?;
        self.open_sessions.remove(session);
        Ok(())
    }

    /// The decision on an access: the first denial that holds, and where none does the first role, in
    /// the order of activation, that counts and has the permission. It never fails and takes no
    /// memory. Only answers that were kept between checks may change.
    pub fn check(
        &mut self,
        policy: &Policy,
        session: u64,
        user: u32,
        operation: u16,
        object: u32,
    ) -> Verdict
        requires { KeptAreRight (relations_of policy.now) self.old }
        ensures verdict { let found = map.get self.old.state.open_sessions session in
            result ≡ verdict (relations_of policy.now) found user operation object }
        ensures state { self.new.state ≡ self.old.state }
        ensures kept { KeptAreRight (relations_of policy.now) self.new }
    {
        self.open_sessions
            .check(policy, session, user, operation, object)
    }

    /// The roles that count in the session, in the order of their activation.
    ///
    /// # Errors
    ///
    /// The session isn't open; then want of memory.
    pub fn session_roles(&self, policy: &Policy, session: u64) -> Result<Vec<u16>, SessionFault>
        ensures due { AnswersDue (listing_due self.now.state session) result }
        ensures roles { IfOk result (λ roles. IsSomeAnd (map.get self.now.state.open_sessions session) (λ found.
            roles.items ≡ counted_roles (relations_of policy.now) found)) }
    {
        let Some(found) = self.open_sessions.get(session) else {
            return Err(SessionFault::NoSession);
        };
        match found.counted(policy) {
            Ok(roles) => Ok(roles),
            Err(_) => Err(SessionFault::Memory),
        }
    }

    /// What some role that counts in the session may do, in ascending order of the operation and then
    /// of the object.
    ///
    /// # Errors
    ///
    /// The session isn't open; then want of memory.
    pub fn session_permissions(
        &self,
        policy: &Policy,
        session: u64,
    ) -> Result<Vec<Permission>, SessionFault>
        ensures due { AnswersDue (listing_due self.now.state session) result }
        ensures permissions { IfOk result (λ permissions.
            IsSomeAnd (map.get self.now.state.open_sessions session) (λ found.
            IsListing permission_cmp (λ p. SessionMay (relations_of policy.now) found p.0 p.1) permissions.items)) }
    {
        let Some(found) = self.open_sessions.get(session) else {
            return Err(SessionFault::NoSession);
        };
        match found.permissions(policy) {
            Ok(permissions) => Ok(permissions),
            Err(_) => Err(SessionFault::Memory),
        }
    }

    /// Forgets the answers that were kept between checks. It changes no answer.
    pub fn forget(&mut self)
        ensures state { self.new.state ≡ self.old.state }
        ensures kept { self.new.kept ≡ [] }
    {
        self.open_sessions.forget();
    }
}
