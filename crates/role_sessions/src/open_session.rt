//! A session beside the answers that it remembers.

ghost use Rattle.std.specs.Prelude.{◌≡◌, Some, OnOk, OnErr};
ghost use Rattle.role_sessions.specs.Decisions.{relations_of, verdict};
ghost use Rattle.role_sessions.specs.inside.Changes.{with_role, without_role};
ghost use Rattle.role_sessions.specs.inside.Remembered.{RemembersNothing, RemembersRight, IsOfThePast};

use crate::answers::Answers;
use crate::session::Session;
use crate::verdict::{Rule, Verdict};
use rbac_state::Policy;
use std::alloc::AllocError;

/// An open session, with the answers that it remembers.
#[derive(Drop, Debug)]
pub(crate) struct OpenSession {
    pub(crate) session: Session,
    pub(crate) answers: Answers,
}

impl OpenSession {
    pub(crate) fn new(session: Session) -> Self
        ensures session { result.session ≡ session }
        ensures nothing { RemembersNothing result }
    {
        OpenSession {
            session,
            answers: Answers::none(),
        }
    }

    /// Makes the role the last active one, and forgets the answers.
    pub(crate) fn activate(&mut self, role: u16) -> Result<(), AllocError>
        ensures session { OnOk result (self.new.session ≡ with_role role self.old.session) }
        ensures nothing { OnOk result (RemembersNothing self.new) }
        ensures err { OnErr result (self.new ≡ self.old) }
    {
        self.session.activate(role)?;
        self.answers = Answers::none();
        Ok(())
    }

    /// Takes the role out of the active ones, and forgets the answers.
    pub(crate) fn drop_role(&mut self, role: u16)
        ensures session { self.new.session ≡ without_role role self.old.session }
        ensures nothing { RemembersNothing self.new }
    {
        self.session.drop_role(role);
        self.answers = Answers::none();
    }

    /// The decision on an access by this user: a remembered one of this generation, or else a new one, which is
    /// remembered. Nothing is remembered in the last generation.
    pub(crate) fn check(
        &mut self,
        policy: &Policy,
        generation: u64,
        user: u32,
        operation: u16,
        object: u32,
    ) -> Verdict
        requires { RemembersRight (relations_of policy.now) generation self.old }
        ensures verdict { result ≡ verdict (relations_of policy.now) (Some self.old.session) user operation object }
        ensures session { self.new.session ≡ self.old.session }
        ensures right { RemembersRight (relations_of policy.now) generation self.new }
        ensures past { IsOfThePast generation self.old → IsOfThePast generation self.new }
    {
        if !self.session.is_of(user) {
            return Verdict::Deny(Rule::NotYours);
        }
        if let Some(answer) = self.answers.find(generation, operation, object) {
            return answer;
        }
        let answer = self.session.verdict(policy, user, operation, object);
        if generation == u64::MAX {
            return answer;
        }
        self.answers.remember(generation, operation, object, answer);
        answer
    }
}
