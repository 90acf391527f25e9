//! A decision without a session.

ghost use Rattle.std.specs.Prelude.{◌≡◌};
ghost use Rattle.role_sessions.specs.Decisions.{relations_of, decided};

use crate::verdict::{Rule, Verdict};
use rbac_state::Policy;

/// The decision on an access in which just these roles of the user would be active, in this order. There is no session,
/// nothing is remembered, and it takes no memory.
pub fn decide(policy: &Policy, user: u32, roles: &[u16], operation: u16, object: u32) -> Verdict
    ensures { result ≡ decided (relations_of policy.now) roles.now user operation object }
{
    if roles.is_empty() {
        return Verdict::Deny(Rule::NoActiveRole);
    }
    match policy.first_granting(user, roles, operation, object) {
        Some(role) => Verdict::Allow(role),
        None => {
            if policy.has_one_of(user, roles) {
                Verdict::Deny(Rule::NotPermitted)
            } else {
                Verdict::Deny(Rule::NoneAssigned)
            }
        }
    }
}
