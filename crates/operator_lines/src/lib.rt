//! What a node tells beside the clients' table, on the same port: how it stands, to operators; and decisions without a
//! session, to services.
//!
//! `specs/Requests.antt` is the table of these lines, `specs/Standings.antt` and `specs/Decisions.antt` what of a node
//! is told, and `specs/AnswerTexts.antt` says how each answer is written.
#![tactic(auto)]

mod answer;
mod decide;
mod decision;
mod decision_text;
mod fault;
mod laws;
mod member;
mod request;
mod rows;
mod standing;
mod text;

pub use answer::{JournalStanding, OperatorAnswer, PeerStanding, Status, SyncTimes};
pub use decision::{Access, Decision, decision_of, decisions_of, role_lists};
pub use fault::{OperatorFault, ServingFault};
pub use laws::{clients_know_none, lists_are_of_owners};
pub use member::OperatorMember;
pub use request::{MOST_ASKED, MOST_PLACE, OperatorRequest, read_operator};
pub use standing::{MOST_SESSIONS, NodeStanding, command_at, sessions_of, standing_of};
pub use text::{operator_text, refused_text};
