//! What a client says to a node and what it hears: one JSON object a line.
//!
//! `specs/Requests.antt` is the table of the operations and their members, and `specs/AnswerTexts.antt` says how each
//! answer is written.
#![tactic(auto)]

mod answer;
mod bytes;
mod fault;
mod flat;
mod json_value;
mod line;
mod member;
mod numbers;
mod operation;
mod plain_line;
mod request;
mod rows;

pub use answer::{ClientAnswer, answer_text};
pub use fault::LineFault;
pub use json_value::read_json;
pub use member::{Member, MemberFault, member_number};
pub use request::{MOST_LINE_BYTES, Request, RequestReader, read_request};
