//! What a line says of the members that operations have.

ghost use Rattle.std.specs.Prelude.{◌≡◌, ◌^◌, ◌-◌, Some, option_map};
ghost use Rattle.serde_json.specs.Data.{Data, Members, no_members, object, put};
ghost use Rattle.serde_json.specs.Find.{as_str};
ghost use Rattle.serde_json.specs.View.{view};
ghost use Rattle.client_lines.specs.Members.{number_in};
ghost use Rattle.client_lines.specs.inside.Says.{Says, IsScalarOf};

use crate::member::{Member, MemberFault, member_number};
use serde_json::Value;

/// A value that is no array and no object.
#[derive(Clone, Copy, Debug, PartialEq, Eq)]
pub enum Scalar<'a> {
    Text(&'a str),
    /// A whole number from 0.
    Whole(u64),
    /// True, false or null.
    Other,
}

impl<'a> Scalar<'a> {
    fn text(self) -> Option<&'a str>
        ensures { (d : Data) → IsScalarOf self.entry d → option_map (λ s. s.now) result ≡ as_str d }
    {
        match self {
            Scalar::Text(text) => Some(text),
            Scalar::Whole(_) | Scalar::Other => None,
        }
    }

    fn number(self) -> Result<u64, MemberFault>
        ensures { (d : Data) → IsScalarOf self.entry d → result ≡ number_in (2 ^ 64 - 1) (Some d) }
    {
        match self {
            Scalar::Whole(number) => Ok(number),
            Scalar::Text(_) | Scalar::Other => Err(MemberFault::OutOfRange),
        }
    }
}

/// What a line says: `op` where it is a text, and each number.
#[derive(Clone, Copy, Debug)]
pub struct Line<'a> {
    pub op: Option<&'a str>,
    pub user: Result<u64, MemberFault>,
    pub role: Result<u64, MemberFault>,
    pub operation: Result<u64, MemberFault>,
    pub object: Result<u64, MemberFault>,
    pub session: Result<u64, MemberFault>,
    pub owner: Result<u64, MemberFault>,
    pub place: Result<u64, MemberFault>,
}

impl<'a> Line<'a> {
    /// What an object without members says.
    #[tactic(auto, unfolding(crate::specs::Members::member_number))]
    pub fn new() -> Line<'a>
        ensures { Says result (object no_members) }
    {
        Line {
            op: None,
            user: Err(MemberFault::Missing),
            role: Err(MemberFault::Missing),
            operation: Err(MemberFault::Missing),
            object: Err(MemberFault::Missing),
            session: Err(MemberFault::Missing),
            owner: Err(MemberFault::Missing),
            place: Err(MemberFault::Missing),
        }
    }

    /// What an object says.
    pub fn of(object: &'a Value) -> Line<'a>
        ensures { Says result (view object.entry.now) }
    {
        let number = |member| member_number(object, member, u64::MAX);
        Line {
            op: object.get(Member::Op.name()).and_then(Value::as_str),
            user: number(Member::User),
            role: number(Member::Role),
            operation: number(Member::Operation),
            object: number(Member::Object),
            session: number(Member::Session),
            owner: number(Member::Owner),
            place: number(Member::Place),
        }
    }

    /// What the object says with this member more, or in place of one of the same name.
    #[inline(always)]
    pub fn put(&mut self, name: &str, scalar: Scalar<'a>)
        ensures { (ms : Members) (d : Data) → IsScalarOf scalar.entry d → Says self.old (object ms)
            → Says self.new (object (put name.now d ms)) }
    {
        match name {
            "op" => self.op = scalar.text(),
            "user" => self.user = scalar.number(),
            "role" => self.role = scalar.number(),
            "operation" => self.operation = scalar.number(),
            "object" => self.object = scalar.number(),
            "session" => self.session = scalar.number(),
            "owner" => self.owner = scalar.number(),
            "place" => self.place = scalar.number(),
            _ => {}
        }
    }
}
