//! The numbers of a client line, each with its range.

ghost use Rattle.std.specs.Prelude.{◌≡◌, ◌<◌, ◌≤◌, ◌-◌, ◌^◌, IfOk};
ghost use Rattle.serde_json.specs.Data.{Data};
ghost use Rattle.client_lines.specs.Requests as lines;
ghost use Rattle.client_lines.specs.inside.Says.{Says, most_number};
ghost use Rattle.client_lines.specs.Members.{member_number};

use crate::fault::LineFault;
use crate::line::Line;
use crate::member::{Member, MemberFault};
use link_frames::{PLACES, Place};
use quorum_sizes::{NodeName, Sizes};

pub fn user_of(line: &Line<'_>) -> Result<u32, LineFault>
    ensures { (d : Data) → Says line.now d → result ≡ lines.user_of d }
{
    wide_number(&line.user, Member::User)
}

pub fn object_of(line: &Line<'_>) -> Result<u32, LineFault>
    ensures { (d : Data) → Says line.now d → result ≡ lines.object_of d }
{
    wide_number(&line.object, Member::Object)
}

pub fn role_of(line: &Line<'_>) -> Result<u16, LineFault>
    ensures { (d : Data) → Says line.now d → result ≡ lines.role_of d }
{
    narrow_number(&line.role, Member::Role)
}

pub fn operation_of(line: &Line<'_>) -> Result<u16, LineFault>
    ensures { (d : Data) → Says line.now d → result ≡ lines.operation_of d }
{
    narrow_number(&line.operation, Member::Operation)
}

pub fn place_of(line: &Line<'_>) -> Result<Place, LineFault>
    ensures { (d : Data) → Says line.now d → result ≡ lines.place_of d }
{
    Ok(number(&line.place, Member::Place, u64::from(PLACES - 1))? as Place)
}

pub fn session_of(line: &Line<'_>) -> Result<u64, LineFault>
    ensures { (d : Data) → Says line.now d → result ≡ lines.session_of d }
{
    number(&line.session, Member::Session, u64::MAX)
}

#[tactic(auto, unfolding(crate::specs::Requests::owner_of))]
pub fn owner_of(sizes: &Sizes, line: &Line<'_>) -> Result<NodeName, LineFault>
    ensures value { (d : Data) → Says line.now d → result ≡ lines.owner_of sizes.now d }
    ensures node { IfOk result (λ owner. owner < sizes.now.nodes) }
{
    let index = number(&line.owner, Member::Owner, u64::from(u8::MAX))?;
    match sizes.name(index as u8) {
        Some(node) => Ok(node),
        None => Err(LineFault::OutOfRange(Member::Owner)),
    }
}

fn wide_number(said: &Result<u64, MemberFault>, member: Member) -> Result<u32, LineFault>
    ensures { (d : Data) → said.now ≡ member_number member most_number d
        → result ≡ lines.number_of member (2 ^ 32 - 1) d }
{
    Ok(number(said, member, u64::from(u32::MAX))? as u32)
}

fn narrow_number(said: &Result<u64, MemberFault>, member: Member) -> Result<u16, LineFault>
    ensures { (d : Data) → said.now ≡ member_number member most_number d
        → result ≡ lines.number_of member (2 ^ 16 - 1) d }
{
    Ok(number(said, member, u64::from(u16::MAX))? as u16)
}

/// What a line says of a member, as a number that is at most `most`.
#[tactic(auto, unfolding(crate::specs::Requests::number_of, crate::specs::Members::member_number))]
fn number(said: &Result<u64, MemberFault>, member: Member, most: u64) -> Result<u64, LineFault>
    ensures value { (d : Data) → said.now ≡ member_number member most_number d
        → result ≡ lines.number_of member most d }
    ensures within { IfOk result (λ n. n ≤ most) }
{
    match said {
        Ok(number) if *number <= most => Ok(*number),
        Err(MemberFault::Missing) => Err(LineFault::Missing(member)),
        Ok(_) | Err(MemberFault::OutOfRange) => Err(LineFault::OutOfRange(member)),
    }
}
