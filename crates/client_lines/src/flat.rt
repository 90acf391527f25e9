//! Reading a line that is an object of texts, whole numbers, true, false and null, however it is written. It takes no
//! memory but the scratch, which is kept from line to line.

ghost use Rattle.std.specs.Prelude.{◌≡◌, ◌<◌, ◌==◌, length, slice_index, false, Some, IfSome, IfOk};
ghost use Rattle.json.specs.Json.{value, members};
ghost use Rattle.serde_json.specs.Data.{Data, Members, no_members, object, unsigned};
ghost use Rattle.serde_json.specs.Read.{of_json, of_members, converted, number_of, number_from, read};
ghost use Rattle.client_lines.specs.inside.Says.{Says, IsScalarOf};

use crate::line::{Line, Scalar};
use fast_float::Numeral;
use json::{Reader, Scratch, Token};
use std::alloc::AllocError;

const MINUS: u8 = b'-';

/// What a line says, if it is such an object and begins with its brace; `None` says nothing of the line.
///
/// # Errors
///
/// Only for want of memory for the scratch.
pub fn flat_line<'a>(
    text: &'a str,
    scratch: &'a mut Scratch,
) -> Result<Option<Line<'a>>, AllocError>
    ensures { IfOk result (λ found. IfSome found (λ line.
        (ms : Members) × (read text.now ≡ Some (object ms)) × Says line (object ms))) }
{
    if !text.as_bytes().starts_with(b"{") {
        return Ok(None);
    }
    let mut reader = Reader::new(text, scratch)?;
    let line = object_line(&mut reader);
    if reader.next().is_some() {
        return Ok(None);
    }
    Ok(line)
}

fn object_line<'a>(reader: &mut Reader<'a>) -> Option<Line<'a>>
    ensures { IfSome result (λ line. (ms : Members)
        × (converted of_json (value 127 reader.old) ≡ Some (object ms, reader.new)) × Says line (object ms)) }
{
    match reader.next() {
        Some(Token::BeginObject) => members_line(reader),
        _ => None,
    }
}

fn members_line<'a>(reader: &mut Reader<'a>) -> Option<Line<'a>>
    ensures { IfSome result (λ line. (ms : Members)
        × (converted (λ read. of_members read no_members) (members (value 126) (length reader.old) reader.old)
        ≡ Some (ms, reader.new)) × Says line (object ms)) }
{
    let mut line = Line::new();
    'members: while let Some(name) = reader.next_key().ok()? {
        let scalar = scalar(reader)?;
        line.put(name, scalar);
    }
    Some(line)
}

fn scalar<'a>(reader: &mut Reader<'a>) -> Option<Scalar<'a>>
    ensures scalar { IfSome result (λ scalar. (d : Data)
        × (converted of_json (value 126 reader.old) ≡ Some (d, reader.new)) × IsScalarOf scalar d) }
    ensures shorter { IfSome result (λ _. length reader.new < length reader.old) }
{
    match reader.next()? {
        Token::String(text) => Some(Scalar::Text(text)),
        Token::Number(digits) => Some(Scalar::Whole(whole_number(digits)?)),
        Token::Bool(_) | Token::Null => Some(Scalar::Other),
        Token::BeginObject
        | Token::EndObject
        | Token::BeginArray
        | Token::EndArray
        | Token::Key(_)
        | Token::Bad => None,
    }
}

/// The number that digits write, where it has no more than 64 bits.
fn whole_number(digits: &str) -> Option<u64>
    ensures { IfSome result (λ n. number_of digits.now ≡ Some (unsigned n)) }
{
    let bytes = digits.as_bytes();
    if has_minus(bytes) {
        return None;
    }
    unsigned(&Numeral::scan(bytes))
}

fn has_minus(bytes: &[u8]) -> bool
    ensures { result ≡ (slice_index bytes.now 0 == MINUS) }
{
    !bytes.is_empty() && bytes[0] == MINUS
}

fn unsigned(numeral: &Numeral<'_>) -> Option<u64>
    ensures { IfSome result (λ n. number_from false numeral.now ≡ Some (unsigned n)) }
{
    numeral.to_u64()
}
