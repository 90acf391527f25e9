//! Reading a line as most clients write it: an object of texts without escapes, of whole numbers of 64 bits, and of
//! true, false and null, with or without blanks between its parts and behind it. It takes no memory.
//!
//! The bytes of such a text are plain: each stands for itself. They are all from the blank on but the quote and the
//! backslash.

ghost use Rattle.std.specs.Prelude.{◌≡◌, ◌+◌, ◌*◌, ◌^◌, ◌≤◌, ◌<◌, ◌++◌, [], length, drop, decimal, false, Some};
ghost use Rattle.std.specs.Prelude.{IfSome};
ghost use Rattle.std.specs.List.{prefix_len};
ghost use Rattle.json.specs.Json.{value, members};
ghost use Rattle.json.specs.Lex.{fresh};
ghost use Rattle.json.specs.Word.{is_space};
ghost use Rattle.serde_json.specs.Data.{Members, no_members, object};
ghost use Rattle.serde_json.specs.Read.{of_members, converted, read};
ghost use Rattle.client_lines.specs.inside.PlainLines.{tokens_from, is_plain, IsQuoted, IsName, IsValue, IsWord};
ghost use Rattle.client_lines.specs.inside.Says.{Says};

use crate::bytes::{is_blank, is_plain};
use crate::line::{Line, Scalar};

/// An object with a member has no fewer: `{"":0}`.
const LEAST_BYTES: usize = 6;

/// Longer lines hold what no operation has, in which an index of all bytes finds its way quicker.
const MOST_BYTES: usize = 256;

/// What a line says, if it is such an object, of at most 256 bytes, and has a member; `None` says nothing of the line.
///
/// A line with a backslash is not begun: this way would end at the escape, perhaps late, and the other one is quick. So
/// it is with more than one blank behind the brace, behind which there may be no member.
pub fn plain_line<'a>(text: &'a str) -> Option<Line<'a>>
    ensures { IfSome result (λ line.
        (ms : Members) × (read text.now ≡ Some (object ms)) × Says line (object ms)) }
{
    let bytes = text.as_bytes();
    if bytes.len() < LEAST_BYTES || bytes.len() > MOST_BYTES || bytes[0] != b'{' {
        return None;
    }
    if bytes[1] != b'"' && bytes[2] != b'"' {
        return None;
    }
    if bytes.contains(&b'\\') {
        return None;
    }
    members_line(text)
}

/// What the members say that begin behind the first byte and end with the line.
#[inline(always)]
fn members_line<'a>(text: &'a str) -> Option<Line<'a>>
    ensures { IfSome result (λ line. (ms : Members)
        × (converted (λ read. of_members read no_members)
        (members (value 126) (length (tokens_from fresh text.now 1)) (tokens_from fresh text.now 1))
        ≡ Some (ms, [])) × Says line (object ms)) }
{
    let bytes = text.as_bytes();
    let mut line = Line::new();
    let mut at = blanks_end_before(b'"', bytes, 1);
    'members: loop {
        let (name, value) = name_at(text, at)?;
        let (scalar, end) = scalar_at(text, value)?;
        line.put(name, scalar);
        if end >= bytes.len() {
            return None;
        }
        if bytes[end] != b',' {
            return if bytes[end] == b'}' && blanks_end(bytes, end + 1) == bytes.len() {
                Some(line)
            } else {
                None
            };
        }
        at = blanks_end_before(b'"', bytes, end + 1);
    }
}

/// The name of the member that begins there, and the place of its value.
#[inline(always)]
fn name_at<'a>(text: &'a str, at: usize) -> Option<(&'a str, usize)>
    ensures { IfSome result (λ r. IsName text.now at r.0.now r.1) }
{
    let (name, end) = text_at(text, at)?;
    let bytes = text.as_bytes();
    let colon = blanks_end_before(b':', bytes, end);
    if colon < bytes.len() && bytes[colon] == b':' {
        Some((name, blanks_end(bytes, colon + 1)))
    } else {
        None
    }
}

/// The value that begins there, and the place behind it and its blanks.
#[inline(always)]
fn scalar_at<'a>(text: &'a str, at: usize) -> Option<(Scalar<'a>, usize)>
    ensures { IfSome result (λ r. IsValue text.now at r.0 r.1) }
{
    let bytes = text.as_bytes();
    if let Some((text, end)) = text_at(text, at) {
        return Some((Scalar::Text(text), blanks_end_before(b',', bytes, end)));
    }
    if let Some((number, end)) = number_at(bytes, at) {
        return Some((Scalar::Whole(number), blanks_end_before(b',', bytes, end)));
    }
    let end = word_at(bytes, at)?;
    Some((Scalar::Other, blanks_end_before(b',', bytes, end)))
}

/// The text of plain bytes in quotes that begins there, and the place behind it.
#[inline(always)]
fn text_at<'a>(text: &'a str, at: usize) -> Option<(&'a str, usize)>
    ensures { IfSome result (λ r. IsQuoted text.now at r.0.now r.1) }
{
    let bytes = text.as_bytes();
    if at >= bytes.len() || bytes[at] != b'"' {
        return None;
    }
    let end = plain_end(bytes, at + 1);
    if end < bytes.len() && bytes[end] == b'"' {
        Some((&text[at + 1..end], end + 1))
    } else {
        None
    }
}

/// The first place from there on that has no plain byte, or the length.
#[inline(always)]
fn plain_end(bytes: &[u8], from: usize) -> usize
    requires { from ≤ length bytes.now }
    ensures value { result ≡ from + prefix_len is_plain (drop from bytes.now) }
    ensures bound { result ≤ length bytes.now }
{
    let mut end = from;
    while end < bytes.len() && is_plain(bytes[end]) {
        end += 1;
    }
    end
}

/// What [`blanks_end`] gives, by one compare where the expected byte stands there, which is no blank.
#[inline(always)]
fn blanks_end_before(expected: u8, bytes: &[u8], from: usize) -> usize
    requires { is_space expected ≡ false }
    ensures value { result ≡ from + prefix_len is_space (drop from bytes.now) }
    ensures bound { from ≤ length bytes.now → result ≤ length bytes.now }
{
    if from < bytes.len() && bytes[from] == expected {
        return from;
    }
    blanks_end(bytes, from)
}

/// The first place from there on that has no blank, or the length.
#[inline(always)]
fn blanks_end(bytes: &[u8], from: usize) -> usize
    ensures value { result ≡ from + prefix_len is_space (drop from bytes.now) }
    ensures bound { from ≤ length bytes.now → result ≤ length bytes.now }
{
    if from < bytes.len() && is_blank(bytes[from]) {
        return blank_run_end(bytes, from + 1);
    }
    from
}

/// The same, out of line, so that the way past no blank stays short.
#[inline(never)]
fn blank_run_end(bytes: &[u8], from: usize) -> usize
    ensures value { result ≡ from + prefix_len is_space (drop from bytes.now) }
    ensures bound { from ≤ length bytes.now → result ≤ length bytes.now }
{
    let mut end = from;
    while end < bytes.len() && is_blank(bytes[end]) {
        end += 1;
    }
    end
}

/// The number of at most 64 bits that begins there, and the place behind it.
#[inline(always)]
fn number_at(bytes: &[u8], at: usize) -> Option<(u64, usize)>
    ensures digits { IfSome result (λ r. drop at bytes.now ≡ decimal r.0 ++ drop r.1 bytes.now) }
    ensures small { IfSome result (λ r. r.0 < 2 ^ 64) }
    ensures forward { IfSome result (λ r. at < r.1) }
    ensures within { IfSome result (λ r. r.1 ≤ length bytes.now) }
{
    if at >= bytes.len() || !bytes[at].is_ascii_digit() {
        return None;
    }
    let mut number = u64::from(bytes[at] - b'0');
    let mut end = at + 1;
    while end < bytes.len() && bytes[end].is_ascii_digit() {
        if number == 0 {
            return None;
        }
        number = with_digit(number, bytes[end] - b'0')?;
        end += 1;
    }
    Some((number, end))
}

/// The number with one digit more, if it has at most 64 bits.
#[inline(always)]
fn with_digit(number: u64, digit: u8) -> Option<u64>
    ensures { IfSome result (λ more. more ≡ number * 10 + digit) }
{
    number.checked_mul(10)?.checked_add(u64::from(digit))
}

/// The place behind true, false or null, where one of these begins there.
#[inline(always)]
fn word_at(bytes: &[u8], at: usize) -> Option<usize>
    ensures word { IfSome result (IsWord bytes.now at) }
    ensures forward { IfSome result (λ end. at < end) }
    ensures within { IfSome result (λ end. end ≤ length bytes.now) }
{
    if at >= bytes.len() {
        return None;
    }
    let rest = &bytes[at..];
    if rest.starts_with(b"true") {
        return Some(at + 4);
    }
    if rest.starts_with(b"false") {
        return Some(at + 5);
    }
    if rest.starts_with(b"null") {
        Some(at + 4)
    } else {
        None
    }
}
