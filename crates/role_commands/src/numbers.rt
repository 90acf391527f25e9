//! Words and numbers in a line of text.

ghost use Rattle.std.specs.Prelude.{◌≡◌, ◌≤◌, ◌<◌, ◌↔◌, IsTrue, IfSome, option_map, length, slice_index};
ghost use Rattle.role_commands.specs.Numbers as numbers;
ghost use Rattle.role_commands.specs.Numbers.{number_of};

/// What stands before the first space and what stands behind it, if there is one.
pub fn split_word(text: &str) -> Option<(&str, &str)>
    ensures { numbers.split_word text.now ≡ option_map (λ words. (words.0.now, words.1.now)) result }
{
    text.split_once(' ')
}

/// The number of at most `most` that is written as this word, in decimal digits with no sign and
/// no zero in front.
pub fn parse_number(word: &str, most: u64) -> Option<u64>
    ensures value { result ≡ number_of most word.now }
    ensures within { IfSome result (λ n. n ≤ most) }
{
    if word.starts_with('+') {
        return None;
    }
    if is_padded(word) {
        return None;
    }
    match word.parse::<u64>() {
        Ok(number) if number <= most => Some(number),
        _ => None,
    }
}

/// The number of 8 bits that is written as this word.
pub fn byte_number(word: &str) -> Option<u8>
    ensures { result ≡ numbers.byte_number word.now }
{
    let number = parse_number(word, u64::from(u8::MAX))?;
    Some(number as u8)
}

/// The number of 16 bits that is written as this word.
pub fn narrow_number(word: &str) -> Option<u16>
    ensures { result ≡ numbers.narrow_number word.now }
{
    let number = parse_number(word, u64::from(u16::MAX))?;
    Some(number as u16)
}

/// The number of 32 bits that is written as this word.
pub fn wide_number(word: &str) -> Option<u32>
    ensures { result ≡ numbers.wide_number word.now }
{
    let number = parse_number(word, u64::from(u32::MAX))?;
    Some(number as u32)
}

/// The number of 64 bits that is written as this word.
pub fn long_number(word: &str) -> Option<u64>
    ensures { result ≡ numbers.long_number word.now }
{
    parse_number(word, u64::MAX)
}

// Whether something follows a zero in front.
fn is_padded(word: &str) -> bool
    ensures { IsTrue result ↔ ((1 < length word.now) × (slice_index word.now 0 ≡ 48)) }
{
    word.len() > 1 && word.starts_with('0')
}
