//! Texts of many answers: those that follow one another and are the same are told once.

use std::alloc::{AllocError, Global};
use std::fmt::Write;

/// Answers at places in ascending order, as `FROM-TO ANSWER, FROM-TO ANSWER`.
#[derive(Drop)]
pub struct Runs {
    text: String,
    /// The last answer, and the first and last place of it.
    last: String,
    from: usize,
    to: usize,
}

impl Runs {
    pub fn new(alloc: Global) -> Runs {
        Runs {
            text: String::new(alloc),
            last: String::new(alloc),
            from: 0,
            to: 0,
        }
    }

    /// What is answered at the next place.
    pub fn push(&mut self, at: usize, answer: String) -> Result<(), AllocError> {
        if answer.as_str() != self.last.as_str() {
            self.tell()?;
            self.last = answer;
            self.from = at;
        }
        self.to = at;
        Ok(())
    }

    /// Puts the last answer into the text.
    fn tell(&mut self) -> Result<(), AllocError> {
        if self.last.is_empty() {
            return Ok(());
        }
        if !self.text.is_empty() {
            self.text.push_str(", ")?;
        }
        self.text.push_str(places(*self.text.allocator(), self.from, self.to)?.as_str())?;
        self.text.push_str(self.last.as_str())
    }

    /// All that was answered.
    pub fn into_text(self) -> Result<String, AllocError> {
        let mut runs = self;
        runs.tell()?;
        let Runs { text, .. } = runs;
        Ok(text)
    }
}

fn places(alloc: Global, from: usize, to: usize) -> Result<String, AllocError> {
    if from == to {
        return format!(in alloc; "{from} ");
    }
    format!(in alloc; "{from}-{to} ")
}

/// So many digits, as rows have them: 129, 130, and so on.
pub fn digits(alloc: Global, count: u8) -> Result<Vec<u8>, AllocError> {
    let mut digits = Vec::new(alloc);
    for at in 0..count {
        digits.push(129 + at % 120)?;
    }
    Ok(digits)
}

/// Digits as `FIRST-LAST` for those of which each is one more than the one before it, or `-` for none.
pub fn digits_text(alloc: Global, digits: &[u8]) -> Result<String, AllocError> {
    let mut text = String::new(alloc);
    let mut last = None;
    for digit in digits {
        match last {
            Some(last) if *digit == next_digit(last) => {}
            Some(last) => write!(text, "{last} {digit}-")?,
            None => write!(text, "{digit}-")?,
        }
        last = Some(*digit);
    }
    match last {
        Some(last) => write!(text, "{last}")?,
        None => text.push('-')?,
    }
    Ok(text)
}

fn next_digit(digit: u8) -> u8 {
    digit.wrapping_add(1)
}
