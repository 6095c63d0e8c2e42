//! Words of rows.
use jlr_machine::ask::Outcome;
use jlr_types::{Fault, Rid};
use std::str::{FromStr, SplitWhitespace};

/// The numbers behind the name of a call.
#[derive(Clone, Copy)]
pub(super) enum Numbers {
    None,
    One(u64),
    Two(u64, u64),
    Three(u64, u64, u64),
}

/// All words that are left: numbers, at most three.
pub(super) fn all_numbers(words: &mut SplitWhitespace<'_>) -> Option<Numbers> {
    let mut numbers = Numbers::None;
    for word in words {
        numbers = followed(numbers, word.parse().ok())?;
    }
    Some(numbers)
}

// With one number more; none where the word was none, or there are three.
fn followed(numbers: Numbers, next: Option<u64>) -> Option<Numbers> {
    match (numbers, next) {
        (Numbers::None, Some(next)) => Some(Numbers::One(next)),
        (Numbers::One(first), Some(next)) => Some(Numbers::Two(first, next)),
        (Numbers::Two(first, second), Some(next)) => Some(Numbers::Three(first, second, next)),
        _ => None,
    }
}

/// As a number of 32 bits. What does not fit is the last one, which no call of a row has.
pub(super) fn small(number: u64) -> u32 {
    u32::try_from(number).unwrap_or(u32::MAX)
}

/// As a number of 8 bits, likewise.
pub(super) fn tiny(number: u64) -> u8 {
    u8::try_from(number).unwrap_or(u8::MAX)
}

pub(super) fn rid(number: u64) -> Rid {
    Rid::new(small(number))
}

pub(super) fn parsed<T: FromStr>(words: &mut SplitWhitespace<'_>) -> Option<T>
where
    T::Err: Drop,
{
    words.next()?.parse().ok()
}

pub(super) fn outcome(words: &mut SplitWhitespace<'_>) -> Option<Outcome> {
    match words.next()? {
        "ok" => Some(Outcome::Ok),
        word => Some(Outcome::Failed(fault(word)?)),
    }
}

// How a call on a device goes.
pub(super) fn called(words: &mut SplitWhitespace<'_>) -> Option<Result<(), Fault>> {
    match words.next()? {
        "ok" => Some(Ok(())),
        word => Some(Err(fault(word)?)),
    }
}

pub(super) fn fault(word: &str) -> Option<Fault> {
    match word {
        "NotFound" => Some(Fault::NotFound),
        "Denied" => Some(Fault::Denied),
        "Other" => Some(Fault::Other),
        _ => None,
    }
}
