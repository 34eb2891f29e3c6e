// What is wrong with a word that is to be a number.

use crate::faults::Fault;
use history_words::signed::signed_number_of;
use history_words::{MOST_DIGITS, number_of};

pub fn number_fault(word: &[u8]) -> Option<Fault> {
    if number_of(word).is_some() {
        return None;
    }
    Some(digits_fault(word, Fault::Large))
}

pub fn signed_fault(word: &[u8]) -> Option<Fault> {
    if signed_number_of(word).is_some() {
        return None;
    }
    let digits = word.strip_prefix(b"-").unwrap_or(word);
    Some(digits_fault(digits, Fault::Range))
}

// What is wrong with digits that make no number: `otherwise`, where all of them are digits and not too many.
fn digits_fault(digits: &[u8], otherwise: Fault) -> Fault {
    if digits.is_empty() {
        return Fault::NoNumber;
    }
    if !digits.iter().all(|byte| byte.is_ascii_digit()) {
        return Fault::NoNumber;
    }
    if MOST_DIGITS < digits.len() {
        return Fault::Long;
    }
    otherwise
}
