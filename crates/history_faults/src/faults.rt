// Where a line departs from its form: the first word that is wrong, from left to right; then a word too many; then what
// is not there, or is lent twice.
ghost use Rattle.std.specs.Prelude.{◌≡◌, IfSome};
ghost use Rattle.std.specs.Str.Iter.{HasSubslice};

use crate::beyond::first_beyond;
use crate::forms::fields;
use crate::number_faults::{number_fault, signed_fault};
use crate::words::next_word;
use history_lines::buffers::buffer_named;
use std::fmt::{self, Display};

#[derive(Clone, Copy)]
pub enum Fault {
    Missing, // no word
    Empty, // a word of no bytes: "words parted by exactly one space"
    NoNumber, // other bytes than digits
    Long, // more than ten digits
    Large, // above 4294967295
    Range, // of a signed number: not of 32 bits
    NoBuffer, // no buffer's name
    Word, // a word after the last field
    Space, // a space after the last field
    Beyond, // an image, a list, a cell or a length that is not there
    Twice, // one image where two are lent
}

// What is wrong, after the field that it is wrong with, if it is one.
impl Display for Fault {
    fn fmt<W: fmt::Write>(&self, f: &mut fmt::Formatter<W>) -> fmt::Result {
        f.write_str(match self {
            Fault::Missing => " is missing",
            Fault::Empty => " is empty (a space too many)",
            Fault::NoNumber => " is no number",
            Fault::Long => " has more than ten digits",
            Fault::Large => " is above 4294967295",
            Fault::Range => " is none of -2147483648 to 2147483647",
            Fault::NoBuffer => " is none of store, tables, image0 to image3, list0, list1",
            Fault::Word => "a word too many",
            Fault::Space => "a space too many",
            Fault::Beyond => " is beyond what is there",
            Fault::Twice => "one image is named twice",
        })
    }
}

// The form that a line departs from, a fault, and the field of the form that it is about, if it is about one.
#[derive(Clone, Copy)]
pub struct Departure {
    form: &'static str,
    field: Option<&'static str>,
    fault: Fault,
}

impl Display for Departure {
    fn fmt<W: fmt::Write>(&self, f: &mut fmt::Formatter<W>) -> fmt::Result {
        let Departure { form, field, fault } = *self;
        let field = field.unwrap_or("");
        write!(f, "{form}: {field}{fault}")
    }
}

fn buffer_fault(word: &[u8]) -> Option<Fault> {
    if buffer_named(word).is_some() {
        return None;
    }
    Some(Fault::NoBuffer)
}

// What is wrong with a word that stands for a field.
fn word_fault(field: &str, word: &[u8]) -> Option<Fault> {
    if word.is_empty() {
        return Some(Fault::Empty);
    }
    match field {
        "BUFFER" => buffer_fault(word),
        "SIGNED" => signed_fault(word),
        _ => number_fault(word),
    }
}

// Every field has its word: what follows the last is too much; if nothing does, something is not there, and if all is
// there, one image is named twice.
fn departure_at_end(form: &'static str, words: &[u8], rest: &[u8]) -> Departure
    // The form is the one that was given.
    ensures form { result.form.now ≡ form.now }
    // The field stands in it.
    ensures field { IfSome result.field (λ field. HasSubslice form.now field.now) }
{
    if rest.is_empty() {
        let field = first_beyond(form, words);
        let fault = if field.is_some() {
            Fault::Beyond
        } else {
            Fault::Twice
        };
        return Departure { form, field, fault };
    }
    let fault = match next_word(rest) {
        Some((word, _)) if !word.is_empty() => Fault::Word,
        _ => Fault::Space,
    };
    Departure {
        form,
        field: None,
        fault,
    }
}

// The first departure, from left to right, of what follows a line's first word.
pub fn find_departure(form: &'static str, words: &[u8]) -> Departure
    // The form is the one that was given.
    ensures form { result.form.now ≡ form.now }
    // The field stands in it.
    ensures field { IfSome result.field (λ field. HasSubslice form.now field.now) }
{
    let mut rest = words;
    for field in fields(form) {
        let Some((word, left)) = next_word(rest) else {
            return Departure {
                form,
                field: Some(field),
                fault: Fault::Missing,
            };
        };
        if let Some(fault) = word_fault(field, word) {
            return Departure {
                form,
                field: Some(field),
                fault,
            };
        }
        rest = left;
    }
    departure_at_end(form, words, rest)
}
