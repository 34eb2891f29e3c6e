// What is wrong with a bad line, in words. The text of histories leaves them to each program, so no contract says which
// they are: proved is that these functions end and do nothing undefined, and that a form that is named stands in the
// list of forms, and a field in its form. histories/bad_lines.expected has the words for a line of each kind.
#![tactic(auto)]

ghost use Rattle.history_faults.specs.Parts.{NamesParts};

mod forms; // the form of every line
mod words; // the words of a line, one after the other
mod number_faults; // what is wrong with a number
mod beyond; // what is not there
mod faults; // where a line departs from its form

use faults::{Departure, find_departure};
use forms::{FORMS, form_of};
use std::fmt::{self, Display};

// What a bad line is answered by, after `? `.
#[derive(Clone, Copy)]
pub enum Explanation {
    Return, // as at the end of every line of a file whose lines end in two bytes
    Space, // before the first word
    Help, // the line asks for all forms
    UnknownWord,
    Departure(Departure),
}

impl Display for Explanation {
    fn fmt<W: fmt::Write>(&self, f: &mut fmt::Formatter<W>) -> fmt::Result {
        match self {
            Explanation::Return => f.write_str("a carriage return at the line's end"),
            Explanation::Space => f.write_str("a space too many"),
            Explanation::Help => f.write_str(FORMS),
            Explanation::UnknownWord => f.write_str("an unknown word; help lists all lines"),
            Explanation::Departure(departure) => departure.fmt(f),
        }
    }
}

pub fn explain(line: &[u8]) -> Explanation
    // A form that it names stands in the list, and a field in the form.
    ensures { NamesParts result }
{
    if line.ends_with(b"\r") {
        return Explanation::Return;
    }
    let (word, rest) = line.split_at(history_words::word_end(line, 0));
    match word {
        b"" => Explanation::Space,
        b"help" => Explanation::Help,
        _ => match form_of(word) {
            Some(form) => Explanation::Departure(find_departure(form, rest)),
            None => Explanation::UnknownWord,
        },
    }
}
