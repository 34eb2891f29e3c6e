// The answers, written as text.
use history_calls::Reply;
use std::fmt;

// The answer to a line.
pub fn say<W: fmt::Write>(text: &mut W, reply: Reply, line: &[u8]) -> fmt::Result {
    match reply {
        Reply::Done(n) => writeln!(text, "done {n}"),
        Reply::DoneSigned(n) => writeln!(text, "done {n}"),
        Reply::Refused(n) => writeln!(text, "refused {n}"),
        Reply::Rest(left, number) => writeln!(text, "rest {left} {number}"),
        Reply::Filled(many, number) => writeln!(text, "filled {many} {number}"),
        Reply::Lent(n) => writeln!(text, "lent {n}"),
        Reply::Cell(n) => writeln!(text, "cell {n}"),
        Reply::Sum(n) => writeln!(text, "sum {n}"),
        Reply::Bad => writeln!(text, "? {}", history_faults::explain(line)),
        Reply::Nothing => Ok(()),
    }
}
