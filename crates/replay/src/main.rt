// Reads a history from standard input, of any length, and writes the answers: input and output alone, for what a line
// means stands in `history_desk`.
#![tactic(auto)]

mod desk; // the buffers of a history, its line, and where its answers are written
mod output; // the answers

use desk::Desk;
use std::io;

fn main(rt: HostRuntime) -> io::Result<()> {
    let mut desk = Desk::new(rt.stdout());
    desk.read_all(&mut rt.stdin())?;
    desk.finish()
}
