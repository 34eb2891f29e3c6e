// The calls `next` and `prev` of species 6, which "give a signed number" (document 02, P5).
ghost use Rattle.std.specs.Prelude.{◌≡◌};
ghost use Rattle.combine.specs.Verdict.{on_done};
ghost use Rattle.answers.specs.Said.{said, said_signed};
ghost use Rattle.numbers.specs.Numbers.{signed_of};
ghost use Rattle.rules.specs.Calls.{uses, next_signed, prev_signed};
ghost use Rattle.cells.specs.Outcomes.{request_out};
ghost use Rattle.cells.specs.Signed.{signed_outcome, read_signed};

use crate::Direction;
use answers::{Answer, SignedAnswer};

// The answer of a reading call, its bits read as a signed number.
fn read(answer: Answer) -> SignedAnswer
    ensures { said_signed result ≡ on_done signed_of (said answer) }
{
    let bits = answer?;
    Ok(numbers::value(bits))
}

// Delivers the signed number at a pointer of an entry of a user; the pointer grows.
pub fn next_signed(
    store: &[u32],
    tables: &mut [u32],
    user: u32,
    entry: u32,
    pointer: u32,
) -> SignedAnswer
    ensures { signed_outcome result store.now tables.new ≡ read_signed (request_out (uses (next_signed pointer)) store.now tables.old user entry) }
{
    let answer = Direction::Forward.call(store, tables, user, entry, pointer, true);
    read(answer)
}

// Delivers the signed number before a pointer of an entry of a user; the pointer falls.
pub fn prev_signed(
    store: &[u32],
    tables: &mut [u32],
    user: u32,
    entry: u32,
    pointer: u32,
) -> SignedAnswer
    ensures { signed_outcome result store.now tables.new ≡ read_signed (request_out (uses (prev_signed pointer)) store.now tables.old user entry) }
{
    let answer = Direction::Backward.call(store, tables, user, entry, pointer, true);
    read(answer)
}
