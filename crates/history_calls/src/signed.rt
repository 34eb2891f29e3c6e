// Lines of species 6: "N signed where it is an element", and the signed number of a write.
ghost use Rattle.std.specs.Prelude.{◌≡◌};
ghost use Rattle.answers.specs.Said.{said_signed};
ghost use Rattle.cells.specs.Outcomes.{lent};
ghost use Rattle.history_calls.specs.Calls.{signed_call};
ghost use Rattle.history_calls.specs.Told.{told, told_of, reply_signed};

use crate::{Reply, replied};
use answers::SignedAnswer;
use history_lines::signed::SignedWrite;

// Beside `replied`, for one function over both would take the reply to a done one as a parameter, and be no shorter.
pub fn replied_signed(answer: SignedAnswer) -> Reply
    ensures { result ≡ reply_signed (said_signed answer) }
{
    match answer {
        Ok(number) => Reply::DoneSigned(number),
        Err(why) => Reply::Refused(answers::number(why)),
    }
}

// What the line of a signed write asks for; None is asked for by a line that is malformed.
pub fn write_signed(store: &mut [u32], tables: &mut [u32], asked: Option<SignedWrite>) -> Reply
    ensures { told result (lent store.new tables.new) ≡ told_of (signed_call asked) store.old tables.old }
{
    let Some(asked) = asked else {
        return Reply::Bad;
    };
    replied(call_write::write_signed(
        store,
        tables,
        asked.user,
        asked.entry,
        asked.pointer,
        asked.number,
    ))
}
