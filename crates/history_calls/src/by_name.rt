// Lines that end in a name.
ghost use Rattle.std.specs.Prelude.{◌≡◌, Some};
ghost use Rattle.cells.specs.Outcomes.{lent};
ghost use Rattle.history_calls.specs.Calls.{name_call, named_call};
ghost use Rattle.history_calls.specs.Told.{told, told_of};

use crate::{Reply, replied};
use history_lines::OfName;

fn on_name(
    store: &[u32],
    tables: &mut [u32],
    word: OfName,
    user: u32,
    entry: u32,
    name: &[u8],
) -> Reply
    ensures { told result (lent store.now tables.new) ≡ told_of (name_call (Some word) user entry name.now) store.now tables.old }
{
    match word {
        OfName::Work => replied(call_open::open_work(store, tables, user, entry, name)),
        OfName::Read => replied(call_open::open_read(store, tables, user, entry, name)),
        OfName::Rename => replied(call_rename::rename(store, tables, user, entry, name)),
    }
}

// "NAME is all bytes after the space that follows E, up to the line's end, as they are (spaces too); where nothing follows E, with or
// without that space, it is the empty byte string."
// A word that is none of these asks for no call.
pub fn named(
    store: &[u32],
    tables: &mut [u32],
    word: Option<OfName>,
    line: &[u8],
    at: usize,
) -> Reply
    ensures { told result (lent store.now tables.new) ≡ told_of (named_call word line.now at) store.now tables.old }
{
    let Some(word) = word else {
        return Reply::Bad;
    };
    let Some((user, entry, to)) = history_lines::named_at(line, at) else {
        return Reply::Bad;
    };
    if line.len() <= to {
        return on_name(store, tables, word, user, entry, b"");
    }
    let from = to + 1;
    on_name(store, tables, word, user, entry, &line[from..])
}
