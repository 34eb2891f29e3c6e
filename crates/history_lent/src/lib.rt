// The calls that are lent one buffer more beside store and tables: an image.
#![tactic(auto)]

ghost use Rattle.std.specs.Prelude.{◌≡◌};
ghost use Rattle.history_lent.specs.Images.{image_call, image_line};
ghost use Rattle.history_lent.specs.Rooms.{lending};

use crate::sizes::{FIRST_IMAGE, IMAGE_BUFFER, LAST_IMAGE, OTHERS_BUFFER};
use history_buffers::{BUFFERS, STORE, TABLES};
use history_calls::Reply;

pub mod sizes; // the sizes of the buffers
pub mod lists; // runs, which are lent a list
pub mod moves; // moves from one form to the other, which are lent two images alone

// Save to image buffer k, or load from it.
//
// Store, tables, other buffers and lengths are parameters of their own, here and in `history_desk`, and no struct: a
// save lends the tables to be read and the image to be written, a load the image to be read and the tables to be
// written, a run the store too, a move neither store nor tables. A struct would lend all of them to be written, and
// each contract would name its parts as it names the parameters now.
//
// `saves` is a flag, and no function that is handed in: as the two calls lend other parts to be written, no type is
// that of both.
fn image_call(
    store: &[u32],
    tables: &mut [u32],
    others: &mut [u32],
    lengths: [u32; BUFFERS],
    k: u32,
    saves: bool,
) -> Reply
    ensures { lending result store.now tables.new others.new ≡ image_call lengths k saves store.now tables.old others.old }
{
    let at = k as usize;
    if LAST_IMAGE < at {
        return Reply::Bad;
    }
    if others.len() != OTHERS_BUFFER {
        return Reply::Bad;
    }
    let s = history_buffers::lent(lengths, STORE, store.len());
    let t = history_buffers::lent(lengths, TABLES, tables.len());
    let n = history_buffers::lent(lengths, FIRST_IMAGE + at, IMAGE_BUFFER);
    let from = IMAGE_BUFFER * at;
    let to = from + n;
    if saves {
        return history_calls::replied(call_save::save(
            &store[0..s],
            &tables[0..t],
            &mut others[from..to],
        ));
    }
    history_calls::replied(call_load::load(&store[0..s], &mut tables[0..t], &others[from..to]))
}

pub fn image_line(
    store: &[u32],
    tables: &mut [u32],
    others: &mut [u32],
    lengths: [u32; BUFFERS],
    found: Option<u32>,
    saves: bool,
) -> Reply
    ensures { lending result store.now tables.new others.new ≡ image_line lengths found saves store.now tables.old others.old }
{
    let Some(k) = found else {
        return Reply::Bad;
    };
    image_call(store, tables, others, lengths, k, saves)
}
