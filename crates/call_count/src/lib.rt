// The inquiry that names no entry.
#![tactic(auto, using(crate::proofs::Laws::counts))]

ghost use Rattle.std.specs.Prelude.{◌≡◌};
ghost use Rattle.cells.specs.Outcomes.{outcome, free_out};

use answers::{Answer, Refusal};
use placing::GREATEST_USER;

// "the number of free segments (names a user, no entry: 20, 1)"
pub fn free_segments(store: &[u32], tables: &[u32], user: u32) -> Answer
    ensures { outcome result store.now tables.now ≡ free_out store.now tables.now user }
{
    if !sound::sound(tables, store.len()) {
        return Err(Refusal::Tables);
    }
    if GREATEST_USER < user {
        return Err(Refusal::User);
    }
    let number = free_count::free_count(tables);
    Ok(number)
}
