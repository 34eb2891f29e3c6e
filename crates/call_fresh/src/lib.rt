// The operator's fresh start.
#![tactic(auto, using(crate::proofs::Laws::starts))]

ghost use Rattle.std.specs.Prelude.{◌≡◌};
ghost use Rattle.placing.specs.Sizes.{fresh_segments};
ghost use Rattle.cells.specs.Outcomes.{outcome, fresh_out};

use answers::{Answer, Refusal};
use placing::{LEAST_STORE, MOST_SEGMENTS, SEGMENT_CELLS, TABLES_LENGTH};

// "at most 1,024", beside the number of segments that so many cells make
const MOST_WHOLE: usize = MOST_SEGMENTS as usize;

// "A fresh start gives it floor(length / 64) segments, at most 1,024"
fn segments_in(cells: usize) -> u32
    ensures { result ≡ fresh_segments cells }
{
    (cells / SEGMENT_CELLS).min(MOST_WHOLE) as u32
}

// "A fresh start and a load don't look at what the tables held, only at their length and the store's."
pub fn fresh(store: &[u32], tables: &mut [u32]) -> Answer
    ensures { outcome result store.now tables.new ≡ fresh_out store.now tables.old }
{
    if tables.len() != TABLES_LENGTH {
        return Err(Refusal::Tables);
    }
    if store.len() < LEAST_STORE {
        return Err(Refusal::Tables);
    }
    combine::fill_cells(tables, 0);
    tables[0] = segments_in(store.len());
    Ok(0)
}
