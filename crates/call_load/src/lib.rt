// The operator's load.
#![tactic(auto, using(crate::proofs::Laws::loads))]

ghost use Rattle.std.specs.Prelude.{◌≡◌, ◌≤◌, length, replicate};
ghost use Rattle.placing.specs.Sizes.{least_store, tables_length};
ghost use Rattle.cells.specs.Outcomes.{outcome, load_out};

use answers::{Answer, Refusal};
use image::Form;
use placing::{LEAST_STORE, TABLES_LENGTH};

// The image is decoded beside the tables and judged there: no cell of the tables changes before the verdict.
fn judged(store: &[u32], tables: &mut [u32], image: &[u32], beside: &mut [u32]) -> Answer
    requires { (length tables.old ≡ tables_length) × (least_store ≤ length store.now) × (beside.old ≡ replicate tables_length 0) }
    ensures { outcome result store.now tables.new ≡ load_out store.now tables.old image.now }
{
    if !image_sound::is_sound(Form::Two, image, store.len(), beside) {
        return Err(Refusal::Image);
    }
    combine::copy_cells(beside, tables);
    Ok(0)
}

// "Save and load: 20, then 22." "A fresh start and a load don't look at what the tables held, only at their length and the store's."
pub fn load(store: &[u32], tables: &mut [u32], image: &[u32]) -> Answer
    ensures { outcome result store.now tables.new ≡ load_out store.now tables.old image.now }
{
    if tables.len() != TABLES_LENGTH {
        return Err(Refusal::Tables);
    }
    if store.len() < LEAST_STORE {
        return Err(Refusal::Tables);
    }
    let mut beside = [0u32; TABLES_LENGTH];
    judged(store, tables, image, &mut beside)
}
