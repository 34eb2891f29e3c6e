// The operator's save.
#![tactic(auto, using(crate::proofs::Laws::saves))]

ghost use Rattle.std.specs.Prelude.{◌≡◌};
ghost use Rattle.cells.specs.Outcomes.{save_out};
ghost use Rattle.call_save.specs.Saved.{saved_outcome};

use answers::{Answer, Refusal};
use image::{Form, IMAGE_LENGTH};

// "Save and load: 20, then 22." "Every refusal leaves store, tables and image buffer as they stood."
pub fn save(store: &[u32], tables: &[u32], image: &mut [u32]) -> Answer
    ensures { saved_outcome result store.now tables.now image.new ≡ save_out store.now tables.now image.old }
{
    if !sound::sound(tables, store.len()) {
        return Err(Refusal::Tables);
    }
    if image.len() != IMAGE_LENGTH {
        return Err(Refusal::Image);
    }
    image_code::put_image(Form::Two, tables, image);
    Ok(0)
}
