// Images moved from one form to the other.
ghost use Rattle.std.specs.Prelude.{◌≡◌};
ghost use Rattle.image.specs.Reformed.{up_out, down_out};
ghost use Rattle.door.specs.Handed.{handed};

use crate::packed::pack;

#[unsafe(no_mangle)]
pub extern "C" fn dorrivand_up(old: &[u32], image: &mut [u32], segments: u32) -> u64
    ensures { handed result image.new ≡ up_out old.now image.old segments }
{
    pack(call_up_down::up(old, image, segments))
}

#[unsafe(no_mangle)]
pub extern "C" fn dorrivand_down(image: &[u32], old: &mut [u32], segments: u32) -> u64
    ensures { handed result old.new ≡ down_out image.now old.old segments }
{
    pack(call_up_down::down(image, old, segments))
}
