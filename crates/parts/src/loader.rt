// Loading a program into an image.
ghost use Rattle.std.specs.Prelude.{◌≡◌, length};
ghost use Rattle.parts.specs.Loading.{Loads};

use crate::image::is_sized;
use terms::{AccessKind, ByteAddress, Refusal, WordIndex};

// Copies the program into the part of the image that starts at its base word: 6 for the image's
// size, then 2 where the program does not fit there, with the first byte address past the image. A
// refusal writes nothing.
#[tactic(auto, unfolding(crate::specs::Loading::loading))]
pub fn load(program: &[u32], base: WordIndex, image: &mut [u32]) -> Result<(), Refusal>
    ensures { Loads program.now base.0 image.old result image.new }
{
    let at = base.place();
    let end = at + program.len();
    let words = image.len();
    let no_room = Refusal::Outside {
        address: ByteAddress::past(words),
        kind: AccessKind::Loader,
    };
    if !is_sized(image) {
        return Err(Refusal::ImageSize);
    }
    if words < end {
        return Err(no_room);
    }
    image[at..end].copy_from_slice(program);
    Ok(())
}
