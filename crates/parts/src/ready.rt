// What every run asks first.
ghost use Rattle.std.specs.Prelude.{◌≡◌, length};
ghost use Rattle.terms.specs.Refusals.{reply_of};
ghost use Rattle.parts.specs.Ready.{asking};

use crate::image::is_sized;
use terms::Refusal;

// Whether a run may begin on an image, with a budget that is allowed or not: 6, then 7.
pub fn may_run(image: &[u32], allowed: bool) -> Result<(), Refusal>
    ensures { reply_of result ≡ asking (length image.now) allowed }
{
    if !is_sized(image) {
        return Err(Refusal::ImageSize);
    }
    if !allowed {
        return Err(Refusal::Budget);
    }
    Ok(())
}
