// The image of a file's bytes.
ghost use Rattle.std.specs.Prelude.{◌≡◌, ℕ, IsErrAnd, MatchResult};
ghost use Rattle.image_file.specs.ImageGrammar.{IsImageFile, IsFirstWrong, IsRefused};
ghost use Rattle.image_file.specs.Image.{Image, IsImage};
ghost use Rattle.image_file.specs.ImageReading.{StopsAt};
ghost use Rattle.image_file.specs.Spelling.{spelling};

use crate::body::read_body;
use crate::head::read_head;
use crate::image::Image;
use crate::stop::ImageStop;
use std::alloc::Global;

/// The image that these bytes spell. A part is refused before memory is asked for on its account,
/// so what is asked for grows with the bytes, whatever their counts say.
pub fn load_image(alloc: Global, bytes: &[u8]) -> Result<Image, ImageStop>
    ensures exact { MatchResult result (λ i. IsImageFile i bytes.now) (λ e. IsRefused e bytes.now) }
    ensures again { (i : Image) → IsImage i → bytes.now ≡ spelling i
        → MatchResult result (λ j. j ≡ i) (λ e. e ≡ ImageStop.Memory) }
    ensures refused { (k : ℕ) → IsFirstWrong k bytes.now → IsErrAnd result (λ e. StopsAt e k (IsFirstWrong k bytes.now)) }
{
    let (settings, counts, rest) = read_head(bytes)?;
    read_body(alloc, settings, &counts, rest)
}
