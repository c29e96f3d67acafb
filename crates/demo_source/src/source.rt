// The whole source of a demo, and its parameters.
ghost use Rattle.std.specs.Prelude.{◌≡◌, IfOk};
ghost use Rattle.demo_source.specs.DemoSource.{demo_params, demo_source};

use crate::cards::{demo_card, next_of};
use layout_params::STANDARD_PARAMS;
use std::alloc::{AllocError, Global};

/// The cards after those of numbers: X is printed on the unit that `UNITO` names, and the run ends.
const TAIL: &[u8] =
    b" OUTPUT U,F,(X)\n ENDEX Z\nX DESCR\nY DESCR\nZ DESCR\nU DESCR UNITO\nF FORMAT '(I20)'\n END\n";

/// The source of so many cards of the numbers after the seed, and of its last eight cards.
pub fn demo_source(alloc: Global, cards: u32, seed: u32) -> Result<Vec<u8>, AllocError>
    ensures { IfOk result (λ text. text.items ≡ demo_source cards seed) }
{
    let mut text = Vec::new(alloc);
    let mut x = seed;
    for _ in 0..cards {
        x = next_of(x);
        text.extend_from_slice(&demo_card(alloc, x)?)?;
    }
    text.extend_from_slice(TAIL)?;
    Ok(text)
}

/// The parameters of a demo, as the text of a parameter file.
pub fn demo_params() -> &'static [u8]
    ensures { result.now ≡ demo_params }
{
    STANDARD_PARAMS
}
