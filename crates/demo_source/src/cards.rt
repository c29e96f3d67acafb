// The cards of a demo, each of a number.
ghost use Rattle.std.specs.Prelude.{◌≡◌, ◌++◌, IfOk, codes, decimal};
ghost use Rattle.demo_source.specs.DemoSource.{demo_card, next_of};

use itoa::Buffer;
use std::alloc::{AllocError, Global};

/// The number after x, of which the next card is made.
pub fn next_of(x: u32) -> u32
    ensures { result ≡ next_of x }
{
    ((1_103_515_245 * u64::from(x) + 12_345) % (1 << 31)) as u32
}

/// A card of these bytes and a number.
fn numbered(alloc: Global, front: &[u8], number: u32) -> Result<Vec<u8>, AllocError>
    ensures { IfOk result (λ card. card.items ≡ front.now ++ decimal number ++ codes "\n") }
{
    let mut card = Vec::from_slice(alloc, front)?;
    card.extend_from_slice(Buffer::new().format(number).as_bytes())?;
    card.extend_from_slice(b"\n")?;
    Ok(card)
}

/// The card of a number, with its LF.
pub fn demo_card(alloc: Global, x: u32) -> Result<Vec<u8>, AllocError>
    ensures { IfOk result (λ card. card.items ≡ demo_card x) }
{
    match (x / 65_536) % 4 {
        0 => numbered(alloc, b" INCRA X,", x % 1_000),
        1 => numbered(alloc, b" DECRA X,", x % 1_000),
        2 => numbered(alloc, b" SETAC Y,", x % 1_000),
        _ => Vec::from_slice(alloc, b" SUM X,X,Y\n"),
    }
}
