// The parts by which the others are read.
ghost use Rattle.std.specs.Prelude.{◌≡◌, ◌++◌, [], List, ℕ, MatchResult};
ghost use Rattle.layout_params.specs.Parameters as parameters;
ghost use Rattle.layout_params.specs.Parameters.{AreLegalSettings};
ghost use Rattle.image_file.specs.ImageGrammar.{Stand, head_parts, IsRefused};
ghost use Rattle.image_file.specs.Image.{image_of};
ghost use Rattle.image_file.specs.ImageReading.{StopsAt};
ghost use Rattle.image_file.specs.Spelling.{mark_part, version_part, settings_part, counts_part, counts_list, FitAll};

use crate::counts::Counts;
use crate::cursor::{cut, read_numbers, read_parameters};
use crate::numbers::number_32;
use crate::stop::ImageStop;
use crate::version::VERSION;
use layout_params::Settings;

/// The settings, the counts, and the bytes after them.
pub(crate) fn read_head(bytes: &[u8]) -> Result<(Settings, Counts, &[u8]), ImageStop>
    ensures { MatchResult result
        (λ r. Stand head_parts r.1 (image_of r.0 [] [] [] [] [] []) bytes.now r.2.now)
        (λ e. IsRefused e bytes.now) }
{
    let rest = read_mark(bytes)?;
    let rest = read_version(rest)?;
    let (settings, rest) = read_settings(rest)?;
    let (counts, rest) = read_counts(rest)?;
    if !counts.are_within(&settings) {
        return Err(ImageStop::Part(5));
    }
    Ok((settings, counts, rest))
}

/// The bytes after the first eight.
fn read_mark(bytes: &[u8]) -> Result<&[u8], ImageStop>
    ensures { MatchResult result (λ rest. bytes.now ≡ mark_part ++ rest.now)
        (λ e. StopsAt e 1 ((rest : List ℕ) → ¬ (bytes.now ≡ mark_part ++ rest))) }
{
    let (mark, rest) = cut(bytes, 8, 1)?;
    if mark != b"SILRV64\n".as_slice() {
        return Err(ImageStop::Part(1));
    }
    Ok(rest)
}

/// The bytes after the version.
fn read_version(bytes: &[u8]) -> Result<&[u8], ImageStop>
    ensures { MatchResult result (λ rest. bytes.now ≡ version_part ++ rest.now)
        (λ e. StopsAt e 2 ((rest : List ℕ) → ¬ (bytes.now ≡ version_part ++ rest))) }
{
    let (version, rest) = cut(bytes, 4, 2)?;
    if number_32(version) != VERSION {
        return Err(ImageStop::Part(2));
    }
    Ok(rest)
}

/// The settings, and the bytes after them.
fn read_settings(bytes: &[u8]) -> Result<(Settings, &[u8]), ImageStop>
    ensures { MatchResult result
        (λ r. (bytes.now ≡ settings_part r.0 ++ r.1.now) × AreLegalSettings r.0)
        (λ e. StopsAt e 3 ((s : parameters.Settings) (rest : List ℕ) → bytes.now ≡ settings_part s ++ rest → ¬ AreLegalSettings s)) }
{
    let (parameters, rest) = cut(bytes, 112, 3)?;
    let (part, rest) = cut(rest, 8, 3)?;
    let mut date = [0; 8];
    date.copy_from_slice(part);
    match Settings::new(read_parameters(parameters), date) {
        Some(settings) => Ok((settings, rest)),
        None => Err(ImageStop::Part(3)),
    }
}

/// The counts, and the bytes after them.
fn read_counts(bytes: &[u8]) -> Result<(Counts, &[u8]), ImageStop>
    ensures { MatchResult result
        (λ r. (bytes.now ≡ counts_part r.0 ++ r.1.now) × FitAll 4 (counts_list r.0))
        (λ e. StopsAt e 4 ((c : Counts) (rest : List ℕ) → ¬ (bytes.now ≡ counts_part c ++ rest))) }
{
    let (part, rest) = cut(bytes, 20, 4)?;
    Ok((Counts::of(read_numbers(part)), rest))
}
