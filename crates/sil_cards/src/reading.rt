// The cards of a source and of the files that it copies.
ghost use Rattle.std.specs.Prelude.{◌≡◌, ◌+◌, ◌≤◌, ◌++◌, List, length, IfOk, IfErr, IfSome, MatchResult, Some, Ok, Err, false, suc};
ghost use Rattle.std.specs.Str.{IsAscii};
ghost use Rattle.sil_base.specs.Files.{Files};
ghost use Rattle.sil_cards.specs.Cards.{AreCards};
ghost use Rattle.sil_cards.specs.Reads.{Read, file_read, text_at};
ghost use Rattle.sil_cards.specs.Readings.{cards_of, loads_of, StopsAt};
ghost use Rattle.sil_cards.specs.CardSteps.{going_on, after_flow, FlowKeeps, IsGoing, is_free, StopCause};

use crate::card::Card;
use crate::reader::{Flow, Reader, Step};
use crate::stop::CardStop;
use sil_base::{MAX_CARDS, MAX_FILE_BYTES, Record, Store, cut_line, load_file};
use std::alloc::Global;
use std::str;

/// How many levels of files a source may copy.
const MAX_DEPTH: u8 = 8;

/// The bytes of a file.
fn load<S: Store>(alloc: Global, store: &mut S, name: &str) -> Result<Vec<u8>, CardStop>
    ensures kept { S.files store.new ≡ S.files store.old }
    ensures within { IfOk result (λ text. length text.items ≤ MAX_FILE_BYTES) }
    ensures loaded { IfSome (S.files store.old) (λ files. MatchResult result
        (λ text. text_at files name.now ≡ Ok text.items)
        (λ e. is_free e ≡ false → text_at files name.now ≡ Err e)) }
    ensures count { S.faults store.old ≤ S.faults store.new }
    ensures cause { IfErr result (λ e. StopCause e (S.faults store.old) (S.faults store.new)) }
{
    Ok(load_file(alloc, store, name, MAX_FILE_BYTES)?)
}

/// The name of a file, which is in ASCII.
fn file_name(file: &Record) -> &str
    requires { IsAscii file.now }
    ensures { result.now ≡ file.now }
{
    match str::from_utf8(file.bytes()) {
        Ok(name) => name,
        Err(_) => unreachable!(),
    }
}

/// Reads a file, where files may be so many levels deeper.
fn read_file<S: Store>(
    alloc: Global,
    store: &mut S,
    reader: &mut Reader,
    name: &str,
    deeper: u8,
) -> Result<Flow, CardStop>
    requires { IsGoing reader.old }
    ensures kept { S.files store.new ≡ S.files store.old }
    ensures count { S.faults store.old ≤ S.faults store.new }
    ensures cause { IfErr result (λ e. StopCause e (S.faults store.old) (S.faults store.new)) }
    ensures keeps { IfOk result (λ flow. FlowKeeps flow reader.new) }
    ensures read { (files : Files) → S.files store.old ≡ Some files → (rest : List Read) → MatchResult result
        (λ flow. going_on reader.old (file_read files (suc deeper) name.now ++ rest) ≡ after_flow flow reader.new rest)
        (λ e. is_free e ≡ false → going_on reader.old (file_read files (suc deeper) name.now ++ rest) ≡ Err e) }
{
    let text = load(alloc, store, name)?;
    let mut rest = text.as_slice();
    while let Some((line, more)) = cut_line(rest) {
        match reader.take_line(alloc, line, deeper)? {
            Step::Goes => {}
            Step::Ends => return Ok(Flow::Ends),
            Step::Copies(file) => {
                let name = file_name(&file);
                if let Flow::Ends = read_file(alloc, store, reader, name, deeper - 1)? {
                    return Ok(Flow::Ends);
                }
            }
        }
        rest = more;
    }
    Ok(Flow::Goes)
}

/// The cards of a source: all but comments, COPY and TITLE, up to END, which is the last. Files
/// are loaded as they are copied, eight levels deep at most, and a COPY counts as a card. Faults
/// have the letter C: 1 a card of more than 256 bytes, 2 a byte that isn't a tab and not from 32
/// to 126, 3 no macro, 4 no operand field, 5 no label, 6 a COPY in a file that is eight levels
/// deep, 7 the line with which there are more than 40,000 lines or 2,097,152 bytes, 8 no END.
pub fn read_cards<S: Store>(alloc: Global, store: &mut S, name: &str) -> Result<Vec<Card>, CardStop>
    ensures cards { IfSome (S.files store.old) (λ files. IfOk result
        (λ cards. cards_of files name.now ≡ Ok cards.items)) }
    ensures stops { IfSome (S.files store.old) (λ files. IfErr result
        (λ e. is_free e ≡ false → cards_of files name.now ≡ Err e)) }
    ensures last { IfSome (S.files store.old) (λ files. IfErr result
        (λ e. is_free e ≡ false → StopsAt files (loads_of files name.now) e)) }
    ensures good { IfOk result (λ cards. AreCards cards.items) }
    ensures few { IfOk result (λ cards. length cards.items ≤ MAX_CARDS) }
    ensures kept { S.files store.new ≡ S.files store.old }
    ensures count { S.faults store.old ≤ S.faults store.new }
    ensures cause { IfErr result (λ e. StopCause e (S.faults store.old) (S.faults store.new)) }
{
    let mut reader = Reader::new(alloc);
    let flow = read_file(alloc, store, &mut reader, name, MAX_DEPTH)?;
    reader.finish(flow)
}
