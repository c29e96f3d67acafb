// What a card is, by the rules that hold of a card alone.
ghost use Rattle.std.specs.Prelude.{◌≡◌, [], IfOk, codes, option_map, option_and_then, unwrap_or, if◌then◌else◌};
ghost use Rattle.std.specs.List.{list_all};
ghost use Rattle.sil_base.specs.Names.{is_word};
ghost use Rattle.sil_cards.specs.CardVerdicts.{is_card_byte, is_label, some_text, file_of, file_named, copy_verdict, other_verdict, verdict_of_fields, verdict, is_end};
ghost use Rattle.sil_operands.specs.OperandReading.{operands_of};
ghost use Rattle.sil_cards.specs.CardFields.{fields_of};
ghost use Rattle.sil_cards.specs.HeldFields.{fields_held};
ghost use Rattle.sil_cards.specs.Contents.{AreContents};

use crate::fields::{Fields, fields_of, is_comment};
use sil_base::{Record, is_name};
use sil_macros::{Macro, macro_of};
use sil_operands::{Operand, OperandFault, Operands, are_null, named_alone, read_operands};
use std::alloc::{AllocError, Global};

const MAX_CARD: usize = 256;

/// What a card is.
#[derive(Drop)]
pub(crate) enum Verdict {
    /// A comment, or TITLE.
    Skipped,
    /// The least rule that the card breaks.
    Broken(u8),
    /// A COPY of the file of this name.
    Copies(Record),
    /// Any other card.
    Taken,
}

/// What a card is, and the macro and the operands of one that is taken.
#[derive(Drop)]
pub(crate) struct Judged {
    pub verdict: Verdict,
    pub name: Macro,
    pub operands: Operands,
}

impl Judged {
    /// A card that isn't taken.
    fn untaken(alloc: Global, verdict: Verdict) -> Judged
        ensures { result.verdict ≡ verdict }
    {
        Judged {
            verdict,
            name: Macro::End,
            operands: Operands::none(alloc),
        }
    }
}

fn is_card_byte(byte: u8) -> bool
    ensures { result ≡ is_card_byte byte }
{
    byte == b'\t' || (32 <= byte && byte <= 126)
}

fn are_card_bytes(text: &[u8]) -> bool
    ensures { result ≡ list_all is_card_byte text.now }
{
    text.iter().all(|c| is_card_byte(*c))
}

fn is_label(label: &[u8]) -> bool
    ensures { result ≡ is_label label.now }
{
    label.is_empty() || is_name(label)
}

fn some_text(text: &[u8]) -> Option<&[u8]>
    ensures { option_map (λ name. name.now) result ≡ some_text text.now }
{
    if text.is_empty() { None } else { Some(text) }
}

/// The file that one operand of COPY names.
fn file_of(operand: &Operand) -> Option<&[u8]>
    ensures { option_map (λ name. name.now) result ≡ file_of operand.now }
{
    match operand {
        Operand::Expr(expr) => named_alone(expr.terms()),
        Operand::Text(text) => some_text(text.bytes()),
        Operand::Null | Operand::List(_) => None,
    }
}

/// The file that the operands of COPY name.
fn file_named(operands: &[Operand]) -> Option<&[u8]>
    ensures { option_map (λ name. name.now) result ≡ file_named operands.now }
{
    match operands.split_first() {
        Some((operand, rest)) if are_null(rest) => file_of(operand),
        _ => None,
    }
}

/// The file that the operands of COPY name, where they are in the grammar.
fn copied_file(alloc: Global, operands: &Option<Operands>) -> Result<Option<Record>, AllocError>
    ensures { IfOk result (λ file. file ≡ option_and_then file_named operands.now) }
{
    let Some(operands) = operands else {
        return Ok(None);
    };
    match file_named(operands.items()) {
        Some(name) => Ok(Some(Record::of(alloc, name)?)),
        None => Ok(None),
    }
}

/// The operands of a field, where it is in the grammar.
fn operands_in(alloc: Global, field: &[u8]) -> Result<Option<Operands>, AllocError>
    ensures { IfOk result (λ operands. operands ≡ operands_of field.now) }
{
    match read_operands(alloc, field) {
        Ok(operands) => Ok(Some(operands)),
        Err(OperandFault::Bad) => Ok(None),
        Err(OperandFault::Memory) => Err(AllocError),
    }
}

/// The operands of a card, by what was read of its field; END has none.
fn operands_of_card(alloc: Global, operation: &[u8], read: Option<Operands>) -> Operands
    ensures { result ≡ (if is_word operation.now (codes "END") then [] else unwrap_or read []) }
{
    match read {
        Some(operands) if operation != b"END".as_slice() => operands,
        _ => Operands::none(alloc),
    }
}

fn copy_verdict(deeper: u8, label: &[u8], file: Option<Record>) -> Verdict
    ensures { result ≡ copy_verdict deeper label.now file }
{
    let Some(name) = file else {
        return Verdict::Broken(4);
    };
    if !is_label(label) {
        Verdict::Broken(5)
    } else if deeper == 0 {
        Verdict::Broken(6)
    } else {
        Verdict::Copies(name)
    }
}

/// A card of another macro, by what is known of its operand field.
fn other_verdict(f: &Fields<'_>, fits: bool) -> Verdict
    ensures { result ≡ other_verdict (fields_held f.now) fits }
{
    let title = f.operation == b"TITLE".as_slice();
    if !title && f.operation != b"END".as_slice() && !fits {
        Verdict::Broken(4)
    } else if !is_label(f.label) {
        Verdict::Broken(5)
    } else if title {
        Verdict::Skipped
    } else {
        Verdict::Taken
    }
}

#[tactic(auto, unfolding(crate::specs::CardVerdicts::is_macro, crate::specs::CardVerdicts::has_operands, crate::specs::CardVerdicts::copied_file, crate::specs::Contents::operation_of, crate::specs::Contents::operands_at))]
fn judge_fields(alloc: Global, f: &Fields<'_>, deeper: u8) -> Result<Judged, AllocError>
    ensures verdict { IfOk result (λ j. j.verdict ≡ verdict_of_fields deeper (fields_held f.now)) }
    ensures contents { IfOk result (λ j. j.verdict ≡ Verdict.Taken
        → AreContents j.name j.operands f.now.operation.now f.now.operands.now) }
{
    let Some(name) = macro_of(f.operation) else {
        return Ok(Judged::untaken(alloc, Verdict::Broken(3)));
    };
    let read = operands_in(alloc, f.operands)?;
    if f.operation == b"COPY".as_slice() {
        let file = copied_file(alloc, &read)?;
        return Ok(Judged::untaken(alloc, copy_verdict(deeper, f.label, file)));
    }
    Ok(Judged {
        verdict: other_verdict(f, read.is_some()),
        name,
        operands: operands_of_card(alloc, f.operation, read),
    })
}

/// What a card is in a file, where files may be so many levels deeper.
#[tactic(auto, unfolding(crate::specs::CardVerdicts::verdict))]
pub(crate) fn judge(alloc: Global, text: &[u8], deeper: u8) -> Result<Judged, AllocError>
    ensures verdict { IfOk result (λ j. j.verdict ≡ verdict deeper text.now) }
    ensures contents { IfOk result (λ j. j.verdict ≡ Verdict.Taken
        → AreContents j.name j.operands (fields_of text.now).operation (fields_of text.now).operands) }
{
    if is_comment(text) {
        return Ok(Judged::untaken(alloc, Verdict::Skipped));
    }
    if text.len() > MAX_CARD {
        return Ok(Judged::untaken(alloc, Verdict::Broken(1)));
    }
    if !are_card_bytes(text) {
        return Ok(Judged::untaken(alloc, Verdict::Broken(2)));
    }
    judge_fields(alloc, &fields_of(text), deeper)
}

/// Whether a card is END.
#[tactic(auto, unfolding(crate::specs::CardVerdicts::is_end))]
pub(crate) fn is_end(text: &[u8]) -> bool
    ensures { result ≡ is_end text.now }
{
    !is_comment(text)
        && text.len() <= MAX_CARD
        && are_card_bytes(text)
        && fields_of(text).operation == b"END".as_slice()
}
