// What is read so far, line by line.
ghost use Rattle.std.specs.Prelude.{◌≡◌, ◌+◌, ◌≤◌, ◌++◌, ◌∷◌, ◌||◌, List, [], length, IfOk, IfErr, OnOk, MatchResult, Ok, Err, false};
ghost use Rattle.sil_base.specs.Lines.{without_end};
ghost use Rattle.sil_cards.specs.Cards.{AreCards};
ghost use Rattle.sil_cards.specs.CardVerdicts.{is_end};
ghost use Rattle.sil_cards.specs.Reads.{Read, ReadLine};
ghost use Rattle.sil_cards.specs.Readings.{is_full, limited, card_fault, given_cards, given_faults};
ghost use Rattle.sil_cards.specs.CardFields.{fields_of};
ghost use Rattle.sil_cards.specs.Contents.{AreContents};
ghost use Rattle.sil_cards.specs.CardSteps.{going_on, ended, after_step, after_flow, is_free, FlowKeeps, IsFaults, NoLoad, step_of, StepCopies, StepKeeps, IsGoing, HasEnded};

use crate::card::Card;
use crate::fields::fields_of;
use crate::stop::CardStop;
use crate::verdict::{Judged, Verdict, is_end, judge};
use sil_base::{
    Fault, Items, MAX_CARDS, MAX_FILE_BYTES, Record, SOURCE_FILE, fault_at, without_end,
};
use sil_macros::Macro;
use sil_operands::Operands;
use std::alloc::{AllocError, Global};

/// The cards and faults so far, and the numbers of lines and of their bytes.
#[derive(Drop)]
pub(crate) struct Reader {
    pub cards: Vec<Card>,
    pub faults: Vec<Fault>,
    pub number: u32,
    pub bytes: u64,
}

/// Whether the reading goes on after a file.
#[derive(Clone, Copy)]
pub(crate) enum Flow {
    Goes,
    Ends,
}

/// How the reading goes on after a line.
#[derive(Drop)]
pub(crate) enum Step {
    Goes,
    /// With the file of this name.
    Copies(Record),
    Ends,
}

fn card_fault(number: u32, rule: u8) -> Fault
    ensures { result ≡ card_fault number rule }
{
    fault_at(SOURCE_FILE, b'C', number, rule)
}

/// A card with which a limit may be passed.
fn limited(full: bool, verdict: Verdict) -> Verdict
    ensures { result ≡ limited full verdict }
{
    match verdict {
        Verdict::Broken(rule) => Verdict::Broken(rule),
        _ if full => Verdict::Broken(7),
        verdict => verdict,
    }
}

/// Whether a limit is passed.
fn is_full(number: u32, bytes: u64) -> bool
    ensures { result ≡ is_full number bytes }
{
    number > MAX_CARDS || bytes > MAX_FILE_BYTES
}

/// Whether the reading ends with a card.
fn is_last(full: bool, text: &[u8]) -> bool
    ensures { result ≡ (full || is_end text.now) }
{
    full || is_end(text)
}

/// The step that a card leads to, where the reading goes on.
fn step_of(verdict: Verdict) -> Step
    ensures { result ≡ step_of verdict }
{
    match verdict {
        Verdict::Copies(name) => Step::Copies(name),
        Verdict::Skipped | Verdict::Broken(_) | Verdict::Taken => Step::Goes,
    }
}

impl Reader {
    pub fn new(alloc: Global) -> Reader
        ensures empty { (result.cards.items ≡ []) × (result.faults.items ≡ []) }
        ensures none { (result.number ≡ 0) × (result.bytes ≡ 0) }
    {
        Reader {
            cards: Vec::new(alloc),
            faults: Vec::new(alloc),
            number: 0,
            bytes: 0,
        }
    }

    /// Notes the fault of the last line, or takes its card.
    fn note(
        &mut self,
        alloc: Global,
        text: &[u8],
        verdict: &Verdict,
        name: Macro,
        operands: Operands,
    ) -> Result<(), AllocError>
        requires { verdict.now ≡ Verdict.Taken
            → AreContents name operands (fields_of text.now).operation (fields_of text.now).operands }
        ensures cards { OnOk result (self.new.cards.items
            ≡ self.old.cards.items ++ given_cards self.old.number text.now verdict.now) }
        ensures faults { OnOk result (self.new.faults.items
            ≡ self.old.faults.items ++ given_faults self.old.number verdict.now) }
        ensures numbers { (self.new.number ≡ self.old.number) × (self.new.bytes ≡ self.old.bytes) }
    {
        match verdict {
            Verdict::Broken(rule) => self.faults.push(card_fault(self.number, *rule))?,
            Verdict::Taken => {
                let fields = fields_of(text);
                self.cards
                    .push(Card::of(alloc, self.number, &fields, name, operands)?)?;
            }
            Verdict::Skipped | Verdict::Copies(_) => {}
        }
        Ok(())
    }

    /// Reads a line, with its end, of a file where files may be so many levels deeper.
    pub fn take_line(&mut self, alloc: Global, line: &[u8], deeper: u8) -> Result<Step, AllocError>
        requires going { IsGoing self.old }
        requires short { length line.now ≤ MAX_FILE_BYTES }
        ensures read { IfOk result (λ step. (rest : List Read)
            → going_on self.old (ReadLine deeper line.now ∷ rest) ≡ after_step step self.new rest) }
        ensures copies { IfOk result (λ step. StepCopies step deeper line.now) }
        ensures keeps { IfOk result (λ step. StepKeeps step self.new) }
    {
        self.number += 1;
        self.bytes += line.len() as u64;
        let full = is_full(self.number, self.bytes);
        let text = without_end(line);
        let Judged {
            verdict,
            name,
            operands,
        } = judge(alloc, text, deeper)?;
        let verdict = limited(full, verdict);
        self.note(alloc, text, &verdict, name, operands)?;
        if is_last(full, text) {
            return Ok(Step::Ends);
        }
        Ok(step_of(verdict))
    }

    /// Notes that no END was read.
    fn note_no_end(&mut self) -> Result<(), AllocError>
        requires { IsGoing self.old }
        ensures ended { OnOk result (going_on self.old [] ≡ ended self.new) }
        ensures keeps { OnOk result (HasEnded self.new) }
    {
        self.faults.push(card_fault(self.number + 1, 8))?;
        Ok(())
    }

    /// The cards, or the lines that break a rule.
    fn answer(self) -> Result<Vec<Card>, CardStop>
        requires { HasEnded self }
        ensures answer { MatchResult result (λ v. ended self ≡ Ok v.items) (λ e. ended self ≡ Err e) }
        ensures good { IfOk result (λ v. AreCards v.items) }
        ensures few { IfOk result (λ v. length v.items ≤ MAX_CARDS) }
        ensures faults { IfErr result IsFaults }
    {
        let Reader { cards, faults, .. } = self;
        if faults.is_empty() {
            Ok(cards)
        } else {
            Err(CardStop::Faults(Items::of(faults)))
        }
    }

    /// The cards, or the lines that break a rule, where nothing more is read.
    pub fn finish(mut self, flow: Flow) -> Result<Vec<Card>, CardStop>
        requires { FlowKeeps flow self }
        ensures answer { MatchResult result (λ v. after_flow flow self [] ≡ Ok v.items)
            (λ e. is_free e ≡ false → after_flow flow self [] ≡ Err e) }
        ensures good { IfOk result (λ v. AreCards v.items) }
        ensures few { IfOk result (λ v. length v.items ≤ MAX_CARDS) }
        ensures faults { IfErr result NoLoad }
    {
        match flow {
            Flow::Goes => {
                self.note_no_end()?;
                self.answer()
            }
            Flow::Ends => self.answer(),
        }
    }
}
