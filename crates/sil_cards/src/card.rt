// Cards.
ghost use Rattle.std.specs.Prelude.{◌≡◌, IfOk};
ghost use Rattle.sil_cards.specs.Contents.{AreContents};

use crate::fields::Fields;
use sil_base::Record;
use sil_macros::Macro;
use sil_operands::Operands;
use std::alloc::{AllocError, Global};
use std::marker::Model;

/// A card that is no comment. Its number counts all lines that are read, from 1. It keeps the macro
/// and the operands that were read of its fields.
#[derive(Debug, Drop)]
pub struct Card {
    number: u32,
    label: Record,
    operation: Record,
    operands: Record,
    name: Macro,
    contents: Operands,
}

impl Model for Card {
    ghost use Rattle.sil_cards.specs.CardParts.{CardParts};
    ghost use Rattle.sil_cards.specs.Contents.{AreContents};

    ghost Value = { CardParts };

    ghost view = { λ c. record { number = c.number; label = c.label; operation = c.operation; operands = c.operands } };

    ghost invariant = { λ c. AreContents c.name c.contents c.operation c.operands };
}

/// What the fields of a card say: its number, its label, its macro and its operands.
#[derive(Debug, Drop)]
pub struct CardContents {
    pub number: u32,
    pub label: Record,
    pub name: Macro,
    pub operands: Operands,
}

impl Card {
    /// A card of these parts, with the macro and the operands that they say.
    pub(crate) fn of(
        alloc: Global,
        number: u32,
        f: &Fields<'_>,
        name: Macro,
        contents: Operands,
    ) -> Result<Card, AllocError>
        requires { AreContents name contents f.now.operation.now f.now.operands.now }
        ensures { IfOk result (λ c. c ≡ record { number = number; label = f.now.label.now; operation = f.now.operation.now; operands = f.now.operands.now }) }
    {
        Ok(Card {
            number,
            label: Record::of(alloc, f.label)?,
            operation: Record::of(alloc, f.operation)?,
            operands: Record::of(alloc, f.operands)?,
            name,
            contents,
        })
    }

    /// The number of the card among all lines that are read, from 1.
    pub fn number(&self) -> u32
        ensures { result ≡ self.now.number }
    {
        self.number
    }

    /// The label, which is empty or a name.
    pub fn label(&self) -> &[u8]
        ensures { result.now ≡ self.now.label }
    {
        self.label.bytes()
    }

    /// The name of the macro.
    pub fn operation(&self) -> &[u8]
        ensures { result.now ≡ self.now.operation }
    {
        self.operation.bytes()
    }

    /// The operand field.
    pub fn operands(&self) -> &[u8]
        ensures { result.now ≡ self.now.operands }
    {
        self.operands.bytes()
    }

    /// What the fields say.
    pub fn into_contents(self) -> CardContents
        ensures number { result.number ≡ self.number }
        ensures label { result.label ≡ self.label }
        ensures contents { AreContents result.name result.operands self.operation self.operands }
    {
        let Card {
            number,
            label,
            name,
            contents,
            ..
        } = self;
        CardContents {
            number,
            label,
            name,
            operands: contents,
        }
    }
}
