//! Laws of the words.

ghost use Rattle.std.specs.Prelude.{◌≡◌, Some};
ghost use Rattle.rv_isa.specs.Decoded.{decoded};
ghost use Rattle.rv_isa.specs.InstrWords.{IsInstr, word_of};
ghost use Rattle.rv_isa.specs.declared.instr.Instr.{Instr};

/// No two instructions have one word.
pub fn one_word()
    ensures { (i j : Instr) → IsInstr i → IsInstr j → word_of i ≡ word_of j → i ≡ j }
{}

/// The word of an instruction is decoded to that instruction.
pub fn read_again()
    ensures { (i : Instr) → IsInstr i → decoded (word_of i) ≡ Some i }
{}
