// Words at the end of the code.
ghost use Rattle.std.specs.Prelude.{◌≡◌, ◌++◌, map, All, OnOk};
ghost use Rattle.rv_isa.specs.InstrWords.{IsInstr, word_of};

use rv_isa::{Instr, encode};
use std::alloc::AllocError;

/// Appends the words of instructions, which have them.
pub fn append_words(words: &mut Vec<u32>, code: &[Instr]) -> Result<(), AllocError>
    requires { All IsInstr code.now }
    ensures { OnOk result (words.new.items ≡ words.old.items ++ map word_of code.now) }
{
    for instr in code {
        words.push(encode(*instr))?;
    }
    Ok(())
}
