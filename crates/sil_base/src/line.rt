// Lines of what is read, and the faults found in them.
ghost use Rattle.std.specs.Prelude.{◌≡◌};
ghost use Rattle.sil_base.specs.Faults.{fault_at};

/// The file of a line: the source with what it copies, the tables, or the parameters.
pub const SOURCE_FILE: u8 = 0;

pub const TABLES_FILE: u8 = 1;

pub const PARAMETER_FILE: u8 = 2;

/// A line of a file; lines are numbered from 1.
#[derive(Debug, Clone, Copy, PartialEq, Eq)]
pub struct Line {
    pub file: u8,
    pub number: u32,
}

/// The rule that a line breaks: an ASCII letter for its kind, and a number within the kind.
#[derive(Debug, Clone, Copy, PartialEq, Eq)]
pub struct FaultCode {
    pub letter: u8,
    pub rule: u8,
}

/// A line that breaks a rule.
#[derive(Debug, Clone, Copy, PartialEq, Eq)]
pub struct Fault {
    pub line: Line,
    pub code: FaultCode,
}

/// The fault of a line of a file.
pub fn fault_at(file: u8, letter: u8, line: u32, rule: u8) -> Fault
    ensures { result ≡ fault_at file letter line rule }
{
    Fault {
        line: Line { file, number: line },
        code: FaultCode { letter, rule },
    }
}
