// The lines that are noted.
ghost use Rattle.std.specs.Prelude.{◌≡◌, IfOk};
ghost use Rattle.command_report.specs.Endings.{run_line, numbered_line, named_line, checked_file, fault_line, checked_line, installed_line, demo_line};

use itoa::Buffer;
use rv_emulate::CpuEnd;
use sil_base::{Fault, Record};
use std::alloc::{AllocError, Global};

/// The line of a run that ends so.
pub fn run_line(alloc: Global, end: CpuEnd) -> Result<Vec<u8>, AllocError>
    ensures { IfOk result (λ text. text.items ≡ run_line end) }
{
    match end {
        CpuEnd::Exit(code) => numbered(alloc, b"exit ", u64::from(code)),
        CpuEnd::Trap(statement) => numbered(alloc, b"trap ", u64::from(statement)),
        CpuEnd::Undefined(statement) => numbered(alloc, b"undefined ", u64::from(statement)),
        CpuEnd::Budget => Vec::from_slice(alloc, b"budget\n"),
        CpuEnd::UnitFault(statement, unit) => {
            let mut line = Vec::from_slice(alloc, b"unit fault ")?;
            line.extend_from_slice(Buffer::new().format(statement).as_bytes())?;
            line.extend_from_slice(b" ")?;
            line.extend_from_slice(Buffer::new().format(unit).as_bytes())?;
            line.extend_from_slice(b"\n")?;
            Ok(line)
        }
        CpuEnd::Illegal(pc) => numbered(alloc, b"machine fault illegal ", pc),
        CpuEnd::Fetch(pc) => numbered(alloc, b"machine fault fetch ", pc),
        CpuEnd::Load(pc) => numbered(alloc, b"machine fault load ", pc),
        CpuEnd::Store(pc) => numbered(alloc, b"machine fault store ", pc),
        CpuEnd::BadCall(pc) => numbered(alloc, b"machine fault call ", pc),
        CpuEnd::Runaway => Vec::from_slice(alloc, b"machine fault runaway\n"),
        CpuEnd::Memory => Vec::from_slice(alloc, b"memory\n"),
    }
}

/// The line of a source that was checked.
pub fn checked(alloc: Global, statements: u64, cells: u64) -> Result<Vec<u8>, AllocError>
    ensures { IfOk result (λ text. text.items ≡ checked_line statements cells) }
{
    let mut line = Vec::from_slice(alloc, b"checked ")?;
    line.extend_from_slice(Buffer::new().format(statements).as_bytes())?;
    line.extend_from_slice(b" statements ")?;
    line.extend_from_slice(Buffer::new().format(cells).as_bytes())?;
    line.extend_from_slice(b" cells\n")?;
    Ok(line)
}

/// The line of an image of so many bytes that was installed.
pub fn installed(alloc: Global, bytes: u64) -> Result<Vec<u8>, AllocError>
    ensures { IfOk result (λ text. text.items ≡ installed_line bytes) }
{
    let mut line = Vec::from_slice(alloc, b"installed ")?;
    line.extend_from_slice(Buffer::new().format(bytes).as_bytes())?;
    line.extend_from_slice(b" bytes\n")?;
    Ok(line)
}

/// The line of a demo of so many statements, whose image has so many bytes.
pub fn demo(alloc: Global, statements: u64, bytes: u64) -> Result<Vec<u8>, AllocError>
    ensures { IfOk result (λ text. text.items ≡ demo_line statements bytes) }
{
    let mut line = Vec::from_slice(alloc, b"demo ")?;
    line.extend_from_slice(Buffer::new().format(statements).as_bytes())?;
    line.extend_from_slice(b" statements ")?;
    line.extend_from_slice(Buffer::new().format(bytes).as_bytes())?;
    line.extend_from_slice(b" bytes\n")?;
    Ok(line)
}

/// A line of a word and a number.
pub fn numbered(alloc: Global, word: &[u8], number: u64) -> Result<Vec<u8>, AllocError>
    ensures { IfOk result (λ text. text.items ≡ numbered_line word.now number) }
{
    let mut line = Vec::from_slice(alloc, word)?;
    line.extend_from_slice(Buffer::new().format(number).as_bytes())?;
    line.extend_from_slice(b"\n")?;
    Ok(line)
}

/// A line of a word and a name.
pub fn named(alloc: Global, word: &[u8], name: &Record) -> Result<Vec<u8>, AllocError>
    ensures { IfOk result (λ text. text.items ≡ named_line word.now name.now) }
{
    let mut line = Vec::from_slice(alloc, word)?;
    line.extend_from_slice(name.bytes())?;
    line.extend_from_slice(b"\n")?;
    Ok(line)
}

/// The name of a file that is checked.
fn checked_file(file: u8) -> &'static [u8]
    ensures { result.now ≡ checked_file file }
{
    match file {
        0 => b"source ",
        1 => b"tables ",
        _ => b"params ",
    }
}

/// A line that breaks a rule, as `source 12 C3`.
pub fn fault_line(alloc: Global, fault: &Fault) -> Result<Vec<u8>, AllocError>
    ensures { IfOk result (λ text. text.items ≡ fault_line fault.now) }
{
    let mut line = Vec::from_slice(alloc, checked_file(fault.line.file))?;
    line.extend_from_slice(Buffer::new().format(fault.line.number).as_bytes())?;
    line.extend_from_slice(b" ")?;
    line.push(fault.code.letter)?;
    line.extend_from_slice(Buffer::new().format(fault.code.rule).as_bytes())?;
    line.extend_from_slice(b"\n")?;
    Ok(line)
}
