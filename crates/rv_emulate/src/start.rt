// The start of a run.

ghost use Rattle.std.specs.Prelude.{◌≡◌, ◌+◌, ◌-◌, ◌*◌, ◌/◌, ◌<◌, ◌≤◌, ◌^◌, ◌++◌, IfOk, length, map, replicate, slice_index};
ghost use Rattle.unit_io.specs.Tapes.{Tapes};
ghost use Rattle.rv_isa.specs.Decoded.{decoded};
ghost use Rattle.image_file.specs.Image.{IsImage};
ghost use Rattle.rv_emulate.specs.EmulatorStates.{On, cell_total, first_memory, first_registers, padded, start};
ghost use Rattle.rv_emulate.specs.EmulatorRuns.{budget, budget_of};
ghost use Rattle.rv_emulate.specs.Cpus.{IsOf, stands};
ghost use Rattle.rv_emulate.specs.CpuView.{instr_of, memory_of};

use crate::code::Code;
use crate::cpu::Cpu;
use crate::flat::{Flat, flat_of};
use crate::hart::Hart;
use crate::memory::Regions;
use crate::storage::Storage;
use image_file::Image;
use layout_params::Layout;
use rv_isa::decode;
use sil_base::{
    FIRST_WORD, MAX_CELLS, MAX_STEPS, SCRATCH_BYTES, STATEMENT_INSTRUCTIONS, VISIT_INSTRUCTIONS,
};
use std::alloc::{AllocError, Global};

impl Cpu {
    /// A run of an image, of at most `n` statements. It takes all the memory that its steps need.
    #[tactic(auto, unfolding(crate::specs::EmulatorStates::start))]
    pub fn new(alloc: Global, image: &Image, n: u64) -> Result<Cpu, AllocError>
        requires { n ≤ MAX_STEPS }
        ensures image { IfOk result (λ cpu. IsOf image.now cpu) }
        ensures start { IfOk result (λ cpu. (tapes : Tapes) → stands cpu tapes ≡ On (start image.now tapes n)) }
    {
        let code = code_of(alloc, image)?;
        let memory = first_memory(alloc, image)?;
        Ok(Cpu {
            code,
            hart: Hart {
                pc: FIRST_WORD,
                storage: Storage {
                    registers: first_registers(n),
                    memory,
                    failed: None,
                },
            },
            ended: None,
        })
    }
}

/// The instructions that a run of at most `n` statements may take.
pub fn budget(image: &Image, n: u64) -> u128
    requires { n ≤ MAX_STEPS }
    ensures { result ≡ budget image.now n }
{
    budget_of(n, image.cell_total(), image.numbers().descr())
}

fn budget_of(n: u64, cells: u64, descr: u64) -> u128
    requires n { n ≤ MAX_STEPS }
    requires cells { cells ≤ MAX_CELLS }
    requires descr { descr ≤ 64 }
    ensures { result ≡ budget_of n cells descr }
{
    let bytes = 4096 + 4 * cells * descr;
    u128::from(n + 1) * u128::from(STATEMENT_INSTRUCTIONS + VISIT_INSTRUCTIONS * bytes)
}

/// The bound in s9 and s11.
fn first_registers(n: u64) -> [u64; 32]
    ensures same { result ≡ first_registers n }
    ensures zero { slice_index result 0 ≡ 0 }
{
    let mut registers = [0; 32];
    registers[25] = n;
    registers[27] = n;
    registers
}

fn first_memory(alloc: Global, image: &Image) -> Result<Regions, AllocError>
    ensures { IfOk result (λ regions. memory_of regions ≡ first_memory image.now) }
{
    let scratch = zeros(alloc, SCRATCH_BYTES)?;
    regions(alloc, image, scratch)
}

/// The first memory, with these scratch bytes.
fn regions(alloc: Global, image: &Image, scratch: Vec<u8>) -> Result<Regions, AllocError>
    requires { length scratch.items ≤ 2 ^ 26 }
    ensures { IfOk result (λ regions. memory_of regions ≡ record (first_memory image.now) { scratch = scratch.items }) }
{
    let cells = first_cells(alloc, image)?;
    let kinds = first_kinds(alloc, image)?;
    let tables = Vec::from_slice(alloc, image.tables())?;
    Ok(Regions {
        cells,
        kinds,
        tables,
        scratch,
    })
}

fn first_cells(alloc: Global, image: &Image) -> Result<Vec<u8>, AllocError>
    ensures cells { IfOk result (λ v. v.items ≡ padded (cell_total image.now * image.now.settings.sizes.descr) image.now.cells) }
    ensures few { IfOk result (λ v. length v.items ≤ 2 ^ 26) }
    ensures legal { IsImage image.now }
{
    padded(alloc, image.cells(), cell_bytes(image) as usize)
}

/// The bytes of all cells.
fn cell_bytes(image: &Image) -> u64
    ensures same { result ≡ cell_total image.now * image.now.settings.sizes.descr }
    ensures few { result ≤ 2 ^ 26 }
    ensures legal { IsImage image.now }
{
    image.cell_total() * image.numbers().descr()
}

fn first_kinds(alloc: Global, image: &Image) -> Result<Vec<u8>, AllocError>
    ensures kinds { IfOk result (λ v. v.items ≡ padded (cell_total image.now) image.now.kinds) }
    ensures few { IfOk result (λ v. length v.items ≤ 2 ^ 26) }
{
    padded(alloc, image.kinds(), image.cell_total() as usize)
}

/// Zero bytes after these, up to so many.
fn padded(alloc: Global, bytes: &[u8], size: usize) -> Result<Vec<u8>, AllocError>
    requires { length bytes.now ≤ size }
    ensures bytes { IfOk result (λ v. v.items ≡ padded size bytes.now) }
    ensures len { IfOk result (λ v. length v.items ≡ size) }
{
    let mut padded = Vec::with_capacity(alloc, size)?;
    padded.extend_from_slice(bytes)?;
    padded.resize(size, 0)?;
    Ok(padded)
}

fn zeros(alloc: Global, size: usize) -> Result<Vec<u8>, AllocError>
    ensures zeros { IfOk result (λ v. v.items ≡ replicate size 0) }
    ensures len { IfOk result (λ v. length v.items ≡ size) }
{
    vec![in alloc; 0; size]
}

/// What a run reads of the image: its words are decoded, and the rest is copied.
fn code_of(alloc: Global, image: &Image) -> Result<Code, AllocError>
    ensures code { IfOk result (λ code. map instr_of code.flats.items ≡ map decoded image.now.words) }
    ensures constants { IfOk result (λ code. code.constants.items ≡ image.now.constants) }
    ensures places { IfOk result (λ code. code.places.items ≡ map (λ e. e.place) image.now.statements) }
{
    let _ = image.numbers();
    Ok(Code {
        flats: flats(alloc, image.words())?,
        constants: Vec::from_slice(alloc, image.constants())?,
        places: places(alloc, image)?,
        alloc,
    })
}

/// The instruction of each word.
fn flats(alloc: Global, words: &[u32]) -> Result<Vec<Flat>, AllocError>
    ensures { IfOk result (λ v. map instr_of v.items ≡ map decoded words.now) }
{
    let mut flats = Vec::with_capacity(alloc, words.len())?;
    for k in 0..words.len() {
        flats.push(flat_of(decode(words[k])))?;
    }
    Ok(flats)
}

/// The places of the statements.
fn places(alloc: Global, image: &Image) -> Result<Vec<u64>, AllocError>
    ensures { IfOk result (λ v. v.items ≡ map (λ e. e.place) image.now.statements) }
{
    let count = image.statements();
    let mut places = Vec::with_capacity(alloc, count as usize)?;
    for k in 0..count {
        places.push(place_of(image, k))?;
    }
    Ok(places)
}

/// The place of statement `k`.
fn place_of(image: &Image, k: u32) -> u64
    requires { k < length image.now.statements }
    ensures { result ≡ slice_index (map (λ e. e.place) image.now.statements) k }
{
    match image.statement(k) {
        Some((place, _, _)) => place,
        None => 0,
    }
}
