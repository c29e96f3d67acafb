// Runs a loop on the emulator, for the time of a run to be taken: it prints how many instructions were
// made. The arguments are the loop's name, `mixed` where there is none, and their number, at most 2^40;
// with a name alone it prints the loop's words instead. With the arguments `words N` it writes and reads
// an image of N words.
#![tactic(auto)]

mod images;
mod loops;

use image_file::Image;
use layout_params::{STANDARD_PARAMS, read_params};
use loops::{Loop, named, words_of};
use rv_emulate::{Cpu, CpuEnd};
use std::alloc::{AllocError, Global};
use std::{env, io};
use unit_io::Units;

const DEFAULT: u64 = 100_000;

/// The end of a run of these words under a budget, where they are an image.
fn run(alloc: Global, words: &[u32], budget: u64) -> Result<Option<CpuEnd>, AllocError> {
    let Ok(params) = read_params(alloc, STANDARD_PARAMS) else {
        return Ok(None);
    };
    let image = Image::new(
        &params,
        Vec::new(alloc),
        Vec::from_slice(alloc, words)?,
        Vec::new(alloc),
        Vec::new(alloc),
        Vec::new(alloc),
        Vec::new(alloc),
    );
    let Some(image) = image else {
        return Ok(None);
    };
    let mut cpu = Cpu::new(alloc, &image, 1)?;
    let mut units = Units::new();
    Ok(Some(cpu.run(&mut units, u128::from(budget))))
}

fn print_words(rt: &HostRuntime, words: &[u32]) -> io::Result<()> {
    for word in words {
        println!(rt; "{word:08x}")?;
    }
    Ok(())
}

fn main(rt: HostRuntime) -> io::Result<()> {
    let mut budget = None;
    let mut chosen = None;
    let mut is_image = false;
    for word in env::args(&rt)?.skip(1) {
        if word.as_str() == "words" {
            is_image = true;
        } else if let Some(found) = named(word.as_str()) {
            chosen = Some(found);
        } else {
            budget = Some(word.as_str().parse().unwrap_or(DEFAULT));
        }
    }
    if is_image {
        let count = u32::try_from(budget.unwrap_or(DEFAULT)).unwrap_or(u32::MAX);
        return images::measure(&rt, count);
    }
    let words = words_of(chosen.unwrap_or(Loop::Mixed));
    if chosen.is_some() && budget.is_none() {
        return print_words(&rt, words);
    }
    let budget = budget.unwrap_or(DEFAULT);
    match run(rt.alloc(), words, budget)? {
        Some(CpuEnd::Runaway) => println!(rt; "{budget} instructions"),
        _ => println!(rt; "ended"),
    }
}
