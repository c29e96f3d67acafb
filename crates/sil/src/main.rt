// The program: real files, streams and arguments round the top call.
#![tactic(auto)]

mod adapters;

use adapters::{FileStore, WriterSink};
use real_units::{FileUnit, InputUnit, OutputUnit};
use sil_cli::{after_finishes, sil_main};
use std::process::ExitCode;
use std::{env, io};
use unit_io::Units;

/// Runs the program's words over the real world. The error is want of memory.
fn run(rt: &HostRuntime) -> io::Result<u8> {
    let alloc = rt.alloc();
    let mut words = Vec::new(alloc);
    for word in env::args(rt)?.skip(1) {
        words.push(word)?;
    }
    let mut store = FileStore::new(rt);
    let mut notes = WriterSink::new(rt.stderr());
    let mut units = Units::new();
    let _ = units.attach(5, Box::new(alloc, InputUnit::new(alloc, rt.stdin())?)?);
    let _ = units.attach(6, Box::new(alloc, OutputUnit::new(alloc, rt.stdout())?)?);
    for n in 1..16 {
        if n != 5 && n != 6 {
            let _ = units.attach(n, Box::new(alloc, FileUnit::new(*rt, alloc, n)?)?);
        }
    }
    let status = sil_main(alloc, &words, &mut store, &mut units, &mut notes);
    let failed = units.close_all();
    Ok(after_finishes(status.code, failed))
}

fn main(rt: HostRuntime) -> ExitCode {
    match run(&rt) {
        Ok(code) => ExitCode::from(code),
        Err(_) => ExitCode::from(12),
    }
}
