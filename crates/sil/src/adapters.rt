// Adapters from std's files and streams. They tell nothing of contents, and count each failure.
ghost use Rattle.std.specs.Prelude.{None};

use sil_base::{Load, Put, Save, Sink, Store};
use std::fs;
use std::io::{ErrorKind, Read, Write};
use std::rt::Files;

/// Notes on a writer.
#[derive(Drop)]
pub struct WriterSink<W> {
    inner: W,
    faults: u64,
}

impl<W: Write> WriterSink<W> {
    /// A sink that has had no failure.
    pub fn new(inner: W) -> WriterSink<W> {
        WriterSink { inner, faults: 0 }
    }
}

impl<W: Write> Sink for WriterSink<W> {
    ghost text = { λ _. None };

    ghost faults = { λ s. s.faults };

    fn put(&mut self, bytes: &[u8]) -> Put {
        match self.inner.write_all(bytes) {
            Ok(()) => Put::Ok,
            Err(_) => {
                self.faults = self.faults.saturating_add(1);
                Put::Failed
            }
        }
    }
}

/// Files in the working directory.
#[derive(Drop)]
pub struct FileStore<'a, R> {
    rt: &'a R,
    faults: u64,
}

impl<'a, R: Files> FileStore<'a, R> {
    /// A store that has had no failure.
    pub fn new(rt: &'a R) -> FileStore<'a, R> {
        FileStore { rt, faults: 0 }
    }
}

/// Reads a file to its end, unless it has `most` bytes or more: then it is too long.
fn read_on<F: Read>(file: &mut F, most: u64, into: &mut Vec<u8>) -> Load {
    let mut part = [0u8; 4096];
    for _ in 0..most {
        match file.read(&mut part) {
            Ok(0) => return Load::Ok,
            Ok(count) => {
                if into.extend_from_slice(&part[..count]).is_err() {
                    return Load::Memory;
                }
                if into.len() as u64 >= most {
                    return Load::TooLong;
                }
            }
            Err(_) => return Load::Failed,
        }
    }
    Load::TooLong
}

impl<'a, R: Files> Store for FileStore<'a, R> {
    ghost files = { λ _. None };

    ghost faults = { λ s. s.faults };

    fn load(&mut self, name: &str, limit: u64, into: &mut Vec<u8>) -> Load {
        into.clear();
        let answer = match fs::open(self.rt, name) {
            Ok(file) => {
                let mut file = file;
                read_on(&mut file, limit.saturating_add(1), into)
            }
            Err(error) => match error.kind() {
                ErrorKind::NotFound => Load::Missing,
                _ => Load::Failed,
            },
        };
        if answer == Load::Failed {
            self.faults = self.faults.saturating_add(1);
        }
        if answer == Load::Ok && into.len() as u64 <= limit {
            return Load::Ok;
        }
        into.clear();
        if answer == Load::Ok {
            Load::TooLong
        } else {
            answer
        }
    }

    fn save(&mut self, name: &str, bytes: &[u8]) -> Save {
        match fs::write(self.rt, name, bytes) {
            Ok(()) => Save::Ok,
            Err(_) => {
                self.faults = self.faults.saturating_add(1);
                Save::Failed
            }
        }
    }
}
