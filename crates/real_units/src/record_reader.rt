// Records read from a stream of bytes.
ghost use Rattle.std.specs.Prelude.{◌≡◌, ◌<◌, ◌≤◌, length, slice_set, true, false, IfSome, IfOk};
ghost use Rattle.unit_io.specs.Answers.{ReadFits};

use std::alloc::Global;
use std::io;
use std::io::{BufReader, ErrorKind, Read};
use unit_io::ReadAnswer;

/// The byte that ends a record.
const LF: u8 = b'\n';

/// The bytes that a record may have.
const MAX_RECORD_BYTES: usize = 1 << 30;

/// The next byte of a stream.
#[derive(Clone, Copy)]
pub enum NextByte {
    Byte(u8),
    End,
    Failed,
}

/// Reads records, at a place that it keeps. After a failure it fails on.
#[derive(Drop)]
pub struct RecordReader<R> {
    input: BufReader<R>,
    failed: bool,
    place: u64,
    unended: bool,
}

impl<R: Read + Drop> RecordReader<R> {
    ghost use Rattle.real_units.specs.RecordStreams.{bytes_left, reader_failed, reader_place, reader_unended, place_after, MovesPlace, TakesByte, ReadsRecord};

    /// A reader of these bytes. The error is want of memory.
    pub fn new(alloc: Global, input: R) -> io::Result<RecordReader<R>>
        ensures left { IfOk result (λ r. bytes_left R.remaining r ≡ R.remaining input) }
        ensures place { IfOk result (λ r. reader_place r ≡ 0) }
        ensures failed { IfOk result (λ r. reader_failed r ≡ false) }
    {
        Ok(RecordReader {
            input: BufReader::new(alloc, input)?,
            failed: false,
            place: 0,
            unended: false,
        })
    }

    /// How many bytes the records that were read had, with their LFs.
    pub fn place(&self) -> u64
        ensures { result ≡ reader_place self.now }
    {
        self.place
    }

    /// Whether the last record that was read ended without an LF.
    pub fn is_unended(&self) -> bool
        ensures { result ≡ reader_unended self.now }
    {
        self.unended
    }

    /// Whether a read has failed.
    pub fn has_failed(&self) -> bool
        ensures { result ≡ reader_failed self.now }
    {
        self.failed
    }

    /// Takes the next byte.
    fn next_byte(&mut self) -> NextByte
        ensures taken { IfSome (bytes_left R.remaining self.old)
            (λ text. TakesByte text result (bytes_left R.remaining self.new)) }
        ensures place { reader_place self.new ≡ place_after result (reader_place self.old) }
    {
        let mut one = [0u8; 1];
        for _ in 0..u64::MAX {
            match self.input.read(&mut one) {
                Ok(0) => return NextByte::End,
                Ok(_) => {
                    self.place = self.place.saturating_add(1);
                    return NextByte::Byte(one[0]);
                }
                Err(error) => {
                    if error.kind() != ErrorKind::Interrupted {
                        return NextByte::Failed;
                    }
                }
            }
        }
        NextByte::Failed
    }

    /// Reads the next record, as far as it fits.
    pub fn read(&mut self, into: &mut [u8]) -> ReadAnswer
        ensures reads { IfSome (bytes_left R.remaining self.old)
            (λ text. ReadsRecord text result into.old into.new
            (bytes_left R.remaining self.new) (reader_unended self.new)) }
        ensures place { MovesPlace (bytes_left R.remaining self.old)
            (bytes_left R.remaining self.new) (reader_place self.old) (reader_place self.new) }
        ensures fits { ReadFits result (length into.old) }
        ensures failing { reader_failed self.old ≡ true → result ≡ ReadAnswer.Failed }
        ensures failed { result ≡ ReadAnswer.Failed → reader_failed self.new ≡ true }
    {
        if self.failed {
            return ReadAnswer::Failed;
        }
        for count in 0..MAX_RECORD_BYTES + 1 {
            match self.next_byte() {
                NextByte::Byte(LF) => {
                    self.unended = false;
                    return ReadAnswer::Rec(count.min(into.len()));
                }
                NextByte::Byte(byte) => put_at(into, count, byte),
                NextByte::End => {
                    if count == 0 {
                        return ReadAnswer::End;
                    }
                    self.unended = true;
                    return ReadAnswer::Rec(count.min(into.len()));
                }
                NextByte::Failed => {
                    self.failed = true;
                    return ReadAnswer::Failed;
                }
            }
        }
        self.failed = true;
        ReadAnswer::Failed
    }
}

/// Sets a byte, where there is room for it.
fn put_at(into: &mut [u8], place: usize, byte: u8)
    ensures there { place < length into.old → into.new ≡ slice_set into.old place byte }
    ensures past { length into.old ≤ place → into.new ≡ into.old }
{
    if place < into.len() {
        into[place] = byte;
    }
}
