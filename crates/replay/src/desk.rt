// The buffers that a history's lines name. Its bytes are gathered into lines; each line is answered where it ends.
use crate::output;
use arrayvec::{ArrayString, ArrayVec};
use history_buffers::BUFFERS;
use history_lent::sizes::{LENT, OTHERS_BUFFER, STORE_BUFFER, TABLES_BUFFER};
use std::io::{self, Read, Write};

// How many bytes one read brings at most.
const BROUGHT: usize = 65536;

// How many bytes of a line are kept as they are. A longer line can only be one with a name, or one that is none.
const WHOLE: usize = 256;

// How many are kept at most. Those beyond are kept without spaces and tabs, which a name skips, and only as many as a
// name could need.
const LINE: usize = 272;

// The text of the answers that are not written yet, and what is kept free in it for the next one: no answer is longer.
const GATHERED: usize = 65536;

const ANSWER: usize = 1024;

#[derive(Drop)]
pub struct Desk<W: Write + Drop> {
    store: [u32; STORE_BUFFER],
    tables: [u32; TABLES_BUFFER],
    others: [u32; OTHERS_BUFFER],
    lengths: [u32; BUFFERS], // how many cells of each buffer are lent
    line: ArrayVec<u8, LINE>,
    answers: ArrayString<GATHERED>, // that are not written yet
    writer: W,
}

impl<W: Write + Drop> Desk<W> {
    pub fn new(writer: W) -> Desk<W> {
        Desk {
            store: [0; STORE_BUFFER],
            tables: [0; TABLES_BUFFER],
            others: [0; OTHERS_BUFFER],
            lengths: LENT,
            line: ArrayVec::new(),
            answers: ArrayString::new(),
            writer,
        }
    }

    // A byte of a line, kept where the line still has room for it.
    fn keep(&mut self, byte: u8) {
        if self.line.is_full() {
            return;
        }
        if WHOLE <= self.line.len() && (byte == b' ' || byte == b'\t') {
            return;
        }
        self.line.push(byte);
    }

    // A line that has ended. Its answer is whole, for there is room for the longest.
    fn answer(&mut self) {
        let line = self.line.as_slice();
        let told = history_desk::answer(
            &mut self.store,
            &mut self.tables,
            &mut self.others,
            self.lengths,
            line,
        );
        let lengths = told.lengths;
        self.lengths = lengths;
        let _whole = output::say(&mut self.answers, told.reply, line);
        self.line.clear();
    }

    // Whether the longest answer may not fit any more.
    fn is_full(&self) -> bool {
        GATHERED - ANSWER < self.answers.len()
    }

    fn write(&mut self) -> io::Result<()> {
        self.writer.write_all(self.answers.as_str().as_bytes())?;
        self.answers.clear();
        Ok(())
    }

    fn take_bytes(&mut self, input: &[u8]) -> io::Result<()> {
        for byte in input {
            if *byte != b'\n' {
                self.keep(*byte);
                continue;
            }
            self.answer();
            if self.is_full() {
                self.write()?;
            }
        }
        Ok(())
    }

    // One read: the answers to what it brought are written before the next. Whether it brought anything.
    fn read_once<R: Read>(&mut self, reader: &mut R) -> io::Result<bool> {
        let mut brought = [0u8; BROUGHT];
        let n = reader.read(&mut brought)?;
        self.take_bytes(&brought[..n])?;
        self.write()?;
        Ok(0 < n)
    }

    // Reads until there is nothing more.
    pub fn read_all<R: Read>(&mut self, reader: &mut R) -> io::Result<()> {
        for _ in 0..u64::MAX {
            if !self.read_once(reader)? {
                break;
            }
        }
        Ok(())
    }

    // "the last one may lack" its newline
    pub fn finish(&mut self) -> io::Result<()> {
        if !self.line.is_empty() {
            self.answer();
        }
        self.write()
    }
}
