// The command program: lines from standard input to the desk, and its replies to standard output, line by line. A read that fails is the
// end of the input, and a write that fails is passed over. Nothing is allocated, so that no line can fail for want of memory.
#![tactic(auto)]

ghost use Rattle.std.specs.Prelude.{◌≤◌, suc};
ghost use Rattle.commands.specs.Commands.{longest};

use commands::{LONGEST, ROOM};
use desk::{Desk, PAGES, ROWS, SHEET};
use std::io;
use std::io::{Read, Write};

// A line is kept up to one byte more than the longest, so that a longer one is known.
const KEPT: usize = LONGEST + 1;

// How many bytes one read takes at most.
const BUFFER: usize = 4096;

// The desk with its sheet, fates and rows, and the bytes of a line that have been read.
#[derive(Drop)]
struct Session {
    desk: Desk,
    sheet: [u8; SHEET],
    fates: [u8; PAGES],
    rows: [u64; ROWS],
    line: [u8; KEPT],
    len: usize,
    ghost kept: { len ≤ suc longest },
}

impl Session {
    // On a blank sheet.
    fn new() -> Session {
        Session {
            desk: desk::closed_desk(),
            sheet: [0; SHEET],
            fates: [0; PAGES],
            rows: [0; ROWS],
            line: [0; KEPT],
            len: 0,
        }
    }

    // The end of a line: its reply is written.
    fn reply<W: Write>(&mut self, output: &mut W) {
        let mut out = [0u8; ROOM];
        let said = desk::answer(
            &mut self.sheet,
            &mut self.fates,
            &mut self.rows,
            self.desk,
            &self.line[..self.len],
            &mut out,
        );
        self.desk = said.desk;
        self.len = 0;
        if let Some(reply) = out.get(..said.count) {
            let _ = output.write_all(reply);
            let _ = output.flush();
        }
    }

    // One byte of the input.
    fn take_byte<W: Write>(&mut self, output: &mut W, byte: u8) {
        if byte == b'\n' {
            self.reply(output);
        } else if self.len < KEPT {
            self.line[self.len] = byte;
            self.len += 1;
        }
    }

    // The bytes of one read; whether there were any.
    fn take_some<R: Read, W: Write>(&mut self, input: &mut R, output: &mut W) -> bool {
        let mut buffer = [0u8; BUFFER];
        let n = input.read(&mut buffer).unwrap_or(0);
        for &byte in &buffer[..n] {
            self.take_byte(output, byte);
        }
        0 < n
    }

    // All of the input; a last line may have no end of line.
    fn take_all<R: Read, W: Write>(&mut self, input: &mut R, output: &mut W) {
        for _ in 0..u64::MAX {
            if !self.take_some(input, output) {
                break;
            }
        }
        if 0 < self.len {
            self.reply(output);
        }
    }
}

// A conversation on a blank sheet of 256 pages.
pub fn run(rt: &(impl Input + Print)) {
    let mut session = Session::new();
    session.take_all(&mut rt.reader(), &mut io::writer(rt));
}
