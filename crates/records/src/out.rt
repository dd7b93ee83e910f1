// Text for standard output, gathered in a buffer: one write for each 4,096 bytes and not one for each number.
ghost use Rattle.std.specs.Prelude.{◌≤◌};

use sheet::answer::Answer;
use std::fmt::{self, Display, Write};

// The text that is not yet written. It can't be dropped, so that a program that forgets `finish` is refused.
pub struct Out {
    bytes: [u8; 4096],
    used: usize,
    ghost room: { used ≤ 4096 },
}

impl Out {
    // Nothing gathered yet.
    pub fn new() -> Self {
        Out {
            bytes: [0; 4096],
            used: 0,
        }
    }

    // One more byte: where the buffer is full, what is in it is written first.
    pub fn byte(&mut self, x: u8) {
        if self.used == 4096 {
            io::write_all(1, &self.bytes);
            self.used = 0;
        }
        self.bytes[self.used] = x;
        self.used += 1;
    }

    // The bytes of a text, as they are.
    pub fn text(&mut self, line: &[u8]) {
        for x in line {
            self.byte(*x);
        }
    }

    // A number by its digits, a note by its lines.
    pub fn show<T: Display>(&mut self, x: &T) {
        let _ = write!(self, "{x}");
    }

    // A space and the entry: every entry but a line's first.
    pub fn next<T: Display>(&mut self, x: &T) {
        self.byte(b' ');
        self.show(x);
    }

    // A space and the entry for each, and the end of the line.
    pub fn rest<T: Display>(&mut self, entries: &[T]) {
        for x in entries {
            self.next(x);
        }
        self.byte(b'\n');
    }

    // A line with a name and the entries of a list.
    pub fn list<T: Display>(&mut self, name: &[u8], entries: &[T]) {
        self.text(name);
        self.rest(entries);
    }

    // The line that an answer begins with, all of it or without its value.
    pub fn head(&mut self, code: u32, answer: Answer) {
        self.show(&code);
        self.rest(&[answer.number, answer.place, answer.value]);
    }

    pub fn short_head(&mut self, code: u32, answer: Answer) {
        self.show(&code);
        self.rest(&[answer.number, answer.place]);
    }

    // A program's line for a refusal: its value is not written.
    pub fn refused(&mut self, answer: Answer) {
        self.list(b"refused", &[answer.number, answer.place]);
    }

    // The line that says whether all that was lent and not to be written is what it was before the call.
    pub fn kept(&mut self, kept: bool) {
        self.text(if kept { b"kept\n" } else { b"changed\n" });
    }

    // Writes what is left in the buffer.
    pub fn finish(self) {
        let Out { bytes, used } = self;
        io::write_all(1, &bytes[..used]);
    }
}

impl fmt::Write for Out {
    fn write_str(&mut self, text: &str) -> fmt::Result {
        self.text(text.as_bytes());
        Ok(())
    }
}
