// The note of a sheet that was answered, line by line.
ghost use Rattle.std.specs.Prelude.{◌≡◌, ◌+◌, ◌*◌, ◌<◌, ◌≤◌, length};
ghost use Rattle.sheet.specs.Core.{blocks_in};

use sheet::wire::{Wire, read_wire};
use std::fmt;

// What a note tells of a sheet: the sheet it was moved to, each block's lag, how many wires it has, and both periods.
#[derive(Drop)]
pub struct Note<'a> {
    pub sheet: &'a [u8],
    pub moved: &'a [u8],
    pub lags: &'a [i16],
    pub wires: usize,
    pub standing: u32,
    pub best: u32,
    ghost few: { (length lags.now ≤ 64) × (wires ≤ 256) },
    ghost blocks: { (length lags.now ≡ blocks_in sheet.now) × (length lags.now ≡ blocks_in moved.now) },
    ghost whole: { (16 + 8 * length lags.now + 8 * wires ≤ length sheet.now) × (16 + 8 * length lags.now + 8 * wires ≤ length moved.now) },
}

impl Note<'_> {
    // The sheet is sound by the answers before and the moved sheet by the move's promise, so that neither wire is refused.
    fn wire_line<W: fmt::Write>(&self, f: &mut fmt::Formatter<W>, j: usize) -> fmt::Result
        requires { j < self.now.wires }
    {
        let n = self.lags.len();
        let Ok(wire) = read_wire(self.sheet, n, j) else {
            return Ok(());
        };
        let Ok(moved) = read_wire(self.moved, n, j) else {
            return Ok(());
        };
        let Wire {
            from,
            to,
            registers,
        } = wire;
        writeln!(f, "wire {j} {from} {to} {registers} {}", moved.registers)
    }
}

// All lines: the counts, the periods, each block's lag and each wire.
impl fmt::Display for Note<'_> {
    fn fmt<W: fmt::Write>(&self, f: &mut fmt::Formatter<W>) -> fmt::Result {
        writeln!(f, "blocks {} wires {}", self.lags.len(), self.wires)?;
        writeln!(f, "period {} {}", self.standing, self.best)?;
        for (block, lag) in self.lags.iter().enumerate() {
            writeln!(f, "lag {block} {lag}")?;
        }
        for j in 0..self.wires {
            self.wire_line(f, j)?;
        }
        Ok(())
    }
}
