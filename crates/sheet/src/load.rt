// A formed sheet's numbers: code above reads these and never a byte.
ghost use Rattle.std.specs.Prelude.{◌≡◌, ◌<◌, replicate};
ghost use Rattle.sheet.specs.Lag.{excess};
ghost use Rattle.sheet.specs.Core.{delay_in, lower_in, upper_in};
ghost use Rattle.sheet.specs.Filled.{filled};
ghost use Rattle.sheet.specs.Reads.{BlockIs, WireIs};

use crate::block::{Block, read_block};
use crate::opened::Formed;
use crate::wire::{Wire, read_wire};

// Both lag limits of each block, as excess numbers; the range of a block that the sheet does not have is lag 0 alone.
// Two lists and not one of pairs: the limits of all blocks on one side become vectors.
#[derive(Clone, Copy)]
pub struct Limits {
    pub lower: [u32; 64],
    pub upper: [u32; 64],
}

impl<'a> Formed<'a> {
    pub fn block(self, b: usize) -> Block
        requires { b < self.n }
        ensures { BlockIs self.entry.bytes.now b result.delay result.lower result.upper }
    {
        let Ok(block) = read_block(self.bytes, b) else {
            unreachable!();
        };
        block
    }

    pub fn wire(self, j: usize) -> Wire
        requires { j < self.m }
        ensures { WireIs self.entry.bytes.now j result.from result.to result.registers }
    {
        let Ok(wire) = read_wire(self.bytes, self.n, j) else {
            unreachable!();
        };
        wire
    }

    // The delay of each block.
    pub fn delays(self) -> [u32; 64]
        ensures { result ≡ filled (delay_in self.entry.bytes.now) self.entry.n (replicate 64 0) }
    {
        let mut delays = [0; 64];
        for b in 0..self.n {
            delays[b] = self.block(b).delay;
        }
        delays
    }

    pub fn limits(self) -> Limits
        ensures lower { result.lower ≡ filled (λ b. excess (lower_in self.entry.bytes.now b)) self.entry.n (replicate 64 32768) }
        ensures upper { result.upper ≡ filled (λ b. excess (upper_in self.entry.bytes.now b)) self.entry.n (replicate 64 32768) }
    {
        let mut limits = Limits {
            lower: [32768; 64],
            upper: [32768; 64],
        };
        for b in 0..self.n {
            let block = self.block(b);
            limits.lower[b] = block.lower;
            limits.upper[b] = block.upper;
        }
        limits
    }
}
