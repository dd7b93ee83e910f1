// One block entry of a sheet.
ghost use Rattle.std.specs.Prelude.{◌≡◌, ◌+◌, ◌*◌, ◌<◌, ◌≤◌, length};
ghost use Rattle.sheet.specs.Rules.{Told};
ghost use Rattle.sheet.specs.Reads.{BlockNumbers, BlockGiven, limit_of};

use crate::bytes::{excess_at, u32_at};
use crate::entry::BadEntry;

// A block's numbers, its lags as excess numbers.
#[derive(Clone, Copy, Debug, PartialEq, Eq)]
pub struct Block {
    pub delay: u32,
    pub lower: u32,
    pub upper: u32,
}

// Which of a block's two lag limits.
#[derive(Clone, Copy, Debug, PartialEq, Eq)]
pub enum Limit {
    Lower,
    Upper,
}

impl Block {
    pub fn limit(self, which: Limit) -> u32
        ensures { result ≡ limit_of self which }
    {
        match which {
            Limit::Lower => self.lower,
            Limit::Upper => self.upper,
        }
    }
}

// The host: delay 0 and both lags 0.
fn is_host(block: Block) -> bool
    ensures { Told (BlockNumbers 0 block.delay block.lower block.upper) result }
{
    block.delay == 0 && block.lower == 32768 && block.upper == 32768
}

// Whether these are good numbers for block b.
fn is_good(b: usize, block: Block) -> bool
    requires { block.lower < 65536 }
    ensures { Told (BlockNumbers b block.delay block.lower block.upper) result }
{
    if b == 0 {
        return is_host(block);
    }
    block.delay <= 10000
        && block.lower >= 31768
        && block.upper <= 33768
        && block.lower <= block.upper
        && block.upper <= block.lower + 1000
}

// Block entry b of a sheet: nothing else reads a block's bytes.
pub fn read_block(s: &[u8], b: usize) -> Result<Block, BadEntry>
    requires { 24 + 8 * b ≤ length s.now }
    ensures { BlockGiven s.now b result }
{
    let at = 16 + 8 * b;
    let block = Block {
        delay: u32_at(s, at),
        lower: excess_at(s, at + 4),
        upper: excess_at(s, at + 6),
    };
    if is_good(b, block) {
        return Ok(block);
    }
    Err(BadEntry { number: b })
}
