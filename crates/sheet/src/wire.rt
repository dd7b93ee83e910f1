// One wire entry of a sheet.
ghost use Rattle.std.specs.Prelude.{◌≡◌, ◌+◌, ◌*◌, ◌≤◌, length};
ghost use Rattle.sheet.specs.Core.{blocks_in};
ghost use Rattle.sheet.specs.Reads.{WireGiven};
ghost use Rattle.sheet.specs.Rules.{Told};
ghost use Rattle.sheet.specs.Sheet.{WireRule};

use crate::bytes::u16_at;
use crate::entry::BadEntry;

// A wire's numbers: the blocks that it leads from and to, and its registers.
#[derive(Clone, Copy, Debug, PartialEq, Eq)]
pub struct Wire {
    pub from: usize,
    pub to: usize,
    pub registers: u32,
}

// Whether these are good numbers for a wire of a sheet of n blocks.
fn is_good(n: usize, wire: Wire, spare: u32) -> bool
    ensures { Told (WireRule n wire.from wire.to wire.registers spare) result }
{
    wire.from < n && wire.to < n && wire.registers <= 2000 && spare == 0
}

// Wire entry j of a sheet of n blocks: nothing else reads a wire's bytes.
pub fn read_wire(s: &[u8], n: usize, j: usize) -> Result<Wire, BadEntry>
    requires { (n ≡ blocks_in s.now) × (24 + 8 * n + 8 * j ≤ length s.now) }
    ensures { WireGiven s.now j result }
{
    let at = 16 + 8 * n + 8 * j;
    let wire = Wire {
        from: u16_at(s, at) as usize,
        to: u16_at(s, at + 2) as usize,
        registers: u16_at(s, at + 4),
    };
    if is_good(n, wire, u16_at(s, at + 6)) {
        return Ok(wire);
    }
    Err(BadEntry { number: j })
}
