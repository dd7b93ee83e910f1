// The header of a sheet: refusals 1, 2 and 3.
ghost use Rattle.std.specs.Prelude.{◌≡◌, ◌+◌, ◌*◌, ◌<◌, ◌≤◌, length};
ghost use Rattle.sheet.specs.Core.{blocks_in, wires_in};
ghost use Rattle.sheet.specs.Rules.{Told};
ghost use Rattle.sheet.specs.Sheet.{Offsets};
ghost use Rattle.sheet.specs.Reads.{FrameGiven};

use crate::bytes::{u16_at, u32_at};
use crate::opened::Opened;
use crate::refusal::Refusal;

// Both offsets, the total and the slice's length are what the counts ask.
fn offsets_right(s: &[u8], n: usize, m: usize) -> bool
    requires { (n ≡ blocks_in s.now) × (m ≡ wires_in s.now) × (n ≤ 64) × (m ≤ 256) × (16 ≤ length s.now) }
    ensures { Told (Offsets s.now) result }
{
    let wires_at = 16 + 8 * n;
    let total = wires_at + 8 * m;
    u32_at(s, 4) == 16
        && u32_at(s, 8) as usize == wires_at
        && u32_at(s, 12) as usize == total
        && s.len() == total
}

pub fn read_frame(bytes: &[u8]) -> Result<Opened<'_>, Refusal>
    ensures { FrameGiven bytes.now result }
{
    if bytes.len() < 16 {
        return Err(Refusal::Short);
    }
    let n = u16_at(bytes, 0) as usize;
    let m = u16_at(bytes, 2) as usize;
    if n < 1 || n > 64 || m > 256 {
        return Err(Refusal::Counts);
    }
    if !offsets_right(bytes, n, m) {
        return Err(Refusal::Offsets);
    }
    Ok(Opened { bytes, n, m })
}
