// Heights over the register-free wires: the longest register-free path into each block, found in sweeps over those wires
// alone. Where a sweep changes nothing, and each block has a delay, no loop is register-free.
ghost use Rattle.std.specs.Prelude.{◌≡◌, ℕ, ◌+◌, ◌*◌, ◌<◌, ◌≤◌, get_or};
ghost use Rattle.paths.specs.Lists.{Delays};
ghost use Rattle.paths.specs.Table.{LoopAt, Period};
ghost use Rattle.paths.specs.Rise.{Listed, Lifted, Highest, Heights, Swept, Risen};
ghost use Rattle.paths.specs.Wired.{wired, weights};

use crate::wiring::Wiring;

// The numbers of the wires without a register, at the start of the list. A list with its count, since there is no heap.
#[derive(Clone, Copy)]
struct FreeWires<'a> {
    wiring: &'a Wiring,
    count: usize,
    list: [u8; 256],
    ghost listed: { ∥ Listed (weights wiring.now) wiring.now.m count list ∥₁ },
}

impl<'a> FreeWires<'a> {
    // In order. Each number is stored, and counted only where it belongs: a test around the store takes longer than the store.
    fn of(wiring: &'a Wiring) -> FreeWires<'a>
        ensures { result.wiring.now ≡ wiring.now }
    {
        let mut count = 0;
        let mut list = [0; 256];
        for j in 0..wiring.m {
            list[count] = j as u8;
            if wiring.registers[j] == 0 {
                count += 1;
            }
        }
        FreeWires {
            wiring,
            count,
            list,
        }
    }

    // From the last to the first: chains of wires that stand in reverse order rise in one sweep.
    fn turned(&self) -> FreeWires<'a>
        ensures { result.wiring.now ≡ self.now.wiring.now }
    {
        let count = self.count;
        let mut list = [0; 256];
        for i in 0..count {
            list[i] = self.list[count - 1 - i];
        }
        FreeWires {
            wiring: self.wiring,
            count,
            list,
        }
    }
}

// Tries a wire from f to t, where block t has delay d: true where t rose. Its height is stored in either case.
fn lift(f: usize, t: usize, d: u32, heights: &mut [u32; 64]) -> bool
    requires { (f < 64) × (t < 64) × (get_or heights.old f 0 + d < 4294967296) }
    ensures { Lifted f t d heights.old heights.new result }
{
    let x = heights[f] + d;
    let old = heights[t];
    heights[t] = x.max(old);
    old < x
}

// One sweep over the listed wires: whether a block rose. `done` counts the sweeps before it and bounds the heights.
fn sweep(free: &FreeWires<'_>, delays: &[u32; 64], done: usize, heights: &mut [u32; 64]) -> bool
    requires delays { Delays free.now.wiring.now.n delays.now × (done ≤ 64) }
    requires heights { Heights (wired free.now.wiring.now delays.now) (weights free.now.wiring.now) (256 * done) heights.old }
    ensures { Swept (wired free.now.wiring.now delays.now) (weights free.now.wiring.now) (256 * (done + 1)) heights.old heights.new result }
{
    let wiring = free.wiring;
    let mut rose = false;
    for i in 0..free.count {
        let j = free.list[i] as usize;
        let t = wiring.to[j] as usize;
        rose |= lift(wiring.from[j] as usize, t, delays[t], heights);
    }
    rose
}

// The largest of the first n heights. There is no heap: the list has room for 64.
fn highest(n: usize, heights: &[u32; 64]) -> u32
    requires { (1 ≤ n) × (n ≤ 64) }
    ensures { Highest heights.now n result }
{
    let mut best = heights[0];
    for v in 1..n {
        best = best.max(heights[v]);
    }
    best
}

// The heights: sweeps forth and back in turn until one changes nothing, and as many as there are blocks at most.
// Register-free loops raise them without end: a height above `limit` ends the sweeps as well. The delays stand beside the wiring,
// since a search for loops asks with delays of 1.
pub fn rise(wiring: &Wiring, delays: &[u32; 64], limit: u32, heights: &mut [u32; 64]) -> bool
    requires { Delays wiring.now.n delays.now }
    ensures { Risen (wired wiring.now delays.now) (weights wiring.now) limit heights.new result }
{
    let forth = FreeWires::of(wiring);
    let back = forth.turned();
    let (mut free, mut other) = (&forth, &back);
    *heights = *delays;
    for done in 0..wiring.n {
        if !sweep(free, delays, done, heights) {
            return true;
        }
        if limit < highest(wiring.n, heights) {
            return false;
        }
        (free, other) = (other, free);
    }
    false
}

// The longest delay of a register-free path, where no loop is register-free.
pub fn longest_free(wiring: &Wiring, delays: &[u32; 64]) -> u32
    requires delays { Delays wiring.now.n delays.now }
    requires no_loop { (b : ℕ) → LoopAt (wired wiring.now delays.now) (weights wiring.now) b → ⊥ }
    ensures { Period (wired wiring.now delays.now) (weights wiring.now) result }
{
    let mut heights = [0; 64];
    rise(wiring, delays, u32::MAX, &mut heights);
    highest(wiring.n, &heights)
}
