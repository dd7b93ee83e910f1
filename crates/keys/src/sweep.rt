// One sweep over the wires: a wire is tried where the row of its start changed since it was last tried.
// Rows have versions, and each wire the version of its start's row that it has seen.
ghost use Rattle.std.specs.Prelude.{◌≡◌, ℕ, ◌*◌, ◌<◌, replicate};
ghost use Rattle.keys.specs.Filling.{Within, Counts, News, Stepped, Settling, Swept};
ghost use Rattle.keys.specs.Ordered.{shape_of, weights_of};

use crate::lanes::try_wire;
use crate::order::Direction;
use crate::ordered::Ordered;

// The version of each block's row, and the one of its start's row that each wire has seen. Versions start at 1: 0, which no row
// has, needs no test of its own, and an Option would.
#[derive(Clone, Copy)]
pub struct Versions {
    pub rows: [usize; 64],
    pub seen: [usize; 256],
}

impl Versions {
    // No wire has seen its start's row.
    pub fn new() -> Versions
        ensures rows { result.rows ≡ replicate 64 1 }
        ensures seen { result.seen ≡ replicate 256 0 }
    {
        Versions {
            rows: [1; 64],
            seen: [0; 256],
        }
    }

    // Whether the row of block f changed since wire j last saw it: now it has seen it.
    fn take_news(&mut self, f: usize, j: usize) -> bool
        requires { (f < 64) × (j < 256) }
        ensures rows { self.new.rows ≡ self.old.rows }
        ensures seen { News f j self.old.rows self.old.seen self.new.seen result }
    {
        let version = self.rows[f];
        let news = self.seen[j] != version;
        self.seen[j] = version;
        news
    }
}

// Meets wire j: whether it lowers an entry. Each entry that it lowers gives the end block's row a new version.
fn step(ordered: &Ordered<'_>, j: usize, versions: &mut Versions, keys: &mut [u32; 4096]) -> bool
    requires { (j < ordered.now.wiring.now.m) × Counts 64 8598524526593 versions.old.rows × Within keys.old }
    ensures { Stepped (shape_of ordered.now) (weights_of ordered.now) j versions.old.rows versions.old.seen keys.old versions.new.rows versions.new.seen keys.new result }
{
    let wiring = ordered.wiring;
    let f = wiring.from[j] as usize;
    if versions.take_news(f, j) {
        let t = wiring.to[j] as usize;
        let r = try_wire(keys, f, t, wiring.registers[j] * 1048576, ordered.delays[t]);
        versions.rows[t] += r as usize;
        return r > 0;
    }
    false
}

// All wires in turn: whether one of them lowered an entry.
pub fn sweep(
    ordered: &Ordered<'_>,
    way: Direction,
    versions: &mut Versions,
    keys: &mut [u32; 4096],
) -> bool
    requires { Settling (shape_of ordered.now) (weights_of ordered.now) versions.old.rows versions.old.seen keys.old }
    ensures { Swept (shape_of ordered.now) (weights_of ordered.now) keys.old versions.new.rows versions.new.seen keys.new result }
{
    let m = ordered.wiring.m;
    let mut lowered = false;
    for p in 0..m {
        let j = ordered.turns[way.place(m, p)];
        lowered |= step(ordered, j, versions, keys);
    }
    lowered
}
