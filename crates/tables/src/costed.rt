// What the rows of the path table are filled from.
ghost use Rattle.std.specs.Prelude.{◌≡◌, ℕ, ◌+◌, ◌*◌, ◌-◌, ◌≤◌};
ghost use Rattle.paths.specs.Lists.{Delays};
ghost use Rattle.paths.specs.Table.{LoopAt};
ghost use Rattle.paths.specs.Wired.{wired, weights};
ghost use Rattle.tables.specs.Keys.{Costs};

use paths::wiring::Wiring;

// The wires and the delay of each block, and what each wire costs: found once for all rows. No loop is register-free.
#[derive(Clone, Copy)]
pub struct Costed<'a> {
    pub wiring: &'a Wiring,
    pub delays: &'a [u32; 64],
    pub costs: [usize; 256],
    pub ghost small: { Delays wiring.now.n delays.now },
    pub ghost no_loop: { (b : ℕ) → LoopAt (wired wiring.now delays.now) (weights wiring.now) b → ⊥ },
    pub ghost weighed: { Costs (wired wiring.now delays.now) (weights wiring.now) costs },
}

// What a wire costs: its registers on a key, and 10000 less the delay of the block that it leads to.
fn cost_of(r: u32, d: u32) -> usize
    requires { (r ≤ 2000) × (d ≤ 10000) }
    ensures { result ≡ r * 4294967296 + 10000 - d }
{
    r as usize * 4294967296 + 10000 - d as usize
}

impl<'a> Costed<'a> {
    pub fn of(wiring: &'a Wiring, delays: &'a [u32; 64]) -> Costed<'a>
        requires small { Delays wiring.now.n delays.now }
        requires no_loop { (b : ℕ) → LoopAt (wired wiring.now delays.now) (weights wiring.now) b → ⊥ }
        ensures { (result.wiring.now ≡ wiring.now) × (result.delays.now ≡ delays.now) }
    {
        let mut costs = [0; 256];
        for j in 0..wiring.m {
            costs[j] = cost_of(wiring.registers[j], delays[wiring.to[j] as usize]);
        }
        Costed {
            wiring,
            delays,
            costs,
        }
    }
}
