// What a table of keys is filled from.
ghost use Rattle.paths.specs.Lists.{Delays};
ghost use Rattle.paths.specs.Wired.{wired, weights};
ghost use Rattle.keys.specs.Keys.{Slow, Turns};

use paths::wiring::Wiring;

// The wires, the delay of each block, and an order in which the wires are tried.
#[derive(Clone, Copy)]
pub struct Ordered<'a> {
    pub wiring: &'a Wiring,
    pub delays: &'a [u32; 64],
    pub turns: &'a [usize; 256],
    pub ghost small: { Delays wiring.now.n delays.now },
    pub ghost complete: { ∥ Turns wiring.now.m turns.now ∥₁ },
    pub ghost slow: { Slow (wired wiring.now delays.now) (weights wiring.now) },
}
