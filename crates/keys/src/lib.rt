// The path table as one key for each pair of blocks, filled for all start blocks at once.
#![tactic(auto)]

ghost use Rattle.keys.specs.Keys.{Keyed, Folded, Turns};
ghost use Rattle.keys.specs.Ordered.{shape_of, weights_of};

use crate::lanes::blank;
use crate::order::{Direction, add_up, complete, count, heights, place, plain};
use crate::ordered::Ordered;
use crate::sweep::{Versions, sweep};
use paths::wiring::Wiring;

mod lanes; // the 64 start blocks of one end block
mod order; // the wires in an order, by counting
pub mod ordered; // what the keys are filled from
mod sweep; // one sweep over the wires

// The keys of all pairs: sweeps over the wires, forwards and backwards in turn, until one lowers nothing.
pub fn fill_keys(ordered: &Ordered<'_>, keys: &mut [u32; 4096])
    ensures { Keyed (shape_of ordered.now) (weights_of ordered.now) keys.new }
{
    blank(ordered.wiring.n, ordered.delays, keys);
    let mut versions = Versions::new();
    let mut way = Direction::Forwards;
    while sweep(ordered, way, &mut versions, keys) {
        way = way.turned();
    }
}

// The ceiling of each wire, folded into the table: the rule lag(t) - lag(f) <= 2000 - w of a wire from f to t with w registers.
pub fn fold_ceilings(wiring: &Wiring, keys: &mut [u32; 4096])
    ensures { Folded wiring.now wiring.now.m keys.old keys.new }
{
    for j in 0..wiring.m {
        let at = wiring.from[j] as usize * 64 + wiring.to[j] as usize;
        keys[at] = keys[at].min((2001 - wiring.registers[j]) * 1048576);
    }
}

// The wires in the order of the heights of the blocks that they lead to: a table filled in this order settles in few sweeps.
// The lists are lent: given by value, each would stand on the stack three times.
pub fn in_turn(wiring: &Wiring, turns: &mut [usize; 256])
    ensures { Turns wiring.now.m turns.new }
{
    let height = heights(wiring);
    let mut starts = [0; 128];
    count(wiring, &height, &mut starts);
    add_up(&mut starts);
    let mut places = [0; 256];
    place(wiring, &height, &mut starts, &mut places, turns);
    if !complete(wiring.m, &places, turns) {
        plain(turns);
    }
}
