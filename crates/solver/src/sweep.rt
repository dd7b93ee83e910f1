// Sweeps: the rules of a kind, one after another; and whether there is a path rule at all.
ghost use Rattle.std.specs.Prelude.{◌≡◌, ℕ, ◌<◌, length, get_or};
ghost use Rattle.solver.specs.System.{Says, Within};
ghost use Rattle.solver.specs.State.{State, Turned, WiresHold, RowHolds, PathsHold};

use crate::{Broken, Given, Rule, Standing};

impl Standing {
    // The rules of the wires, each from the block from[j] to the block to[j] with the bound bounds[j].
    pub(crate) fn sweep_wires<F: Fn(usize) -> Rule>(
        &mut self,
        given: &Given,
        from: &[usize; 256],
        to: &[usize; 256],
        bounds: &[u32; 256],
        rule: F,
    ) -> Result<bool, Broken>
        requires state { State given.now self.old }
        requires rules { (j : ℕ) → j < given.now.m → F.pre rule j × ((r : _) → F.post rule j r → Says given.now r (get_or from.now j 0) (get_or to.now j 0) (get_or bounds.now j 0)) }
        ensures { Turned given.now (WiresHold from.now to.now bounds.now given.now.m) self.old self.new result }
    {
        let mut lowered = false;
        for j in 0..given.m {
            lowered |= self.relax(given, rule(j), from[j], to[j], bounds[j])?;
        }
        Ok(lowered)
    }

    // The path rules of the row of block u.
    fn sweep_row(&mut self, given: &Given, u: usize) -> Result<bool, Broken>
        requires { State given.now self.old × (u < given.now.n) }
        ensures { Turned given.now (RowHolds given.now u given.now.n) self.old self.new result }
    {
        let mut lowered = false;
        for v in 0..given.n {
            lowered |= self.relax_path(given, u, v)?;
        }
        Ok(lowered)
    }

    // The path rules of all rows.
    pub(crate) fn sweep_paths(&mut self, given: &Given) -> Result<bool, Broken>
        requires { State given.now self.old }
        ensures { Turned given.now (PathsHold given.now given.now.n) self.old self.new result }
    {
        let mut lowered = false;
        for u in 0..given.n {
            lowered |= self.sweep_row(given, u)?;
        }
        Ok(lowered)
    }
}

// The longest delay of the path table: at a period that is no shorter there is no path rule.
pub fn longest_delay(delays: &[u32; 4096]) -> u32
    ensures { Within delays.now result }
{
    let mut longest = 0;
    for delay in delays {
        longest = longest.max(*delay);
    }
    longest
}
