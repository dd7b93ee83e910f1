// One rule: lag(a) - lag(b) <= k.
ghost use Rattle.std.specs.Prelude.{List, ℕ, ◌<◌};
ghost use Rattle.solver.specs.System.{Says, Holds};
ghost use Rattle.solver.specs.State.{State, Turned, PathHolds};

use crate::walk::meets;
use crate::{Broken, Given, Rule, Standing};

impl Standing {
    // Whether the rule lowered a: where it was broken, a is lowered to what it allows and held by it.
    pub(crate) fn relax(
        &mut self,
        given: &Given,
        rule: Rule,
        a: usize,
        b: usize,
        k: u32,
    ) -> Result<bool, Broken>
        requires { State given.now self.old × Says given.now rule a b k }
        ensures { Turned given.now (λ (l : List ℕ). Holds l a b k) self.old self.new result }
    {
        let most = self.lags[b] + k;
        if self.lags[a] + 32768 <= most {
            return Ok(false);
        }
        if meets(given.n, &self.next, a, b) {
            return Err(Broken { rule, a, b });
        }
        if most < given.lower[a] + 32768 {
            return Err(Broken { rule, a, b });
        }
        self.lags[a] = most - 32768;
        self.next[a] = b;
        self.rules[a] = rule;
        Ok(true)
    }

    // The path rule of the pair u, v, where its delay exceeds the period.
    pub(crate) fn relax_path(&mut self, given: &Given, u: usize, v: usize) -> Result<bool, Broken>
        requires { State given.now self.old × (u < given.now.n) × (v < given.now.n) }
        ensures { Turned given.now (PathHolds given.now u v) self.old self.new result }
    {
        let at = u * given.n + v;
        if given.delays[at] <= given.period {
            return Ok(false);
        }
        self.relax(given, Rule::Path, u, v, given.registers[at] + 32767)
    }
}
