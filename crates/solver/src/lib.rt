// The solver: from the upper limits down to the largest lags that keep all rules, or to a rule that leaves none.
#![tactic(auto)]

ghost use Rattle.solver.specs.System.{Fit, Within};
ghost use Rattle.solver.specs.State.{State, Turned, AllHold, Settled};

use crate::sweep::longest_delay;

pub mod walk; // links followed from block to block
mod relax; // one rule
mod sweep; // the rules of all wires, of all ceilings, of the path table

// A rule by which a block's lag is held: its upper limit, or the rule of a path, of a wire or of a wire's ceiling.
#[derive(Clone, Copy)]
pub enum Rule {
    Limit,
    Path,
    Wire(usize),
    Ceiling(usize),
}

// What the solver is given: n blocks with their limits, m wires with their ends and the bounds of their rules, and the path
// table. Lists side by side and not one of wires: what is proved of rules speaks of each list by itself (`Fit`).
#[derive(Drop)]
pub struct Given {
    pub n: usize,
    pub m: usize,
    pub period: u32,
    pub lower: [u32; 64],
    pub upper: [u32; 64],
    pub from: [usize; 256],
    pub to: [usize; 256],
    pub wires: [u32; 256],
    pub ceilings: [u32; 256],
    pub registers: [u32; 4096],
    pub delays: [u32; 4096],
}

// Where the solver stands: each block's lag, as its excess number, and the rule that holds it with the block that this leads to.
// Lists side by side: what is proved of walks speaks of `next` by itself (`Rooted`, `iter`). That it stands well (`State`) is a
// clause and no ghost field: it is said of a `Given` too, which `refuse` changes between two runs from the same standing.
#[derive(Drop)]
pub struct Standing {
    pub lags: [u32; 64],
    pub next: [usize; 64],
    pub rules: [Rule; 64],
}

// A rule from a to b that leaves no lags.
#[derive(Clone, Copy)]
pub struct Broken {
    pub rule: Rule,
    pub a: usize,
    pub b: usize,
}

impl Standing {
    // Every block at its upper limit, by which it is held.
    pub fn at_limits(given: &Given) -> Standing
        requires { Fit given.now }
        ensures { State given.now result }
    {
        Standing {
            lags: given.upper,
            next: [0; 64],
            rules: [Rule::Limit; 64],
        }
    }

    // One round over all rules, and whether some lag was lowered. There are path rules only where the longest delay exceeds the period.
    fn round(&mut self, given: &Given, longest: u32) -> Result<bool, Broken>
        requires state { State given.now self.old }
        requires within { Within given.now.delays longest }
        ensures { Turned given.now (AllHold given.now) self.old self.new result }
    {
        let mut lowered = self.sweep_wires(
            given,
            &given.from,
            &given.to,
            &given.wires,
            Rule::Wire,
        )?;
        lowered |= self.sweep_wires(
            given,
            &given.to,
            &given.from,
            &given.ceilings,
            Rule::Ceiling,
        )?;
        if longest <= given.period {
            return Ok(lowered);
        }
        lowered |= self.sweep_paths(given)?;
        Ok(lowered)
    }
}

// Rounds until nothing is lowered: the largest lags that keep all rules stand there, or a rule leaves none.
pub fn settle(given: &Given, standing: &mut Standing) -> Result<(), Broken>
    requires { State given.now standing.old }
    ensures { Settled given.now standing.new result }
{
    let longest = longest_delay(&given.delays);
    while standing.round(given, longest)? {}
    Ok(())
}
