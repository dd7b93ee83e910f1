// The loop that proves a refusal, written from where the solver stopped.
#![tactic(auto)]

ghost use Rattle.std.specs.Prelude.{◌≡◌, ◌+◌, ◌*◌, ◌<◌, ◌≤◌, length};
ghost use Rattle.sheet.specs.Core.{core_of};
ghost use Rattle.solver.specs.Walk.{Rooted};
ghost use Rattle.witness.specs.Written.{LoopWritten};
ghost use Rattle.witness.specs.Walked.{Halted, Ends};

use crate::link::{write_link, write_start};
use sheet::opened::Formed;
use solver::walk::meets;
use solver::{Broken, Given, Standing};

mod link; // the words of one link
mod trace; // a path link's wires

// Where the walk of links from b ends: at a, or at the host if it does not meet a.
fn walk_end(n: usize, next: &[usize; 64], a: usize, b: usize) -> usize
    requires { Rooted n next.now × (b < n) }
    ensures { Ends next.now a b result }
{
    if meets(n, next, a, b) { a } else { 0 }
}

// The words of a valid loop, from the rule that leaves no solution and from the links of the walk from its b; their count.
pub fn write_loop(
    sheet: Formed<'_>,
    given: &Given,
    standing: &Standing,
    broken: Broken,
    words: &mut [u16],
) -> usize
    requires room { given.now.n * (given.now.n + 2) ≤ length words.old }
    requires halted { Halted sheet.bytes.now given.now standing.now broken }
    ensures { LoopWritten (core_of sheet.entry.bytes.now) given.now.period words.old words.new result }
{
    let Broken { rule, a, b } = broken;
    let start = walk_end(given.n, &standing.next, a, b);
    let mut at = write_start(start, a, words);
    at += write_link(sheet, given, rule, a, b, &mut words[at..]);
    let mut v = b;
    while v != start {
        let next = standing.next[v];
        at += write_link(sheet, given, standing.rules[v], v, next, &mut words[at..]);
        v = next;
    }
    at
}
