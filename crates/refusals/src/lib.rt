// The loops of refusals 10 and 11: the solver that remembers which rule holds each block, run without path rules, then with those of a period.
#![tactic(auto)]

ghost use Rattle.std.specs.Prelude.{◌+◌, ◌*◌, ◌≤◌, length};
ghost use Rattle.sheet.specs.Rules.{First, said};
ghost use Rattle.refusals.specs.Load.{Loaded};
ghost use Rattle.promises.specs.Questions.{lags_outcome, lags_last};
ghost use Rattle.refusals.specs.Solving.{Solving, Resting, Solved, Hopeless, last_of};

use crate::load::{load, write_lags};
use paths::sound::Sound;
use sheet::opened::Formed;
use sheet::refusal::Refusal;
use solver::{Given, Standing, settle};
use tables::table::write_table;
use witness::write_loop;

pub mod load; // the lists of the solver, and lags written out

// Which period the lags are asked for.
#[derive(Clone, Copy)]
pub enum Aim {
    At(u32),
    Least,
}

// One run of the solver: it comes to rest at the largest lags, or a loop is written of so many words.
fn solve(
    sheet: Formed<'_>,
    given: &Given,
    standing: &mut Standing,
    words: &mut [u16],
) -> Result<(), u32>
    requires room { given.now.n * (given.now.n + 2) ≤ length words.old }
    requires solving { Solving sheet.bytes.now given.now standing.old }
    ensures { Solved sheet.entry.bytes.now given.now standing.new words.old words.new result }
{
    let Err(broken) = settle(given, standing) else {
        return Ok(());
    };
    let count = write_loop(sheet, given, standing, broken, words);
    Err(count as u32)
}

// The path table; from the largest permitted lags down to the largest that meet the period, or refusal 11 with its loop.
fn lags_within(
    sheet: Sound<'_>,
    period: u32,
    given: &mut Given,
    standing: &mut Standing,
    lags: &mut [i16],
    words: &mut [u16],
) -> Result<u32, Refusal>
    requires room { (given.old.n ≤ length lags.old) × (given.old.n * (given.old.n + 2) ≤ length words.old) }
    requires loaded { Loaded sheet.bytes.now given.old }
    requires resting { Resting sheet.bytes.now given.old standing.old }
    ensures { First (lags_last sheet.entry.bytes.now period lags.old words.old) (lags_outcome (said result) lags.new words.new) }
{
    given.period = period;
    write_table(sheet, &mut given.registers, &mut given.delays);
    if let Err(count) = solve(sheet.formed(), given, standing, words) {
        return Err(Refusal::NoLagsAt(count));
    }
    write_lags(given.n, &standing.lags, lags);
    Ok(0)
}

// A lag question that the quick way found no lags for. Never inlined: its lists and those of the quick way would stand in one
// frame, more than the stack that is promised.
#[inline(never)]
pub fn refuse(
    sheet: Sound<'_>,
    aim: Aim,
    lags: &mut [i16],
    words: &mut [u16],
) -> Result<u32, Refusal>
    requires { (sheet.n ≤ length lags.old) × (sheet.n * (sheet.n + 2) ≤ length words.old) × Hopeless sheet.bytes.now aim }
    ensures { First (last_of sheet.entry.bytes.now aim lags.old words.old) (lags_outcome (said result) lags.new words.new) }
{
    let mut given = Given {
        n: sheet.n,
        m: sheet.m,
        period: u32::MAX,
        lower: [0; 64],
        upper: [0; 64],
        from: [0; 256],
        to: [0; 256],
        wires: [0; 256],
        ceilings: [0; 256],
        registers: [0; 4096],
        delays: [0; 4096],
    };
    load(sheet, &mut given);
    let mut standing = Standing::at_limits(&given);
    if let Err(count) = solve(sheet.formed(), &given, &mut standing, words) {
        return Err(Refusal::NoLags(count));
    }
    match aim {
        Aim::At(period) => lags_within(sheet, period, &mut given, &mut standing, lags, words),
        // No lags are permitted.
        Aim::Least => unreachable!(),
    }
}
