// Rounds over the columns of blocks that have moved, until none is left or a contradiction shows that there are no lags.
ghost use Rattle.std.specs.Prelude.{ℕ, ◌<◌, ◌≤◌, OnOk, IfErr};
ghost use Rattle.descent.specs.State.{State, AtRest, Going, Stepped, Rounded, Left, Stop};

use crate::chain::{no_lags_once_sunk, test_chain};
use crate::column::{Column, under};
use crate::rules::{NoLags, Rules};

// Lags on their way down: each block's lag as an excess number, the block whose rule lowered it last (none: 64 and
// above), and the lag at which its column was taken last (never: 40,000, above all lags).
// Lists side by side and not one of blocks: the lags of all 64 are compared, and stored with their links, as vectors.
// Numbers stand for none here, since a push stores 64 links as vectors: with an Option it takes more than twice as long.
#[derive(Clone, Copy)]
pub struct Descent {
    pub lags: [u32; 64],
    links: [u32; 64],
    seen: [u32; 64],
}

impl Descent {
    // All blocks at their upper limits.
    pub fn start(rules: &Rules) -> Descent
        ensures { (c : ℕ) → State rules.now c result.lags }
    {
        Descent {
            lags: *rules.upper,
            links: [64; 64],
            seen: [40000; 64],
        }
    }

    // Takes block v's column where v has moved since it was last seen.
    fn step(&mut self, rules: &Rules, c: u32, v: usize, limit: usize) -> Result<(), NoLags>
        requires { Going rules.now c self.old.lags self.old.seen × (v < 64) × (limit ≤ 64) }
        ensures on { OnOk result (Stepped rules.now c v self.old.lags self.old.seen self.new.lags self.new.seen) }
        ensures stop { IfErr result (λ n. Stop rules.now c n.below) }
    {
        let lag = self.lags[v];
        if self.seen[v] == lag {
            return Ok(());
        }
        self.seen[v] = lag;
        let column = Column {
            keys: rules.keys,
            period: c,
            block: v,
            lag,
        };
        if !column.lowers(&self.lags) {
            return Ok(());
        }
        column.push(&mut self.lags, &mut self.links);
        if under(&self.lags, rules.lower) {
            return Err(no_lags_once_sunk(rules, c, v, &self.lags, &self.links));
        }
        test_chain(rules, c, v, limit, &self.links)
    }

    // One round over all blocks.
    fn round(&mut self, rules: &Rules, c: u32, limit: usize) -> Result<(), NoLags>
        requires { Going rules.now c self.old.lags self.old.seen × (limit ≤ 64) }
        ensures on { OnOk result (Rounded rules.now c 64 self.old.lags self.old.seen self.new.lags self.new.seen) }
        ensures stop { IfErr result (λ n. Stop rules.now c n.below) }
    {
        for v in 0..64 {
            self.step(rules, c, v, limit)?;
        }
        Ok(())
    }

    // Whether some block has moved since it was last seen; a loop, as in `column`, since an `any` becomes no vector.
    fn is_moving(&self) -> bool
        ensures { Left self.now.lags self.now.seen 64 result }
    {
        let mut some = false;
        for w in 0..64 {
            some |= self.lags[w] != self.seen[w];
        }
        some
    }

    // Down to the largest lags at period c, or there are none.
    // The first round looks a few links back for a contradiction, later ones all the way: most are short, or come late.
    pub fn settle(&mut self, rules: &Rules, c: u32) -> Result<(), NoLags>
        requires state { State rules.now c self.old.lags }
        requires short { c < 1048576 }
        ensures rest { OnOk result (AtRest rules.now c self.new.lags) }
        ensures stop { IfErr result (λ n. Stop rules.now c n.below) }
    {
        self.seen = [40000; 64];
        let mut limit = 4;
        while self.is_moving() {
            self.round(rules, c, limit)?;
            limit = 64;
        }
        Ok(())
    }
}
