// Contradictions: rules that follow each other along links and leave no lags, and up to which period they do.
// A link names the block whose rule lowered a block last, or none (64 and above). Links are guesses at where to look:
// what is said of a chain is computed from its rules.
ghost use Rattle.std.specs.Prelude.{◌≡◌, ◌≤◌, ◌<◌, IfErr, IfSome};
ghost use Rattle.descent.specs.State.{Table, Stop};
ghost use Rattle.descent.specs.Chain.{Chained, Eased, Sinking};

use crate::rules::{NoLags, Rules};

// A chain of rules: lag(start) + 64 <= lag(end) + total, at every period below `until`.
#[derive(Clone, Copy)]
pub struct Chain {
    pub end: usize,
    pub total: u32,
    pub until: u32,
}

impl Chain {
    // Takes the chain on by the rule (end, next).
    fn join(self, keys: &[u32; 4096], c: u32, next: usize) -> Chain
        requires { Table keys.now c × (next < 64) × (self.end < 64) × (0 < self.total) × (self.total ≤ 200000) }
        ensures { Eased keys.now c next self result }
    {
        let key = keys[next * 64 + self.end];
        let slack = (key + c) / 1048576;
        Chain {
            end: next,
            total: self.total + slack - 1,
            until: self.until.min((slack + 1) * 1048576 - key),
        }
    }
}

// The rules along at most `limit` links from `start`, and not past `start` itself.
fn follow(keys: &[u32; 4096], c: u32, start: usize, limit: usize, links: &[u32; 64]) -> Chain
    requires { Table keys.now c × (start < 64) × (limit ≤ 64) }
    ensures { Chained keys.now c start 64 result }
{
    let mut chain = Chain {
        end: start,
        total: 64,
        until: u32::MAX,
    };
    for _ in 0..limit {
        let next = links[chain.end] as usize;
        if next >= 64 {
            break;
        }
        chain = chain.join(keys, c, next);
        if next == start {
            break;
        }
    }
    chain
}

// Fails where the chain from `start` shows that there are no lags.
pub fn test_chain(
    rules: &Rules,
    c: u32,
    start: usize,
    limit: usize,
    links: &[u32; 64],
) -> Result<(), NoLags>
    requires { (c < 1048576) × (start < 64) × (limit ≤ 64) }
    ensures { IfErr result (λ n. Stop rules.now c n.below) }
{
    let chain = follow(rules.keys, c, start, limit, links);
    let broken = NoLags { below: chain.until };
    if chain.end == start {
        if chain.total < 64 {
            return Err(broken);
        }
    } else if rules.upper[chain.end] + chain.total < rules.lower[start] + 64 {
        return Err(broken);
    }
    Ok(())
}

// The first block below its lower limit.
fn sunk(lags: &[u32; 64], lower: &[u32; 64]) -> Option<usize>
    ensures { IfSome result (λ b. b < 64) }
{
    lags.iter().zip(lower).position(|(lag, least)| lag < least)
}

// Up to which period there are none, where lags that column v lowered have sunk below their lower limits: as far as the
// chain from v shows, or that from the first block that has sunk, or at c alone.
pub fn no_lags_once_sunk(
    rules: &Rules,
    c: u32,
    v: usize,
    lags: &[u32; 64],
    links: &[u32; 64],
) -> NoLags
    requires { Sinking rules.now c lags.now × (c < 1048576) × (v < 64) }
    ensures { Stop rules.now c result.below }
{
    if let Err(broken) = test_chain(rules, c, v, 64, links) {
        return broken;
    }
    if let Some(first) = sunk(lags, rules.lower) {
        if let Err(broken) = test_chain(rules, c, first, 64, links) {
            return broken;
        }
    }
    NoLags { below: c + 1 }
}
