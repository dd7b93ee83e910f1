// One link of a loop: its words, its ends and its k.
ghost use Rattle.std.specs.Prelude.{◌≤◌, length};

use crate::link::{Bound, Link, Read, head_at};
use crate::path::follow;
use sheet::block::Limit;
use sheet::opened::Formed;

// A loop that is offered for a formed sheet and a period.
#[derive(Clone, Copy)]
pub struct Offer<'a> {
    pub sheet: Formed<'a>,
    pub period: u32,
    pub words: &'a [u16],
    pub ghost short: { length words.now ≤ 4224 },
}

impl<'a> Offer<'a> {
    ghost use Rattle.std.specs.Prelude.{◌≤◌, length};
    ghost use Rattle.loops.specs.Reads.{WireSettled, BlockSettled, PathHead, LinkGiven};

    // Kind 1: the wire keeps 0 registers or more. Kind 5: it keeps 2,000 or fewer.
    fn wire_link(self, at: usize, bound: Bound, j: usize) -> Option<Read>
        requires { at ≤ 4224 }
        ensures { WireSettled self.entry.sheet.bytes.now at bound j result }
    {
        if j >= self.sheet.m {
            return None;
        }
        let wire = self.sheet.wire(j);
        let link = Link::Wire(bound, j);
        let next = at + 2;
        match bound {
            Bound::Floor => Some(Read {
                link,
                a: wire.from,
                b: wire.to,
                k: wire.registers + 32768,
                next,
            }),
            Bound::Ceiling => Some(Read {
                link,
                a: wire.to,
                b: wire.from,
                k: 34768 - wire.registers,
                next,
            }),
        }
    }

    // Kind 3: the block's upper lag. Kind 4: its lower lag.
    fn block_link(self, at: usize, which: Limit, b: usize) -> Option<Read>
        requires { at ≤ 4224 }
        ensures { BlockSettled self.entry.sheet.bytes.now at which b result }
    {
        if b >= self.sheet.n {
            return None;
        }
        let block = self.sheet.block(b);
        let link = Link::Block(which, b);
        let next = at + 2;
        match which {
            Limit::Upper => Some(Read {
                link,
                a: b,
                b: 0,
                k: block.upper,
                next,
            }),
            Limit::Lower => Some(Read {
                link,
                a: 0,
                b,
                k: 65536 - block.lower,
                next,
            }),
        }
    }

    // Kind 2: the path that starts at block `start` along `count` words. Its delay must exceed the period. Inlined, as `link_at` is.
    #[inline(always)]
    fn path_link(self, at: usize, start: usize, count: usize) -> Option<Read>
        requires { PathHead self.words.now at start count }
        ensures { LinkGiven self.entry.sheet.bytes.now self.entry.period self.entry.words.now at result }
    {
        let first = at + 3;
        let next = first + count;
        let path = follow(self.sheet, start, &self.words[first..next])?;
        if path.delay <= self.period {
            return None;
        }
        Some(Read {
            link: Link::Path(start, count),
            a: start,
            b: path.to,
            k: path.registers + 32767,
            next,
        })
    }

    // The link whose words begin at `at`. Inlined: a call hands the offer and the link over in memory, which takes longer than to read
    // most links.
    #[inline(always)]
    pub fn link_at(self, at: usize) -> Option<Read>
        requires { at ≤ length self.words.now }
        ensures { LinkGiven self.entry.sheet.bytes.now self.entry.period self.entry.words.now at result }
    {
        match head_at(self.words, at)? {
            Link::Wire(bound, j) => self.wire_link(at, bound, j),
            Link::Path(start, count) => self.path_link(at, start, count),
            Link::Block(which, b) => self.block_link(at, which, b),
        }
    }
}
