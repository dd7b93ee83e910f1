// A link of a loop as the words hold it: its kind, and what the kind asks for.
ghost use Rattle.std.specs.Prelude.{◌≡◌, ◌+◌, ◌≤◌, length, get_or};
ghost use Rattle.loops.specs.Reads.{HeadGiven};

use crate::kind::Kind;
use sheet::block::Limit;

// Which rule of a wire: it keeps 0 registers or more, or 2,000 or fewer.
#[derive(Clone, Copy, Debug, PartialEq, Eq)]
pub enum Bound {
    Floor,
    Ceiling,
}

// A wire by its number (kinds 1 and 5); a path by its start block and the number of its wires (2); a block by its number (3 and 4).
#[derive(Clone, Copy, Debug, PartialEq, Eq)]
pub enum Link {
    Wire(Bound, usize),
    Path(usize, usize),
    Block(Limit, usize),
}

// A good link: its rule is lag(a) - lag(b) <= k, held as k + 32,768; the next link's words begin at `next`.
#[derive(Clone, Copy, Debug, PartialEq, Eq)]
pub struct Read {
    pub link: Link,
    pub a: usize,
    pub b: usize,
    pub k: u32,
    pub next: usize,
}

// A path's head: the number of its wires may be any word.
fn path_head(words: &[u16], at: usize, start: usize) -> Option<Link>
    requires { (at + 2 ≤ length words.now) × (length words.now ≤ 4224) × (get_or words.now at 0 ≡ 2) × (get_or words.now (at + 1) 0 ≡ start) }
    ensures { HeadGiven words.now at result }
{
    if words.len() < at + 3 {
        return None;
    }
    let count = words[at + 2] as usize;
    if words.len() < at + 3 + count {
        return None;
    }
    Some(Link::Path(start, count))
}

// The link whose words begin at `at`, before its blocks and wires are looked at: of words alone, which have no type of their own.
pub fn head_at(words: &[u16], at: usize) -> Option<Link>
    requires { (at ≤ length words.now) × (length words.now ≤ 4224) }
    ensures { HeadGiven words.now at result }
{
    if words.len() < at + 2 {
        return None;
    }
    let x = words[at + 1] as usize;
    match Kind::try_from(words[at]).ok()? {
        Kind::Wire => Some(Link::Wire(Bound::Floor, x)),
        Kind::Path => path_head(words, at, x),
        Kind::Upper => Some(Link::Block(Limit::Upper, x)),
        Kind::Lower => Some(Link::Block(Limit::Lower, x)),
        Kind::Ceiling => Some(Link::Wire(Bound::Ceiling, x)),
    }
}
