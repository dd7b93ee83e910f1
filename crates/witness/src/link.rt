// The words of one link, at the front of a list.
ghost use Rattle.std.specs.Prelude.{◌≡◌, [], ◌∷◌, ℕ, ◌+◌, ◌*◌, ◌<◌, ◌≤◌, ℤ, length};
ghost use Rattle.std.proofs.lemmas.List.Edits.{sets};
ghost use Rattle.sheet.specs.Core.{core_of};
ghost use Rattle.loops.specs.Kind.{number_of};
ghost use Rattle.witness.specs.Trace.{Tabled, Known, registers_at};
ghost use Rattle.witness.specs.Written.{Asked, PathWritten, LinkWritten};
ghost use Rattle.witness.specs.Walked.{Begun};

use crate::trace::Pair;
use loops::kind::Kind;
use sheet::opened::Formed;
use solver::{Given, Rule};

// The words of a link of a kind other than a path's; how many they are.
fn write_pair(words: &mut [u16], kind: Kind, x: usize) -> usize
    requires { (2 ≤ length words.old) × (x < 65536) }
    ensures { (words.new ≡ sets words.old 0 (number_of kind ∷ x ∷ [])) × (result ≡ 2) }
{
    words[0] = kind as u16;
    words[1] = x as u16;
    2
}

// The lower limit of a, where the loop does not end at a; how many words it took.
pub fn write_start(start: usize, a: usize, words: &mut [u16]) -> usize
    requires { (2 ≤ length words.old) × (a < 65536) }
    ensures { Begun start a words.old words.new result }
{
    if start == a {
        return 0;
    }
    write_pair(words, Kind::Lower, a)
}

// Kind 2: a best path from a to b.
fn write_path(sheet: Formed<'_>, given: &Given, a: usize, b: usize, words: &mut [u16]) -> usize
    requires { Tabled sheet.bytes.now given.now × (a < given.now.n) × (b < given.now.n) × (registers_at given.now a b < 4294967295) × (given.now.n + 2 ≤ length words.old) }
    ensures { PathWritten sheet.entry.bytes.now given.now a b words.old words.new result }
{
    let mut found = [0u16; 64];
    let pair = Pair {
        sheet,
        given,
        u: a,
        v: b,
    };
    let wires = pair.trace(&mut found);
    let end = 3 + wires.len();
    words[0] = Kind::Path as u16;
    words[1] = a as u16;
    words[2] = wires.len() as u16;
    words[3..end].copy_from_slice(wires);
    end
}

// The link from a to b by a rule.
pub fn write_link(
    sheet: Formed<'_>,
    given: &Given,
    rule: Rule,
    a: usize,
    b: usize,
    words: &mut [u16],
) -> usize
    requires room { given.now.n + 2 ≤ length words.old }
    requires known { Known sheet.bytes.now given.now rule }
    requires asked { (k : ℤ) × Asked (core_of sheet.bytes.now) given.now.period rule a b k }
    ensures { (k : ℤ) → Asked (core_of sheet.entry.bytes.now) given.now.period rule a b k → LinkWritten (core_of sheet.entry.bytes.now) given.now.period rule a b k words.old words.new 0 result }
{
    match rule {
        Rule::Limit => write_pair(words, Kind::Upper, a),
        Rule::Path => write_path(sheet, given, a, b, words),
        Rule::Wire(j) => write_pair(words, Kind::Wire, j),
        Rule::Ceiling(j) => write_pair(words, Kind::Ceiling, j),
    }
}
