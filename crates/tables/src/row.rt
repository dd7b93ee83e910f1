// One row of the path table: rounds over the wires, each tried in place, left as soon as a round changes nothing.
// While it is filled, a row holds one key for each block: its registers and its delay in one number, the lower the better.
ghost use Rattle.std.specs.Prelude.{◌≡◌, ◌+◌, ◌*◌, ◌%◌, ◌<◌, ◌≤◌, length, get_or};
ghost use Rattle.paths.specs.Lists.{held};
ghost use Rattle.sheet.specs.Filled.{filled};
ghost use Rattle.tables.specs.Costed.{shape_of, weights_of};
ghost use Rattle.tables.specs.Row.{base_of, Row, RowRight};
ghost use Rattle.tables.specs.Keys.{key_w, key_d, row_w, row_d, Whole, Tried, TriedAll, KeysRight};

use crate::costed::Costed;

// The key of a pair that no path joins: 4294967295 registers and no delay. A number and no Option: an Option's
// order would put none below every key, and 01's table itself says 4,294,967,295 registers and 0.
const FAR: usize = 18446744071562067968;

// Where a wire out of block f starts: at the bare start block u, or at what the row holds for f.
fn base(start: usize, u: usize, f: usize, keys: &[usize; 64]) -> usize
    requires { f < 64 }
    ensures { result ≡ base_of start u (held keys.now) f }
{
    if f == u { start } else { keys[f] }
}

// A key after a wire of that cost.
fn offer(k: usize, cost: usize) -> usize
    requires { (k < 144115188075855872) × (10000 ≤ k) × (cost ≤ 8589934602000) }
    ensures { result + 10000 ≡ k + cost }
{
    k + cost - 10000
}

// Tries wire j on the row of block u: true where it improved the block that it leads to.
// The block's key is stored in either case: a test around the store takes longer than the store.
fn relax(costed: &Costed<'_>, u: usize, start: usize, j: usize, keys: &mut [usize; 64]) -> bool
    requires start { (u < costed.now.wiring.now.n) × (j < costed.now.wiring.now.m) × (start + get_or costed.now.delays.now u 0 ≡ 2147483648) }
    requires whole { Whole costed.now.wiring.now.n keys.old × Row (shape_of costed.now) (weights_of costed.now) u 16384 (row_w costed.now.wiring.now.n keys.old) (row_d costed.now.wiring.now.n keys.old) }
    ensures { Tried (shape_of costed.now) (weights_of costed.now) u j keys.old keys.new result }
{
    let t = costed.wiring.to[j] as usize;
    let k = base(start, u, costed.wiring.from[j] as usize, keys);
    if k == FAR {
        return false;
    }
    let x = offer(k, costed.costs[j]);
    let old = keys[t];
    let better = x < old;
    keys[t] = if better { x } else { old };
    better
}

// One round over all wires: whether one improved a block. `done` counts the rounds before it and bounds the row's numbers. The
// improvements are counted: to carry along only whether there was one takes longer.
fn round(costed: &Costed<'_>, u: usize, start: usize, done: usize, keys: &mut [usize; 64]) -> bool
    requires start { (u < costed.now.wiring.now.n) × (done < 64) × (start + get_or costed.now.delays.now u 0 ≡ 2147483648) }
    requires whole { Whole costed.now.wiring.now.n keys.old × Row (shape_of costed.now) (weights_of costed.now) u (256 * done) (row_w costed.now.wiring.now.n keys.old) (row_d costed.now.wiring.now.n keys.old) }
    ensures { TriedAll (shape_of costed.now) (weights_of costed.now) u (256 * done + 256) keys.old keys.new result }
{
    let mut improved = 0usize;
    for j in 0..costed.wiring.m {
        if relax(costed, u, start, j, keys) {
            improved += 1;
        }
    }
    improved > 0
}

// The keys of block u's row: at most n rounds from the bare start block. The block and its start are made here, for one row, and
// go down as numbers: in a struct with the costs they would be taken out again at each use.
fn settle(costed: &Costed<'_>, u: usize, keys: &mut [usize; 64])
    requires { u < costed.now.wiring.now.n }
    ensures { KeysRight (shape_of costed.now) (weights_of costed.now) u keys.new }
{
    let start = 2147483648 - costed.delays[u] as usize;
    *keys = [FAR; 64];
    keys[u] = start;
    for done in 0..costed.wiring.n {
        if !round(costed, u, start, done, keys) {
            return;
        }
    }
}

// The registers and the delay that a key holds.
fn registers_of(k: usize) -> u32
    requires { k < 18446744073709551616 }
    ensures { result ≡ key_w k }
{
    (k / 4294967296) as u32
}

fn delay_of(k: usize) -> u32
    requires { k % 4294967296 ≤ 2147483648 }
    ensures { result ≡ key_d k }
{
    (2147483648 - k % 4294967296) as u32
}

// The registers and the delay of each of n keys, into the row. There is no heap: the list has room for 64 keys.
fn unpack(n: usize, keys: &[usize; 64], ws: &mut [u32], ds: &mut [u32])
    requires { (n ≤ 64) × (length ws.old ≡ n) × (length ds.old ≡ n) × Whole n keys.now }
    ensures { (ws.new ≡ filled (λ v. key_w (get_or keys.now v 0)) n ws.old) × (ds.new ≡ filled (λ v. key_d (get_or keys.now v 0)) n ds.old) }
{
    for v in 0..n {
        ws[v] = registers_of(keys[v]);
        ds[v] = delay_of(keys[v]);
    }
}

// The row of block u: its keys, then the numbers that they hold.
pub fn fill_row(costed: &Costed<'_>, u: usize, ws: &mut [u32], ds: &mut [u32])
    requires { (u < costed.now.wiring.now.n) × (length ws.old ≡ costed.now.wiring.now.n) × (length ds.old ≡ costed.now.wiring.now.n) }
    ensures { RowRight (shape_of costed.now) (weights_of costed.now) u ws.new ds.new }
{
    let mut keys = [0; 64];
    settle(costed, u, &mut keys);
    unpack(costed.wiring.n, &keys, ws, ds);
}
