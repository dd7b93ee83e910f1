// Links followed from block to block: each block but the host is held by a link, and every walk ends at the host.
ghost use Rattle.std.specs.Prelude.{◌≡◌, ◌<◌, ◌≤◌, length};
ghost use Rattle.solver.specs.Walk.{Rooted, Met};

// Whether the walk from b meets a.
pub fn meets(n: usize, next: &[usize; 64], a: usize, b: usize) -> bool
    requires { Rooted n next.now × (b < n) }
    ensures { Met next.now a b result }
{
    let mut v = b;
    for _ in 0..n {
        if v == a {
            return true;
        }
        if v == 0 {
            return false;
        }
        v = next[v];
    }
    unreachable!()
}
