// One column of the keys: the rules (u, v) of all blocks u with one block v, 64 lanes at a time.
// These loops have the form that becomes vectors: no early return, and the same work in every turn. An `any` over both
// lists stops early, a `filter` with `count` branches: either becomes no vector and takes three to six times as long.
ghost use Rattle.std.specs.Prelude.{◌≡◌, ◌<◌, ◌≤◌};
ghost use Rattle.descent.specs.State.{IsColumn, Falls, Pushed, Under, bar};

// The rules of all blocks with `block`, whose lag is `lag`, at a period.
#[derive(Clone, Copy)]
pub struct Column<'a> {
    pub keys: &'a [u32; 4096],
    pub period: u32,
    pub block: usize,
    pub lag: u32,
    pub ghost fits: { IsColumn keys.now period block lag },
}

impl<'a> Column<'a> {
    // The rule of block u asks it to be below this.
    fn bar(&self, u: usize) -> u32
        requires { u < 64 }
        ensures { (result ≡ bar self.now.keys.now self.now.period self.now.block self.now.lag u) × (0 < result) × (result ≤ 40000) }
    {
        self.lag + (self.keys[self.block * 64 + u] + self.period) / 1048576
    }

    // Whether some block stands at or above what the column asks.
    pub fn lowers(&self, lags: &[u32; 64]) -> bool
        ensures { Falls self.now.keys.now self.now.period self.now.block self.now.lag lags.now 64 result }
    {
        let mut some = false;
        for u in 0..64 {
            some |= self.bar(u) <= lags[u];
        }
        some
    }

    // Lowers each block to what the column asks, and links it to the column's block.
    pub fn push(&self, lags: &mut [u32; 64], links: &mut [u32; 64])
        ensures { Pushed self.now.keys.now self.now.period self.now.block self.now.lag lags.old lags.new 64 }
    {
        let name = self.block as u32;
        for u in 0..64 {
            let most = self.bar(u);
            let mut lag = lags[u];
            let mut link = links[u];
            if most <= lag {
                lag = most - 1;
                link = name;
            }
            lags[u] = lag;
            links[u] = link;
        }
    }
}

// Whether some block stands below its lower limit.
pub fn under(lags: &[u32; 64], lower: &[u32; 64]) -> bool
    ensures { Under lower.now lags.now 64 result }
{
    let mut some = false;
    for u in 0..64 {
        some |= lags[u] < lower[u];
    }
    some
}
