// The rules on a table of keys, and what tells that no lags keep them.
ghost use Rattle.descent.specs.System.{Fit};

// The key of each pair of blocks, and the limits between which each block's lag lies, as excess numbers.
// The period stays beside them: one table serves each period that `least` tries, `Descent::start` speaks of every period,
// and `LeastRest` of two.
#[derive(Clone, Copy)]
pub struct Rules<'a> {
    pub keys: &'a [u32; 4096],
    pub lower: &'a [u32; 64],
    pub upper: &'a [u32; 64],
    pub ghost fit: { Fit keys.now lower.now upper.now },
}

// No lags keep the rules at any period below this.
#[derive(Clone, Copy, Debug, PartialEq, Eq)]
pub struct NoLags {
    pub below: u32,
}
