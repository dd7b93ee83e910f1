// Lags and their excess numbers. An excess number is a u32 in lists that become vectors: a type of its own, with `From`,
// would be taken off at each use.
ghost use Rattle.std.specs.Prelude.{◌≡◌, ◌<◌};
ghost use Rattle.sheet.specs.Lag.{lag_of};
ghost use Rattle.sheet.specs.Reads.{ExcessIs};

pub fn excess_of(lag: i16) -> u32
    ensures { ExcessIs lag result }
{
    (lag as i32 + 32768) as u32
}

pub fn lag_of(e: u32) -> i16
    requires { e < 65536 }
    ensures { result ≡ lag_of e }
{
    (e as i32 - 32768) as i16
}
