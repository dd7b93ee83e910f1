// The kinds of a loop's links, by the numbers that 01 gives them.
ghost use Rattle.loops.specs.Kind.{Decodes};

// The rule of a wire, of a path, of a block's upper or lower limit, or of a wire's ceiling.
#[derive(Clone, Copy, Debug, PartialEq, Eq)]
pub enum Kind {
    Wire = 1,
    Path = 2,
    Upper = 3,
    Lower = 4,
    Ceiling = 5,
}

// A word that no link begins with.
#[derive(Clone, Copy, Debug, PartialEq, Eq)]
pub struct NoKind;

impl TryFrom<u16> for Kind {
    type Error = NoKind;

    ghost try_from_gives = { Decodes };

    fn try_from(word: u16) -> Result<Self, NoKind> {
        match word {
            1 => Ok(Kind::Wire),
            2 => Ok(Kind::Path),
            3 => Ok(Kind::Upper),
            4 => Ok(Kind::Lower),
            5 => Ok(Kind::Ceiling),
            _ => Err(NoKind),
        }
    }
}
