// A sheet at the stages of a question: what was tested stands in its type.
// The same plain fields at each stage, and not one stage inside the next: a clause reads `sheet.bytes`, and no stage by its name.
ghost use Rattle.std.specs.Prelude.{◌≡◌};
ghost use Rattle.sheet.specs.Core.{blocks_in, wires_in};
ghost use Rattle.sheet.specs.Sheet.{Framed, FormedSheet};

// A sheet that 1, 2 and 3 pass, with the numbers of its blocks and wires.
#[derive(Clone, Copy)]
pub struct Opened<'a> {
    pub bytes: &'a [u8],
    pub n: usize,
    pub m: usize,
    pub ghost framed: { Framed bytes.now },
    pub ghost n_is: { n ≡ blocks_in bytes.now },
    pub ghost m_is: { m ≡ wires_in bytes.now },
}

// A sheet that 5 and 6 pass as well.
#[derive(Clone, Copy)]
pub struct Formed<'a> {
    pub bytes: &'a [u8],
    pub n: usize,
    pub m: usize,
    pub ghost formed: { FormedSheet bytes.now },
    pub ghost n_is: { n ≡ blocks_in bytes.now },
    pub ghost m_is: { m ≡ wires_in bytes.now },
}
