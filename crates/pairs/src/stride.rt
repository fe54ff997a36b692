ghost use Rattle.std.specs.Prelude.{◌≡◌};
ghost use Rattle.pairs.specs.Strides.{bytes};

/// How many bytes an entry takes.
#[derive(Clone, Copy, PartialEq, Eq, Debug)]
pub enum Stride {
    One,
    Two,
}

impl Stride {
    /// The number of bytes.
    pub fn bytes(self) -> usize
        ensures { result ≡ bytes self }
    {
        match self {
            Stride::One => 1,
            Stride::Two => 2,
        }
    }
}
