//! The power that a write has.

/// How many byte writes still land, and what the one that is caught by a power cut leaves behind.
#[derive(Clone, Copy, PartialEq, Eq, Debug)]
pub struct Power {
    pub budget: u16,
    pub residue: u8,
}

impl Power {
    ghost use Rattle.std.specs.Prelude.{◌≡◌};
    ghost use Rattle.store.specs.Overwriting.{lands};

    // Whether the last byte write lands: where it is caught, it does with an odd residue.
    pub(crate) fn lands(self) -> bool
        ensures { result ≡ lands self }
    {
        self.budget >= 1 || self.residue % 2 == 1
    }
}
