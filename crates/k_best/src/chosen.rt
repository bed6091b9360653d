ghost use Rattle.std.specs.Prelude.{◌≡◌, ◌+◌, ◌<◌, ◌++◌, ◌∷◌, []};
ghost use Rattle.k_best.specs.Chosen.{ranks_of, values_of};

/// The values of the first arguments of a split, and the ranks of the rules among them.
#[derive(Clone, Copy)]
pub struct Chosen {
    pub values: [i64; 4],
    pub valued: u8,
    pub ranks: [u8; 4],
    pub ranked: u8,
}

impl Chosen {
    /// Those of no arguments.
    pub fn none() -> Chosen
        ensures valued { result.valued ≡ 0 }
        ensures ranked { result.ranked ≡ 0 }
    {
        Chosen {
            values: [0; 4],
            valued: 0,
            ranks: [0; 4],
            ranked: 0,
        }
    }

    /// With the value of one argument more.
    pub fn with_value(self, value: i64) -> Chosen
        requires { self.valued < 4 }
        ensures valued { result.valued ≡ self.valued + 1 }
        ensures values { values_of result ≡ values_of self ++ value ∷ [] }
        ensures ranked { result.ranked ≡ self.ranked }
        ensures ranks { ranks_of result ≡ ranks_of self }
    {
        let mut chosen = self;
        chosen.values[self.valued as usize] = value;
        chosen.valued += 1;
        chosen
    }

    /// With the rank of one argument more.
    pub fn with_rank(self, rank: u8) -> Chosen
        requires { self.ranked < 4 }
        ensures valued { result.valued ≡ self.valued }
        ensures values { values_of result ≡ values_of self }
        ensures ranked { result.ranked ≡ self.ranked + 1 }
        ensures ranks { ranks_of result ≡ ranks_of self ++ rank ∷ [] }
    {
        let mut chosen = self;
        chosen.ranks[self.ranked as usize] = rank;
        chosen.ranked += 1;
        chosen
    }
}
