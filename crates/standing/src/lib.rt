// Where a search stands: the best value so far, the second best, and the label of the best.
// The values are gone through in the order of their labels. Equals go to the earliest label, so a value must be above
// the best to take its place. Tied is best equal to second. Contracts cite specs/Lead.antt.
#![tactic(auto)]

ghost use Rattle.std.specs.Prelude.{◌≡◌};

#[derive(Clone, Copy, Debug, PartialEq, Eq)]
pub struct Standing {
    pub best: u32,
    pub second: u32,
    pub label: u64,
}

impl Standing {
    ghost use Rattle.standing.specs.Lead.{better, tied_of};

    // The standing before the first value.
    pub const NOBODY: Standing = Standing {
        best: 0,
        second: 0,
        label: 0,
    };

    // The standing after one more value, that of a later label.
    pub fn better(self, value: u32, label: u64) -> Standing
        ensures { result ≡ better self value label }
    {
        if value <= self.second {
            return self;
        }
        if value <= self.best {
            return Standing {
                second: value,
                ..self
            };
        }
        Standing {
            best: value,
            second: self.best,
            label,
        }
    }

    // Whether the second best is as good as the best.
    pub fn tied(self) -> bool
        ensures { result ≡ tied_of self }
    {
        self.best == self.second
    }
}
