// The greatest amount of the ways into an element, and the greatest without those of its number.

ghost use Rattle.std.specs.Prelude.{◌≡◌};
ghost use Rattle.cycle_plan.specs.private.Greatest.{no_greatest, greatest_but, raised_greatest};

/// The greatest amount of the ways into an element, and the greatest over those of them that have
/// another number: what a line out of the element follows, since it can't go back the way it came.
#[derive(Clone, Copy, Debug, Drop)]
pub(crate) struct Greatest {
    /// The number of a way in of the greatest amount.
    pub(crate) number: Option<u32>,
    /// The greatest amount, or 0 without a way in.
    pub(crate) most: u64,
    /// The same over the ways in of other numbers.
    pub(crate) without: u64,
}

impl Greatest {
    /// Without a way in.
    pub(crate) fn none() -> Greatest
        ensures { result ≡ no_greatest }
    {
        Greatest {
            number: None,
            most: 0,
            without: 0,
        }
    }

    /// The greatest amount over all ways in but those of this number.
    pub(crate) fn but(self, number: u32) -> u64
        ensures { result ≡ greatest_but self number }
    {
        if self.number == Some(number) {
            self.without
        } else {
            self.most
        }
    }

    /// With one more way in, of this number and amount.
    pub(crate) fn raised(self, number: u32, amount: u64) -> Greatest
        ensures { result ≡ raised_greatest self number amount }
    {
        if self.number == Some(number) {
            Greatest {
                number: self.number,
                most: self.most.max(amount),
                without: self.without,
            }
        } else if self.most <= amount {
            Greatest {
                number: Some(number),
                most: amount,
                without: self.most,
            }
        } else if self.without <= amount {
            Greatest {
                number: self.number,
                most: self.most,
                without: amount,
            }
        } else {
            self
        }
    }
}
