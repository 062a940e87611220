//! The height of floats together.
ghost use Rattle.std.specs.Prelude.{◌≡◌};
ghost use Rattle.tb_told.specs.Sums.{IsHeightSum};

use std::marker::Model;

/// The height of the floats of a column together, in scaled points. In contracts it is that height, which is at most 2^78
/// either way.
#[derive(Clone, Copy)]
pub struct HeightSum {
    amount: i128,
}

impl Model for HeightSum {
    ghost use Rattle.std.specs.Prelude.{ℤ};
    ghost use Rattle.tb_told.specs.Sums.{IsHeightSum};

    ghost Value = { ℤ };

    ghost view = { λ h. h.amount };

    ghost inverse = { λ z. record { amount = z } };

    ghost invariant = { λ h. IsHeightSum h.amount };
}

impl HeightSum {
    /// This height.
    pub(crate) fn new(amount: i128) -> HeightSum
        requires { IsHeightSum amount }
        ensures { result ≡ amount }
    {
        HeightSum { amount }
    }

    /// The height, in scaled points.
    pub fn amount(&self) -> i128
        ensures value { result ≡ self.now }
        ensures within { IsHeightSum result }
    {
        self.amount
    }
}
