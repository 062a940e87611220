//! What the tests of floats and of areas are given.
ghost use Rattle.tb_float.specs.Ranges.{AreFloatParams};

use tb_float::Suppress;
use tb_param::{Params, defaults};
use tb_scaled::fixed;

pub(crate) const NOT_SUPPRESSED: Suppress = Suppress {
    all: false,
    top: false,
    bottom: false,
};

// A column of height 100 without separators, whose bottom takes this many floats.
pub(crate) fn plain_params(bottomnumber: u8) -> Params
    ensures { AreFloatParams result }
{
    Params {
        textheight: 100,
        textfloatsep: fixed(0),
        floatsep: fixed(0),
        intextsep: fixed(0),
        dbltextfloatsep: fixed(0),
        dblfloatsep: fixed(0),
        bottomnumber: i64::from(bottomnumber),
        ..defaults()
    }
}
