//! One value for each list of the pool.
ghost use Rattle.std.specs.Prelude.{◌≡◌};
ghost use Rattle.tb_float.specs.declared.Part.{Part};
ghost use Rattle.tb_float.specs.ByPart.{of_part, with_part};

use crate::Part;

/// One value for each list of the pool, as the list's id or the sum of its heights.
#[derive(Clone, Copy)]
pub(crate) struct ByPart<T> {
    pub(crate) current: T,
    pub(crate) here: T,
    pub(crate) top: T,
    pub(crate) bottom: T,
    pub(crate) deferred: T,
    pub(crate) double: T,
    pub(crate) second: T,
}

impl<T: Copy> ByPart<T> {
    // The same value for each list.
    pub(crate) fn all(value: T) -> ByPart<T>
        ensures { (p : Part) → of_part result p ≡ value }
    {
        ByPart {
            current: value,
            here: value,
            top: value,
            bottom: value,
            deferred: value,
            double: value,
            second: value,
        }
    }

    // The value of a list.
    pub(crate) fn of(&self, part: Part) -> T
        ensures { result ≡ of_part self.now part }
    {
        match part {
            Part::Current => self.current,
            Part::Here => self.here,
            Part::Top => self.top,
            Part::Bottom => self.bottom,
            Part::Deferred => self.deferred,
            Part::Double => self.double,
            Part::Second => self.second,
        }
    }

    // Another value for a list.
    pub(crate) fn set(&mut self, part: Part, value: T)
        ensures { self.new ≡ with_part part value self.old }
    {
        match part {
            Part::Current => self.current = value,
            Part::Here => self.here = value,
            Part::Top => self.top = value,
            Part::Bottom => self.bottom = value,
            Part::Deferred => self.deferred = value,
            Part::Double => self.double = value,
            Part::Second => self.second = value,
        }
    }
}
