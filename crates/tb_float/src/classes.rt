//! Which classes a walk over floats has passed.
ghost use Rattle.std.specs.Prelude.{◌≡◌, ◌-◌, [], ◌∷◌, ◌++◌, List, IsTrue, true, slice_set};
ghost use Rattle.tb_node.specs.declared.Float.{Float};
ghost use Rattle.tb_float.specs.Classes.{AreClassesOf, AreKnown, AreOfClasses, HasLeft, set_count};
ghost use Rattle.tb_float.specs.Lists.{has_class};

/// A set of classes of floats, so that a walk over a list knows at each float whether one of its class comes before it.
#[derive(Clone, Copy)]
pub struct ClassSet {
    flags: [bool; 256],
    // If the set was made for a list: a bound on the classes of the list that are not in the set.
    left: usize,
}

impl ClassSet {
    /// The set without classes.
    pub fn none() -> ClassSet
        ensures { AreClassesOf result [] }
    {
        ClassSet {
            flags: [false; 256],
            left: 0,
        }
    }

    // The set without classes, for lists of floats whose classes are all in another set.
    pub(crate) fn none_of(known: &ClassSet) -> ClassSet
        ensures classes { AreClassesOf result [] }
        ensures left { (fs : List Float) → AreKnown known.now.flags fs → HasLeft result fs }
    {
        ClassSet {
            flags: [false; 256],
            left: count(&known.flags),
        }
    }

    /// Whether no class of the list that the set was made for is left: all of its floats are of classes in the set.
    pub fn is_full(&self) -> bool
        ensures none_left { self.now.left ≡ 0 → result ≡ true }
        ensures all { IsTrue result → (fs all : List Float) → AreClassesOf self.now fs → HasLeft self.now all → AreOfClasses fs all }
    {
        self.left == 0
    }

    /// Whether the class is in the set.
    pub fn has(&self, class: u8) -> bool
        ensures { (fs : List Float) → AreClassesOf self.now fs → result ≡ has_class class fs }
    {
        self.flags[usize::from(class)]
    }

    /// The class is in the set from now on.
    pub fn add(&mut self, class: u8)
        ensures classes { (fs : List Float) (f : Float) → f.class ≡ class → AreClassesOf self.old fs → AreClassesOf self.new (fs ++ f ∷ []) }
        ensures left { (all : List Float) → has_class class all ≡ true → HasLeft self.old all → HasLeft self.new all }
        ensures flags { self.new.flags ≡ slice_set self.old.flags class true }
    {
        let place = usize::from(class);
        if self.flags[place] {
            return;
        }
        self.left = one_less(self.left);
        self.flags[place] = true;
    }
}

// How many classes are left after one more.
fn one_less(left: usize) -> usize
    ensures { result ≡ left - 1 }
{
    if left == 0 { 0 } else { left - 1 }
}

// How many flags are set.
fn count(flags: &[bool; 256]) -> usize
    ensures { result ≡ set_count flags.now }
{
    let mut set = 0u16;
    for flag in flags {
        if *flag {
            set += 1;
        }
    }
    usize::from(set)
}
