//! A walk over the floats after a head, which decides on each whether it joins the head's company.
ghost use Rattle.std.specs.Prelude.{◌≡◌, ◌<◌, ◌<ℤ◌, ◌+◌, ◌+ℤ◌, ◌⊎◌, ◌∷◌, ◌++◌, [], List, IsTrue, true};
ghost use Rattle.tb_node.specs.declared.Float.{Float as PlainFloat};
ghost use Rattle.tb_float.specs.Classes.{AreClassesOf, AreOfClasses, HasLeft};
ghost use Rattle.tb_float.specs.Lists.{has_class};
ghost use Rattle.tb_float.specs.Ranges.{IsWithin};
ghost use Rattle.tb_fpage.specs.Company.{Choice, suits, joins};
ghost use Rattle.tb_fpage.specs.Walk.{IsWalkOf, after_head, taken, passed};

use crate::Wanted;
use tb_float::ClassSet;
use tb_node::Float;

/// What is known of the floats that were passed; the head of the company is among them.
#[derive(Drop)]
pub(crate) struct Walk {
    /// How many floats were passed.
    pub(crate) seen: usize,
    /// How many floats were passed when the last one so far joined.
    pub(crate) last: usize,
    /// The height of the company so far, with its separators, in scaled points.
    pub(crate) height: i128,
    /// The classes of the floats that stay behind, so that no later one of them may join.
    pub(crate) failed: ClassSet,
}

impl Walk {
    /// A walk that has passed the head, which has this place and this height; the floats before it, which have these
    /// classes, stay behind.
    pub(crate) fn after_head(place: usize, height: i64, earlier: ClassSet) -> Walk
        requires { place < 4096 }
        ensures { result ≡ after_head place height earlier }
    {
        Walk {
            seen: place + 1,
            last: place + 1,
            height: i128::from(height),
            failed: earlier,
        }
    }

    /// Whether no later float joins, if none is lower than this: all classes stay behind, or what is left is too low.
    pub(crate) fn is_over(&self, wanted: &Wanted, least: i64) -> bool
        requires { IsWithin 151115727451828646838272 self.now.height }
        ensures { IsTrue result → ((fs all : List PlainFloat) → AreClassesOf self.now.failed fs → HasLeft self.now.failed all → AreOfClasses fs all) ⊎ (wanted.now.height <ℤ (self.now.height +ℤ wanted.now.sep +ℤ least)) }
    {
        if self.failed.is_full() {
            return true;
        }
        i128::from(wanted.height) < higher(self.height, wanted.sep, least)
    }

    /// Decides on the next float, and returns whether it joins the company.
    pub(crate) fn visit(&mut self, wanted: &Wanted, f: &Float) -> bool
        requires room { self.old.seen < 4096 }
        requires height { IsWithin 151115727451828646838272 self.old.height }
        ensures seen { self.new.seen ≡ self.old.seen + 1 }
        ensures joins { (before : List Choice) → IsWalkOf self.old wanted.now.sep before → result ≡ joins wanted.now before f.now }
        ensures stands { (before : List Choice) → IsWalkOf self.old wanted.now.sep before → IsWalkOf self.new wanted.now.sep (before ++ record { float = f.now; chosen = result } ∷ []) }
        ensures left { (all : List PlainFloat) → has_class f.now.class all ≡ true → HasLeft self.old.failed all → HasLeft self.new.failed all }
    {
        if self.joins(wanted, f) {
            self.take(higher(self.height, wanted.sep, f.height));
            true
        } else {
            self.pass(f.class);
            false
        }
    }

    // Whether the next float joins the company.
    fn joins(&self, wanted: &Wanted, f: &Float) -> bool
        requires { IsWithin 151115727451828646838272 self.now.height }
        ensures { (before : List Choice) → IsWalkOf self.now wanted.now.sep before → result ≡ joins wanted.now before f.now }
    {
        !self.failed.has(f.class)
            && suits(wanted, f)
            && higher(self.height, wanted.sep, f.height) <= i128::from(wanted.height)
    }

    // The next float is in the company, which has this height with it.
    fn take(&mut self, height: i128)
        requires { self.old.seen < 4096 }
        ensures { self.new ≡ taken height self.old }
    {
        self.height = height;
        self.seen += 1;
        self.last = self.seen;
    }

    // The next float, of this class, stays behind.
    fn pass(&mut self, class: u8)
        requires { self.old.seen < 4096 }
        ensures walk { self.new ≡ passed self.new.failed self.old }
        ensures failed { (fs : List PlainFloat) (f : PlainFloat) → f.class ≡ class → AreClassesOf self.old.failed fs → AreClassesOf self.new.failed (fs ++ f ∷ []) }
        ensures left { (all : List PlainFloat) → has_class class all ≡ true → HasLeft self.old.failed all → HasLeft self.new.failed all }
    {
        self.failed.add(class);
        self.seen += 1;
    }
}

// The height with a separator and a float.
fn higher(height: i128, sep: i64, float: i64) -> i128
    requires { IsWithin 151115727451828646838272 height }
    ensures { result ≡ height +ℤ sep +ℤ float }
{
    height + i128::from(sep) + i128::from(float)
}

/// Whether a float may go into the column.
pub(crate) fn suits(wanted: &Wanted, f: &Float) -> bool
    ensures { result ≡ suits wanted.now f.now }
{
    (f.places.p || wanted.clearing) && f.wide == wanted.wide && f.height <= wanted.height
}
