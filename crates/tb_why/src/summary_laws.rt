//! Laws of the summary of what is shown: each function is a theorem, stated by its contract, and does nothing.

ghost use Rattle.std.specs.Prelude.{◌≡◌, List};
ghost use Rattle.tb_story.specs.Summary.{no_stories};
ghost use Rattle.tb_why.specs.WhyRun.{Shown};
ghost use Rattle.tb_why.specs.Summary.{summed};
ghost use Rattle.tb_why.specs.SummaryLaws.{AreLandedAsShipped, AreTimed, IsOrderly, sheets_at_calls, sheets_of, OfReasons, IsToldOfFault};

/// Whatever is shown: if the summary says that a float landed on a page, at a place, that page was shipped with the float's
/// box, at this place.
pub fn landed_where_shipped()
    ensures { (xs : List Shown) → AreLandedAsShipped xs (summed xs no_stories).stories }
{}

/// The sum of a story's times is the number of sheets since its float was called, if what is shown is in order: up to now
/// while the float waits, and up to where it was placed else. And the summary counts each sheet that is put out.
pub fn times_are_sheets()
    ensures sheets { (xs : List Shown) → (summed xs no_stories).sheets ≡ sheets_of 0 xs }
    ensures times { (xs : List Shown) → IsOrderly xs no_stories → AreTimed (summed xs no_stories).sheets (sheets_at_calls 0 xs) (summed xs no_stories).stories }
{}

/// Chains of classes end at the float that is itself at fault: each reason of the summary was told of its root. Either it has
/// another cause than the test of classes, and was told of the root itself; or the root was in the way of a float of its class
/// and had no reason then, or was kept by the test of classes with no float in the way that is followed.
pub fn reasons_are_of_the_float_at_fault()
    ensures { (xs : List Shown) → OfReasons (λ k. IsToldOfFault xs no_stories k) (summed xs no_stories) }
{}
