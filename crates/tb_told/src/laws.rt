//! Laws of what is told: each function is a theorem, stated by its contract, and does nothing.

ghost use Rattle.std.specs.Prelude.{◌≡◌, List, ℤ};
ghost use Rattle.tb_node.specs.declared.Float.{Float as PlainFloat};
ghost use Rattle.tb_param.specs.declared.Params.{Params as PlainParams};
ghost use Rattle.tb_float.specs.declared.Suppress.{Suppress};
ghost use Rattle.tb_float.specs.Lists.{FloatLists};
ghost use Rattle.tb_area.specs.Area.{current_place, next_place, double_place};
ghost use Rattle.tb_fpage.specs.declared.Wanted.{Wanted};
ghost use Rattle.tb_fpage.specs.Company.{company};
ghost use Rattle.tb_told.specs.Tested.{Tested, first_failed, all_hold, is_yes};
ghost use Rattle.tb_told.specs.AreaTold.{told_call, told_next, told_wide, place_told};
ghost use Rattle.tb_told.specs.ColumnTold.{told_column, floats_told, taken_floats};

/// A verdict is `yes` exactly if all tests hold.
pub fn yes_says_that_all_hold()
    ensures { (ts : List Tested) → is_yes (first_failed ts) ≡ all_hold ts }
{}

/// What is told of a decision says where the float goes: at a call, at the start of a column, and after a pair of columns.
pub fn what_is_told_is_the_decision()
    ensures call { (p : PlainParams) (l : FloatLists) (s : Suppress) (page_height : ℤ) (f : PlainFloat) → place_told (told_call p l s page_height f) ≡ current_place p l s page_height f }
    ensures next { (p : PlainParams) (l : FloatLists) (s : Suppress) (before : List PlainFloat) (f : PlainFloat) → place_told (told_next p l s before f) ≡ next_place p l s before f }
    ensures wide { (p : PlainParams) (l : FloatLists) (s : Suppress) (before : List PlainFloat) (f : PlainFloat) → place_told (told_wide p l s before f) ≡ double_place p l s before f }
{}

/// The floats that are told to be taken are those of the company that makes the column.
pub fn the_company_is_told()
    ensures { (z : Wanted) (fs : List PlainFloat) → floats_told (told_column z fs) ≡ taken_floats (company z fs) }
{}
