//! What the file of some pages lists.
ghost use Rattle.std.specs.Prelude.{ℤ, List};
ghost use Rattle.tb_dvi.specs.File.{Page};
ghost use Rattle.tb_dvi.specs.Listing.{ListsItsPages};

/// The lister's machine on the file of pages in range, of at most 8388608 bytes, lists exactly their placements. The law
/// is about the definitions; there is nothing to run.
pub fn lists_its_pages()
    ensures { (textheight : ℤ) (ps : List Page) → ListsItsPages textheight ps }
{}
