//! Worked rows of the definitions.
ghost use Rattle.tb_words.specs.Rows.{WordsRows};

/// The definition against which [`read_words`](crate::read_words) is proved gives the worked rows.
pub fn check_words()
    ensures { WordsRows }
{}
