//! The summary after each tale.
ghost use Rattle.std.specs.Prelude.{◌≡◌, ◌<◌, ◌^◌, OnOk};
ghost use Rattle.tb_story.specs.Summary.{no_start, after_stands, after_output, after_tale};

use crate::Summary;
use crate::reasons::{by_clear, by_width};
use crate::stories::{carry_story, miss_sheet};
use std::alloc::AllocError;
use tb_told::Tale;

impl Summary {
    // Nothing is known of a start yet.
    fn no_start(&mut self)
        ensures { self.new ≡ no_start self.old }
    {
        self.found = None;
        self.alone.clear();
    }

    // The float of a line stands in the text of the column that is put out.
    fn note_standing(&mut self, line: u32) -> Result<(), AllocError>
        requires { self.old.sheets < 2 ^ 63 }
        ensures { OnOk result (self.new ≡ after_stands line self.old) }
    {
        carry_story(&mut self.stories, self.over, line, self.sheets)
    }

    // A column is put out: what waits misses it.
    fn note_output(&mut self) -> Result<(), AllocError>
        requires { self.old.sheets < 2 ^ 63 }
        ensures { OnOk result (self.new ≡ after_output self.old) }
    {
        let missed = miss_sheet(&mut self.stories, self.over, self.sheets);
        self.sheets += 1;
        missed
    }

    /// What a tale changes. Each output of a column adds one sheet, and nothing else adds any. It fails only if memory runs
    /// out; what is kept then is no summary of the tales.
    pub fn note(&mut self, tale: &Tale) -> Result<(), AllocError>
        requires { self.old.sheets < 2 ^ 63 }
        ensures { OnOk result (self.new ≡ after_tale tale.now self.old) }
    {
        match tale {
            Tale::Waits(at, f) => self.begin(f, at.page, Some(by_width(f))),
            Tale::Calls(at, f, _) => {
                self.no_start();
                self.begin(f, at.page, None)
            }
            Tale::Decides(f, told) => {
                self.note_told(f, told);
                Ok(())
            }
            Tale::Begins(_, wanted) => {
                self.note_start(wanted.clearing);
                Ok(())
            }
            Tale::InColumn(told) => self.note_column(told),
            Tale::Back(f, _) => {
                self.keep(f, &by_clear(f));
                Ok(())
            }
            Tale::Beside(_, _, _, _, _) => Ok(()),
            Tale::Stands(line) => self.note_standing(*line),
            Tale::PutOut => self.note_output(),
        }
    }
}
