//! Warnings are sent.

ghost use Rattle.std.specs.Prelude.{◌≡◌, OnOk, OnErr};
ghost use Rattle.tb_output.specs.PageChanges.{with_warning};

use crate::Machine;
use std::alloc::AllocError;
use tb_sheet::{Sent, Warn};

impl Machine {
    /// Sends a warning. If there is no memory, all is as before.
    pub(crate) fn warn(&mut self, warning: Warn) -> Result<(), AllocError>
        ensures ok { OnOk result (self.new ≡ with_warning warning self.old) }
        ensures err { OnErr result (self.new ≡ self.old) }
    {
        self.events.push(Sent::Warn(warning))?;
        Ok(())
    }
}
