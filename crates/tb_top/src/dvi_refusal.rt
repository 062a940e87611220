//! Why there is no DVI file, or no listing of one.
ghost use Rattle.std.specs.Prelude.{◌≡◌, ◌++◌, OnOk};
ghost use Rattle.tb_top.specs.DviRefusal.{dvi_status, dvi_text};

use crate::Status;
use std::alloc::AllocError;
use tb_dvi::{DviCause, put_cause, put_far};

/// The refusals that only a mode that writes or lists a DVI file has.
#[derive(Clone, Copy)]
pub enum DviRefusal {
    /// This page is out of the range of DVI.
    TooFar { page: u64 },
    /// The first command that fails: its first byte, counted from 0, and the cause.
    At { byte: u64, cause: DviCause },
}

/// The status of the run.
pub(crate) fn dvi_status(refusal: DviRefusal) -> Status
    ensures { result ≡ dvi_status refusal }
{
    match refusal {
        DviRefusal::TooFar { page: _ } => Status::TooFar,
        DviRefusal::At { byte: _, cause: _ } => Status::Dvi,
    }
}

/// Appends what the line on `err` shows of it.
pub(crate) fn put_dvi(line: &mut Vec<u8>, refusal: DviRefusal) -> Result<(), AllocError>
    ensures { OnOk result (line.new.items ≡ line.old.items ++ dvi_text refusal) }
{
    match refusal {
        DviRefusal::TooFar { page } => put_far(line, page),
        DviRefusal::At { byte, cause } => put_cause(line, byte, cause),
    }
}
