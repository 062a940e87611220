//! The listing of a DVI file that was read.
ghost use Rattle.std.specs.Prelude.{◌≡◌, IfErr, IfOk};
ghost use Rattle.tb_top.specs.Answer.{listing_reply, text_reply};
ghost use Rattle.tb_top.specs.DviRefusal.{IsNoListing};

use crate::dvi_refusal::DviRefusal;
use crate::refusal::Refusal;
use std::alloc::Global;
use tb_dvi::{ListFault, list};
use tb_galley::{Cause, Fault, GalleyFault};

// More bytes than this are not listed.
const INPUT_LIMIT: usize = tb_galley::INPUT_LIMIT as usize;

/// What the pages of a DVI file show, line by line. It is refused if the file is longer than 8388608 bytes, at the first
/// command that fails, or if there is no memory.
pub(crate) fn listing_of(alloc: Global, input: &[u8]) -> Result<Vec<u8>, Refusal>
    ensures text { IfOk result (λ text. listing_reply input.now ≡ text_reply text.items) }
    ensures refused { IfErr result (IsNoListing (listing_reply input.now)) }
{
    if input.len() > INPUT_LIMIT {
        return Err(Refusal::Galley(GalleyFault::At(Fault {
            line: 0,
            field: 0,
            cause: Cause::InputSize,
        })));
    }
    match list(alloc, input) {
        Ok(text) => Ok(text),
        Err(ListFault::At { byte, cause }) => Err(Refusal::Dvi(DviRefusal::At { byte, cause })),
        Err(ListFault::Memory) => Err(Refusal::Memory),
    }
}
