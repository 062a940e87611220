//! The texts of faults, and the kinds of their causes.
ghost use Rattle.std.specs.Prelude.{◌≡◌};
ghost use Rattle.tb_text.specs.Fronts.{PutsAfter};
ghost use Rattle.tb_galley.specs.FaultText.{cause_name, is_range_cause, fault_text};

use crate::{Cause, Fault};
use std::alloc::AllocError;
use tb_text::{put, put_counted};

/// The name of the cause, as the line on standard error gives it: `line L field F: CAUSE`.
pub fn cause_text(cause: Cause) -> &'static [u8]
    ensures { result.now ≡ cause_name cause }
{
    match cause {
        Cause::InputSize => b"InputSize",
        Cause::LineLength => b"LineLength",
        Cause::NotAscii => b"NotAscii",
        Cause::NoHeader => b"NoHeader",
        Cause::AfterEnd => b"AfterEnd",
        Cause::UnknownWord => b"UnknownWord",
        Cause::SetAfterItem => b"SetAfterItem",
        Cause::NestedFoot => b"NestedFoot",
        Cause::NotInFoot => b"NotInFoot",
        Cause::StrayEndfoot => b"StrayEndfoot",
        Cause::StrayHead => b"StrayHead",
        Cause::UnclosedFoot => b"UnclosedFoot",
        Cause::NestedPar => b"NestedPar",
        Cause::NotInPar => b"NotInPar",
        Cause::StrayEndpar => b"StrayEndpar",
        Cause::UnclosedPar => b"UnclosedPar",
        Cause::Items => b"Items",
        Cause::MissingField => b"MissingField",
        Cause::ExtraField => b"ExtraField",
        Cause::UnknownParameter => b"UnknownParameter",
        Cause::WrongForm => b"WrongForm",
        Cause::BadNumber => b"BadNumber",
        Cause::BadUnit => b"BadUnit",
        Cause::BadName => b"BadName",
        Cause::BadPlace => b"BadPlace",
        Cause::Dimension => b"Dimension",
        Cause::Penalty => b"Penalty",
        Cause::Class => b"Class",
        Cause::Parameter => b"Parameter",
        Cause::NoEnd => b"NoEnd",
    }
}

/// Whether the fault is one of range: something too long, too many or out of its range. Every other fault is one of
/// syntax.
pub fn is_range_cause(cause: Cause) -> bool
    ensures { result ≡ is_range_cause cause }
{
    matches!(
        cause,
        Cause::InputSize
            | Cause::LineLength
            | Cause::Items
            | Cause::Dimension
            | Cause::Penalty
            | Cause::Class
            | Cause::Parameter
    )
}

/// Appends where and why an input is at fault: `line L field F: CAUSE`. If memory runs out, what stood in `out` is still
/// there, and a front of the text may follow.
pub fn put_fault(out: &mut Vec<u8>, fault: &Fault) -> Result<(), AllocError>
    ensures { PutsAfter result out.old.items (fault_text fault.now) out.new.items }
{
    put_counted(out, b"line ", u64::from(fault.line))?;
    put_counted(out, b" field ", u64::from(fault.field))?;
    put(out, b": ")?;
    put(out, cause_text(fault.cause))
}
