//! What happened and what is told of it, in one list.

ghost use Rattle.std.specs.Prelude.{◌≡◌, ◌≤◌, ◌++◌, length, IfOk, OnOk};
ghost use Rattle.tb_why.specs.ShownTurns.{all_happens, woven_shown, IsPieceShown};

use crate::Showing;
use crate::shown::{show_happening, show_tale};
use std::alloc::AllocError;
use tb_items::Happening;
use tb_told::Piece;

/// Appends what happened, in its order. It fails only if memory runs out.
pub(crate) fn show_happened(
    shown: &mut Vec<Showing>,
    happened: &[Happening],
) -> Result<(), AllocError>
    ensures { OnOk result (shown.new.items ≡ shown.old.items ++ all_happens happened.now) }
{
    for happening in happened {
        show_happening(shown, *happening)?;
    }
    Ok(())
}

/// Appends what is told, with what was sent at its places and the rest of it behind. It fails only if memory runs out.
pub(crate) fn show_sent(
    shown: &mut Vec<Showing>,
    pieces: &[Piece],
    sent: &[Happening],
) -> Result<(), AllocError>
    ensures { OnOk result (shown.new.items ≡ shown.old.items ++ woven_shown pieces.now sent.now) }
{
    let mut next = 0;
    for piece in pieces {
        next = show_piece(shown, piece, sent, next)?;
    }
    show_happened(shown, &sent[next..])
}

// Appends a piece: what it says, or what was sent next. Returns the place of what is sent after it.
fn show_piece(
    shown: &mut Vec<Showing>,
    piece: &Piece,
    sent: &[Happening],
    next: usize,
) -> Result<usize, AllocError>
    requires { next ≤ length sent.now }
    ensures { IfOk result (λ upto. IsPieceShown piece.now sent.now next upto shown.old.items shown.new.items) }
{
    match *piece {
        Piece::Says(tale) => {
            show_tale(shown, tale)?;
            Ok(next)
        }
        Piece::NextSent => show_next(shown, sent, next),
    }
}

// Appends what was sent next, if anything was.
fn show_next(shown: &mut Vec<Showing>, sent: &[Happening], next: usize) -> Result<usize, AllocError>
    requires { next ≤ length sent.now }
    ensures { IfOk result (λ upto. IsPieceShown Piece.NextSent sent.now next upto shown.old.items shown.new.items) }
{
    if next == sent.len() {
        return Ok(next);
    }
    show_happening(shown, sent[next])?;
    Ok(next + 1)
}
