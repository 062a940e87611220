//! From a text's bytes to the galley of its lines.
ghost use Rattle.std.specs.Prelude.{◌≡◌, IfOk};
ghost use Rattle.tb_lines.specs.declared.LinesRefusal.TheVariants.{Memory};
ghost use Rattle.tb_lines.specs.Galley.{solutions_from, refusal_of, lines_galley, GivesSolutions, GivesGalley};
ghost use Rattle.tb_lines.specs.Accepted.{IsAccepted};

use crate::line_texts::line_text;
use crate::reader::read_lines;
use crate::solution::{Solution, break_par};
use crate::text::Text;
use crate::{LinesFault, LinesRefusal};
use std::alloc::{AllocError, Global};

impl From<LinesFault> for LinesRefusal {
    ghost from_gives = { λ fault e. e ≡ refusal_of fault };

    fn from(fault: LinesFault) -> Self {
        match fault {
            LinesFault::At { line, field, cause } => LinesRefusal::At { line, field, cause },
            LinesFault::Memory => LinesRefusal::Memory,
        }
    }
}

impl From<AllocError> for LinesRefusal {
    ghost from_gives = { λ _ e. e ≡ Memory };

    fn from(_: AllocError) -> Self {
        LinesRefusal::Memory
    }
}

// The least solutions of all paragraphs, in order.
fn solve(alloc: Global, text: &Text) -> Result<Vec<Solution>, LinesRefusal>
    ensures { GivesSolutions result (solutions_from text.now.params 1 text.now.paragraphs) }
{
    let mut solutions = Vec::new(alloc);
    for n in 0..text.paragraphs() {
        let Some(solution) = break_par(alloc, text, n)? else {
            return Err(LinesRefusal::NoBreaks { paragraph: n + 1 });
        };
        let Ok(()) = solutions.push(solution) else {
            return Err(LinesRefusal::Memory);
        };
    }
    Ok(solutions)
}

/// Reads a text, breaks its paragraphs into lines of least demerits, and writes the galley of the lines, which the grammar
/// of galleys accepts. `At` and `NoBreaks` come exactly if the text has a fault, or a paragraph that no way breaks; `Memory`
/// comes if memory runs out.
pub fn lines_galley(alloc: Global, bytes: &[u8]) -> Result<Vec<u8>, LinesRefusal>
    ensures galley { GivesGalley result (lines_galley bytes.now) }
    ensures accepted { IfOk result (λ galley. IsAccepted galley.items) }
{
    let text = read_lines(alloc, bytes)?;
    let solutions = solve(alloc, &text)?;
    Ok(line_text(alloc, &text, solutions.as_slice())?)
}
