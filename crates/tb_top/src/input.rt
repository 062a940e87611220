//! Reads the input, piece by piece.
ghost use Rattle.std.specs.Prelude.{◌≡◌, ◌++◌, ℕ, List, [], IfOk, OnOk, IsErrOf};
ghost use Rattle.tb_io.specs.Faults.{Rose};
ghost use Rattle.tb_galley.specs.Pieces.{fed};
ghost use Rattle.tb_top.specs.Outcome.{Gives, StopsReading};
ghost use Rattle.tb_top.specs.Input.{HasRead};
ghost use Rattle.tb_top.specs.declared.input.InputFault.TheVariants.{Failed, Memory};

use std::alloc::{AllocError, Global};
use tb_galley::{INPUT_LIMIT, Reader};
use tb_io::Source;

/// Why the input was not read.
#[derive(Clone, Copy, Debug, PartialEq, Eq)]
pub enum InputFault {
    /// The source failed.
    Failed,
    /// There was no memory for what was read.
    Memory,
}

impl From<AllocError> for InputFault {
    ghost from_gives = { λ _ e. e ≡ Memory };

    fn from(_: AllocError) -> Self {
        InputFault::Memory
    }
}

impl From<tb_io::Failed> for InputFault {
    ghost from_gives = { λ _ e. e ≡ Failed };

    fn from(_: tb_io::Failed) -> Self {
        InputFault::Failed
    }
}

/// What joins the pieces of an input.
pub trait Input {
    /// It was given these bytes.
    ghost holds: { Self → List ℕ → Type 0 };

    /// Takes one more piece.
    fn append(&mut self, piece: &[u8]) -> Result<(), AllocError>
        ensures { (bytes : List ℕ) → holds self.old bytes → OnOk result (holds self.new (bytes ++ piece.now)) };
}

// A reader of galleys keeps what the lines gave.
impl Input for Reader {
    ghost holds = { λ reader bytes. reader ≡ fed bytes };

    fn append(&mut self, piece: &[u8]) -> Result<(), AllocError> {
        self.feed(piece)
    }
}

// A vector keeps all bytes.
impl Input for Vec<u8> {
    ghost holds = { λ text bytes. text.items ≡ bytes };

    fn append(&mut self, piece: &[u8]) -> Result<(), AllocError> {
        self.extend_from_slice(piece)
    }
}

const PIECE: usize = 4096;

/// Reads pieces of at most 4096 bytes into an empty input, to the end of the source or until more than 8388608 bytes were
/// taken, at most 4096 bytes more, whatever it returns. It fails if the source fails or memory runs out, and what `input`
/// holds is open then.
pub(crate) fn read_input<S: Source, I: Input>(
    source: &mut S,
    input: &mut I,
) -> Result<(), InputFault>
    requires { I.holds input.old [] }
    ensures read { OnOk result (HasRead I.holds (S.left source.old) (S.left source.new) input.new) }
    ensures failed { IsErrOf result InputFault.Failed → Rose (S.faults source.old) (S.faults source.new) }
    ensures stops { StopsReading (S.left source.old) (S.left source.new) }
{
    let mut taken = 0;
    let mut buf = [0u8; PIECE];
    'reading: while taken <= INPUT_LIMIT {
        let count = source.read(&mut buf)?;
        if count == 0 {
            return Ok(());
        }
        input.append(&buf[..count])?;
        taken += count as u64;
    }
    Ok(())
}

/// Reads the whole input as one text.
pub(crate) fn read_text<S: Source>(alloc: Global, source: &mut S) -> Result<Vec<u8>, InputFault>
    ensures read { IfOk result (λ text. Gives (S.left source.old) (S.left source.new) text.items) }
    ensures failed { IsErrOf result InputFault.Failed → Rose (S.faults source.old) (S.faults source.new) }
    ensures stops { StopsReading (S.left source.old) (S.left source.new) }
{
    let mut text = Vec::new(alloc);
    read_input(source, &mut text)?;
    Ok(text)
}
