//! The commands of a DVI file (TeX: The Program §583 to §586).
ghost use Rattle.std.specs.Prelude.{◌≡◌, ◌≤◌, length, IfNone};
ghost use Rattle.tb_dvi.specs.Machine.{op_of, is_due, op_size, refusal};
ghost use Rattle.tb_dvi.specs.Lister.{IsShort};

use crate::DviCause;
use crate::numbers::special_size;

/// Which register a move sets, and along which axis it goes.
#[derive(Clone, Copy)]
pub(crate) enum Slot {
    /// To the right, no register.
    Right,
    W,
    X,
    /// Down, no register.
    Down,
    Y,
    Z,
}

/// A command by its first byte.
#[derive(Clone, Copy)]
pub(crate) enum Op {
    /// A character or a font.
    Font,
    /// No command, or one that may only come at the start.
    Unknown,
    /// A rule; the place moves past it or stays.
    Rule { moves: bool },
    /// It does nothing (nop).
    Idle,
    /// A page begins (bop).
    Opens,
    /// The page ends (eop).
    Closes,
    /// The registers are pushed on the stack.
    Pushes,
    /// The registers are popped from the stack.
    Pops,
    /// A move by the number in this many bytes, or by the register if there are none.
    Moves { slot: Slot, size: u8 },
    /// A special whose length has this many bytes.
    Special { size: u8 },
    /// The postamble.
    Post,
    /// The end of the file.
    PostPost,
}

/// The registers of an open page. They are exact.
#[derive(Clone, Copy)]
pub(crate) struct Registers {
    pub h: i64,
    pub v: i64,
    pub w: i64,
    pub x: i64,
    pub y: i64,
    pub z: i64,
}

/// Where in a file the lister is.
#[derive(Clone, Copy)]
pub(crate) enum Mode {
    /// No page is open.
    Between,
    OnPage(Registers),
    /// Directly after a postamble, which begins at this place.
    AfterPost(u64),
}

/// The command that a byte begins.
pub(crate) fn op_of(byte: u8) -> Op
    ensures value { result ≡ op_of byte }
    ensures short { IsShort result }
{
    match byte {
        0..=131 => Op::Font,
        132 => Op::Rule { moves: true },
        133..=136 => Op::Font,
        137 => Op::Rule { moves: false },
        138 => Op::Idle,
        139 => Op::Opens,
        140 => Op::Closes,
        141 => Op::Pushes,
        142 => Op::Pops,
        143..=146 => Op::Moves {
            slot: Slot::Right,
            size: byte - 142,
        },
        147..=151 => Op::Moves {
            slot: Slot::W,
            size: byte - 147,
        },
        152..=156 => Op::Moves {
            slot: Slot::X,
            size: byte - 152,
        },
        157..=160 => Op::Moves {
            slot: Slot::Down,
            size: byte - 156,
        },
        161..=165 => Op::Moves {
            slot: Slot::Y,
            size: byte - 161,
        },
        166..=170 => Op::Moves {
            slot: Slot::Z,
            size: byte - 166,
        },
        171..=238 => Op::Font,
        239..=242 => Op::Special { size: byte - 238 },
        243..=246 => Op::Font,
        248 => Op::Post,
        249 => Op::PostPost,
        _ => Op::Unknown,
    }
}

// Whether a command may come at this point of the file.
fn is_due(op: &Op, mode: &Mode) -> bool
    ensures { result ≡ is_due op.now mode.now }
{
    match mode {
        Mode::Between => matches!(op, Op::Idle | Op::Opens | Op::Post),
        Mode::OnPage(_) => !matches!(op, Op::Unknown | Op::Opens | Op::Post | Op::PostPost),
        Mode::AfterPost(_) => matches!(op, Op::Idle | Op::Opens | Op::Post | Op::PostPost),
    }
}

/// How many bytes a command has after its first, if these follow.
pub(crate) fn op_size(op: &Op, args: &[u8]) -> usize
    requires { IsShort op.now }
    ensures { result ≡ op_size op.now args.now }
{
    match op {
        Op::Rule { .. } => 8,
        Op::Opens => 44,
        Op::Moves { size, .. } => usize::from(*size),
        Op::Special { size } => special_size(usize::from(*size), args),
        Op::Post => 28,
        Op::PostPost => 5,
        Op::Font => 0,
        Op::Unknown => 0,
        Op::Idle => 0,
        Op::Closes => 0,
        Op::Pushes => 0,
        Op::Pops => 0,
    }
}

/// Why a command is refused before it does anything: the first cause in their order.
pub(crate) fn refusal(op: &Op, mode: &Mode, args: &[u8]) -> Option<DviCause>
    requires { IsShort op.now }
    ensures value { result ≡ refusal op.now mode.now args.now }
    ensures whole { IfNone result (op_size op.now args.now ≤ length args.now) }
{
    if matches!(op, Op::Font) {
        return Some(DviCause::Font);
    }
    if !is_due(op, mode) {
        return Some(DviCause::BadOp);
    }
    if args.len() < op_size(op, args) {
        return Some(DviCause::Truncated);
    }
    None
}
