//! A line whose end was not read yet.
ghost use Rattle.std.specs.Prelude.{◌≡◌, ◌≤◌, ◌==◌, ◌++◌, [], length};
ghost use Rattle.tb_galley.specs.Unfinished.{kept_line};

use std::marker::Model;

// A line of this many bytes is too long, whether a carriage return at its end counts or not.
const KEPT_LENGTH: usize = 257;

/// A line whose end was not read yet. No more of it is kept than shows that it is too long. In contracts it is the
/// list of the bytes that are kept.
#[derive(Drop)]
pub struct Unfinished {
    bytes: [u8; KEPT_LENGTH],
    length: usize,
}

impl Model for Unfinished {
    ghost use Rattle.std.specs.Prelude.{ℕ, ◌≤◌, List, take};

    ghost Value = { List ℕ };

    ghost view = { λ a. take a.length a.bytes };

    ghost invariant = { λ a. a.length ≤ 257 };
}

impl Unfinished {
    /// A line of which nothing was read.
    pub fn new() -> Unfinished
        ensures { result ≡ [] }
    {
        Unfinished {
            bytes: [0; KEPT_LENGTH],
            length: 0,
        }
    }

    /// Whether nothing was read of it.
    pub fn is_empty(&self) -> bool
        ensures { result ≡ (length self.now == 0) }
    {
        self.length == 0
    }

    /// What is kept of it.
    pub fn as_slice(&self) -> &[u8]
        ensures { result.now ≡ self.now }
    {
        &self.bytes[..self.length]
    }

    /// Adds bytes of the same line at its end. No more than may be kept was kept before.
    pub fn append(&mut self, piece: &[u8])
        ensures kept { self.new ≡ kept_line (self.old ++ piece.now) }
        ensures before { kept_line self.old ≡ self.old }
    {
        let count = piece.len().min(KEPT_LENGTH - self.length);
        self.bytes[self.length..self.length + count].copy_from_slice(&piece[..count]);
        self.length += count;
    }

    /// Begins the next line.
    pub fn clear(&mut self)
        ensures { self.new ≡ [] }
    {
        self.length = 0;
    }
}
