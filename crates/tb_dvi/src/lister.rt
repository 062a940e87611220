//! The lister: what the pages of a DVI file hold.
ghost use Rattle.std.specs.Prelude.{◌≡◌, ◌≤◌, ◌==◌, ◌+◌, suc, List, length, take, drop, Ok, IfOk, IfErr, OnOk};
ghost use Rattle.std.specs.List.{list_all};
ghost use Rattle.tb_dvi.specs.Machine.{unsigned_number, pre_length, is_filling, is_end, op_of, op_size, op_step, page_step, between_step, end_step, whole_step, Item, listed};
ghost use Rattle.tb_dvi.specs.Listing.{listing};
ghost use Rattle.tb_dvi.specs.Lister.{IsInBounds, IsBounded, IsShort, state_of, TakesOr, EndsOr, Steps};
ghost use Rattle.tb_dvi.specs.Reading.{HasBegun, IsReading};
ghost use Rattle.tb_dvi.specs.Refusal.{Misses};

use crate::DviCause;
use crate::command::{Mode, Op, Registers, op_of, op_size, refusal};
use crate::listing::{put_end, put_page, put_rule, put_special};
use crate::moves::{moved, past_rule};
use crate::numbers::{signed_number, unsigned_number};
use crate::stack::Stack;
use std::alloc::{AllocError, Global};
use tb_text::put;

/// Why a file is not listed.
#[derive(Clone, Copy)]
pub enum ListFault {
    /// The first command that fails: its first byte, counted from 0, and the cause.
    At { byte: u64, cause: DviCause },
    /// There was no memory.
    Memory,
}

impl From<AllocError> for ListFault {
    ghost use Rattle.std.specs.Prelude.{◌≡◌};
    ghost use Rattle.tb_dvi.specs.declared.lister.ListFault.TheVariants.{Memory};

    ghost from_gives = { λ _ e. e ≡ Memory };

    fn from(_: AllocError) -> Self {
        ListFault::Memory
    }
}

/// Where the command after one begins, if the file goes on.
enum Next {
    At(usize),
    End,
}

/// The lister between two commands.
#[derive(Drop)]
struct Lister {
    /// The listing so far.
    out: Vec<u8>,
    stack: Stack,
    mode: Mode,
    /// How many pages were opened.
    pages: u64,
}

const NO_REGISTERS: Registers = Registers {
    h: 0,
    v: 0,
    w: 0,
    x: 0,
    y: 0,
    z: 0,
};

fn failed(place: usize, cause: DviCause) -> ListFault
    ensures { result ≡ ListFault.At place cause }
{
    ListFault::At {
        byte: place as u64,
        cause,
    }
}

impl Lister {
    // A command on a page with these registers.
    fn page_step(
        &mut self,
        place: usize,
        op: Op,
        args: &[u8],
        r: Registers,
    ) -> Result<(), ListFault>
        requires short { IsShort op }
        requires whole { op_size op args.now ≤ length args.now }
        requires place { place ≤ 8388608 }
        requires bounds { IsInBounds place self.old }
        requires page { IsBounded place r }
        ensures step { TakesOr result place (op_size op args.now) self.old self.new (page_step op args.now r (state_of self.old)) }
        ensures bounds { OnOk result (IsInBounds (suc place) self.new) }
    {
        match op {
            Op::Rule { moves } => {
                let width = signed_number(&args[4..8]);
                put_rule(&mut self.out, r.h, r.v, signed_number(&args[..4]), width)?;
                self.mode = Mode::OnPage(past_rule(moves, width, r));
                Ok(())
            }
            Op::Idle => Ok(()),
            Op::Closes => {
                if !self.stack.is_empty() {
                    return Err(failed(place, DviCause::Unbalanced));
                }
                self.mode = Mode::Between;
                Ok(())
            }
            Op::Pushes => {
                self.stack.push(r)?;
                Ok(())
            }
            Op::Pops => {
                let Some(top) = self.stack.pop() else {
                    return Err(failed(place, DviCause::Unbalanced));
                };
                self.mode = Mode::OnPage(top);
                Ok(())
            }
            Op::Moves { slot, size } => {
                self.mode = Mode::OnPage(moved(slot, size, args, r));
                Ok(())
            }
            Op::Special { size } => {
                put_special(&mut self.out, r.h, r.v, special_text(size, args))?;
                Ok(())
            }
            Op::Font => Err(failed(place, DviCause::BadOp)),
            Op::Unknown => Err(failed(place, DviCause::BadOp)),
            Op::Opens => Err(failed(place, DviCause::BadOp)),
            Op::Post => Err(failed(place, DviCause::BadOp)),
            Op::PostPost => Err(failed(place, DviCause::BadOp)),
        }
    }

    // A command between pages.
    fn between_step(&mut self, place: usize, op: Op, args: &[u8]) -> Result<(), ListFault>
        requires whole { op_size op args.now ≤ length args.now }
        requires place { place ≤ 8388608 }
        requires bounds { IsInBounds place self.old }
        ensures step { TakesOr result place (op_size op args.now) self.old self.new (between_step place op args.now (state_of self.old)) }
        ensures bounds { OnOk result (IsInBounds (suc place) self.new) }
    {
        match op {
            Op::Idle => Ok(()),
            Op::Opens => {
                put_page(&mut self.out, signed_number(&args[..4]))?;
                self.mode = Mode::OnPage(NO_REGISTERS);
                self.stack.clear();
                self.pages += 1;
                Ok(())
            }
            Op::Post => {
                self.mode = Mode::AfterPost(place as u64);
                Ok(())
            }
            _ => Err(failed(place, DviCause::BadOp)),
        }
    }

    // A command after a postamble that begins at this place: only the end of the file may come.
    fn end_step(&mut self, post: u64, place: usize, op: Op, args: &[u8]) -> Result<(), ListFault>
        requires whole { op_size op args.now ≤ length args.now }
        requires place { place + length args.now ≤ 8388608 }
        ensures { EndsOr result place self.old self.new (end_step post place op args.now) }
    {
        if !matches!(op, Op::PostPost) || !is_end(post, place + 1 + args.len(), args) {
            return Err(failed(place, DviCause::BadPost));
        }
        put_end(&mut self.out, self.pages)?;
        Ok(())
    }

    // A command that is whole and may come at this point of the file.
    fn whole_step(&mut self, place: usize, op: Op, args: &[u8]) -> Result<Next, ListFault>
        requires short { IsShort op }
        requires whole { op_size op args.now ≤ length args.now }
        requires place { place + 1 + length args.now ≤ 8388608 }
        requires bounds { IsInBounds place self.old }
        ensures { Steps result place (length args.now) self.old self.new (whole_step self.old.mode place op args.now (state_of self.old)) }
    {
        let next = place + 1 + op_size(&op, args);
        match self.mode {
            Mode::Between => {
                self.between_step(place, op, args)?;
                Ok(Next::At(next))
            }
            Mode::OnPage(r) => {
                self.page_step(place, op, args, r)?;
                Ok(Next::At(next))
            }
            Mode::AfterPost(post) => {
                self.end_step(post, place, op, args)?;
                Ok(Next::End)
            }
        }
    }

    // The command at a place, whose first byte this is, and the bytes after it.
    fn step(&mut self, place: usize, byte: u8, args: &[u8]) -> Result<Next, ListFault>
        requires place { place + 1 + length args.now ≤ 8388608 }
        requires bounds { IsInBounds place self.old }
        ensures { Steps result place (length args.now) self.old self.new (op_step place (op_of byte) args.now (state_of self.old)) }
    {
        let op = op_of(byte);
        if let Some(cause) = refusal(&op, &self.mode, args) {
            return Err(failed(place, cause));
        }
        self.whole_step(place, op, args)
    }

    // Takes the commands from a place on, up to the end of the file.
    fn read_on(&mut self, start: usize, bytes: &[u8]) -> Result<(), ListFault>
        requires length { length bytes.now ≤ 8388608 }
        requires reading { IsReading bytes.now start self.old }
        ensures text { IfOk result (λ _. (items : List Item) × (listed bytes.now ≡ Ok items) × (self.new.out.items ≡ listing items)) }
        ensures fault { IfErr result (λ e. Misses e (listed bytes.now)) }
    {
        let mut place = start;
        while place < bytes.len() {
            match self.step(place, bytes[place], &bytes[place + 1..])? {
                Next::At(next) => place = next,
                Next::End => return Ok(()),
            }
        }
        Err(failed(place, DviCause::Truncated))
    }
}

// The lister before the first command.
fn begun(alloc: Global) -> Result<Lister, AllocError>
    ensures { IfOk result HasBegun }
{
    let mut out = Vec::new(alloc);
    put(&mut out, b"dvi 1\n")?;
    Ok(Lister {
        out,
        stack: Stack::new(alloc),
        mode: Mode::Between,
        pages: 0,
    })
}

// The text of a special whose length has this many bytes.
fn special_text(size: u8, args: &[u8]) -> &[u8]
    requires few { size ≤ 4 }
    requires whole { size + unsigned_number (take size args.now) ≤ length args.now }
    ensures { result.now ≡ take (unsigned_number (take size args.now)) (drop size args.now) }
{
    let (front, back) = args.split_at(usize::from(size));
    &back[..unsigned_number(front) as usize]
}

// Whether each byte is 223.
fn are_filled(bytes: &[u8]) -> bool
    ensures { result ≡ list_all (λ b. b == 223) bytes.now }
{
    bytes.iter().all(|b| *b == 223)
}

// Whether these bytes fill a file up: at least four bytes 223.
fn is_filling(bytes: &[u8]) -> bool
    ensures { result ≡ is_filling bytes.now }
{
    bytes.len() > 3 && are_filled(bytes)
}

// Whether the bytes after a 249 end a file of this length, whose postamble begins at this place.
fn is_end(post: u64, total: usize, args: &[u8]) -> bool
    requires { 5 ≤ length args.now }
    ensures { result ≡ is_end post total args.now }
{
    if unsigned_number(&args[..4]) != post || args[4] != 2 {
        return false;
    }
    is_filling(&args[5..]) && total % 4 == 0
}

// The length of the preamble of a file.
fn pre_length(bytes: &[u8]) -> Result<usize, DviCause>
    ensures value { result ≡ pre_length bytes.now }
    ensures within { IfOk result (λ n. n ≤ length bytes.now) }
{
    if bytes.is_empty() {
        return Err(DviCause::Truncated);
    }
    if bytes[0] != 247 {
        return Err(DviCause::BadPre);
    }
    if bytes.len() < 2 {
        return Err(DviCause::Truncated);
    }
    if bytes[1] != 2 {
        return Err(DviCause::BadPre);
    }
    if bytes.len() < 15 {
        return Err(DviCause::Truncated);
    }
    let length = 15 + usize::from(bytes[14]);
    if bytes.len() < length {
        return Err(DviCause::Truncated);
    }
    Ok(length)
}

/// The listing of a DVI file: a line for each page, special and rule, with exact places in scaled points (DVItype of
/// Knuth and Fuchs, but for characters and fonts). It fails at the first command that fails, or if there is no memory.
pub fn list(alloc: Global, bytes: &[u8]) -> Result<Vec<u8>, ListFault>
    requires { length bytes.now ≤ 8388608 }
    ensures text { IfOk result (λ text. (items : List Item) × (listed bytes.now ≡ Ok items) × (text.items ≡ listing items)) }
    ensures fault { IfErr result (λ e. Misses e (listed bytes.now)) }
{
    let start = match pre_length(bytes) {
        Ok(length) => length,
        Err(cause) => return Err(failed(0, cause)),
    };
    let mut lister = begun(alloc)?;
    lister.read_on(start, bytes)?;
    Ok(lister.out)
}
