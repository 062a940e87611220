//! Moves of the registers.
ghost use Rattle.std.specs.Prelude.{◌≡◌, ◌≤◌, ℕ, suc, ◌+ℤ◌, length};
ghost use Rattle.tb_dvi.specs.Machine.{set_register, moved, past_rule};
ghost use Rattle.tb_dvi.specs.Lister.{IsWithin, IsBounded};

use crate::command::{Registers, Slot};
use crate::numbers::signed_number;

// A place after a move. Places stay exact: no file is long enough for a sum that does not fit.
fn place_after(place: i64, by: i64) -> i64
    requires room { IsWithin 8388608 place }
    requires small { IsWithin 1 by }
    ensures value { result ≡ place +ℤ by }
    ensures within { (k : ℕ) → IsWithin k place → IsWithin (suc k) result }
{
    place + by
}

// A register after a move with a number of this many bytes: the number, or as it was if there is none.
fn set_register(size: u8, args: &[u8], old: i64) -> i64
    requires few { size ≤ 4 }
    requires enough { size ≤ length args.now }
    requires small { IsWithin 1 old }
    ensures value { result ≡ set_register size args.now old }
    ensures within { IsWithin 1 result }
{
    if size == 0 {
        old
    } else {
        signed_number(&args[..usize::from(size)])
    }
}

/// The registers after a move by the number in the first bytes, or by a register if there are none.
pub(crate) fn moved(slot: Slot, size: u8, args: &[u8], r: Registers) -> Registers
    requires few { size ≤ 4 }
    requires enough { size ≤ length args.now }
    requires room { IsBounded 8388608 r }
    ensures value { result ≡ moved slot size args.now r }
    ensures bounded { (k : ℕ) → IsBounded k r → IsBounded (suc k) result }
{
    match slot {
        Slot::Right => {
            let h = place_after(r.h, signed_number(&args[..usize::from(size)]));
            Registers { h, ..r }
        }
        Slot::W => {
            let w = set_register(size, args, r.w);
            let h = place_after(r.h, w);
            Registers { h, w, ..r }
        }
        Slot::X => {
            let x = set_register(size, args, r.x);
            let h = place_after(r.h, x);
            Registers { h, x, ..r }
        }
        Slot::Down => {
            let v = place_after(r.v, signed_number(&args[..usize::from(size)]));
            Registers { v, ..r }
        }
        Slot::Y => {
            let y = set_register(size, args, r.y);
            let v = place_after(r.v, y);
            Registers { v, y, ..r }
        }
        Slot::Z => {
            let z = set_register(size, args, r.z);
            let v = place_after(r.v, z);
            Registers { v, z, ..r }
        }
    }
}

/// The registers after a rule of this width, which a `set_rule` passes.
pub(crate) fn past_rule(moves: bool, width: i64, r: Registers) -> Registers
    requires small { IsWithin 1 width }
    requires room { IsBounded 8388608 r }
    ensures value { result ≡ past_rule moves width r }
    ensures bounded { (k : ℕ) → IsBounded k r → IsBounded (suc k) result }
{
    if moves {
        let h = place_after(r.h, width);
        Registers { h, ..r }
    } else {
        r
    }
}
