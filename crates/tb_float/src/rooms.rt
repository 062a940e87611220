//! The rooms that the floats in the lists leave, and the counts that are left.
ghost use Rattle.std.specs.Prelude.{◌≡◌, ◌≤◌, ◌*ℤ◌, ◌-ℤ◌, ℤ, List, length, pos, false};
ghost use Rattle.tb_node.specs.declared.Float.{Float};
ghost use Rattle.tb_float.specs.Lists.{floats_of, holds_notes};
ghost use Rattle.tb_float.specs.Ranges.{IsDimension, IsShare, IsCount, IsWithin, IsRoom, AreFloatParams};
ghost use Rattle.tb_float.specs.Rooms.{total_height, floats_room, text_float_room, column_height_of, column_room_of, room_of, IsArea, count_left_of, count_after, plain_count_after, area_taken};
ghost use Rattle.tb_float.specs.Heights.{IsSumOf};
ghost use Rattle.tb_scaled.specs.Scaled.{fraction_of};

use crate::heights::{difference_of, sum_of};
use crate::{Limit, Part, Pool, Suppress};
use tb_param::Params;
use tb_scaled::frac;

impl Pool {
    /// The height of a column, in scaled points: that of the text less what the double floats take (after ltoutput.dtx,
    /// `\@colht`).
    pub fn column_height(&self, p: &Params) -> i64
        requires { AreFloatParams p.now }
        ensures value { result ≡ column_height_of p.now self.now.lists }
        ensures within { IsWithin 35184372088832 result }
    {
        difference_of(
            p.textheight,
            self.area_taken(Part::Double, p.dbltextfloatsep.width, p.dblfloatsep.width),
        )
    }

    /// The room of a column, in scaled points: its height less what the floats at its top and at its bottom take (after
    /// ltoutput.dtx, `\@colroom`).
    pub fn column_room(&self, p: &Params) -> i64
        requires { AreFloatParams p.now }
        ensures value { result ≡ column_room_of p.now self.now.lists }
        ensures room { IsRoom result }
    {
        let top = self.area_taken(Part::Top, p.textfloatsep.width, p.floatsep.width);
        let bottom = self.area_taken(Part::Bottom, p.textfloatsep.width, p.floatsep.width);
        difference_of(difference_of(self.column_height(p), top), bottom)
    }

    /// The room of an area, in scaled points: its share of the column, or of the whole height for double floats, less
    /// what the floats in it take (after ltoutput.dtx, `\@toproom`, `\@botroom` and `\@dbltoproom`).
    pub fn room(&self, p: &Params, part: Part) -> i64
        requires params { AreFloatParams p.now }
        requires area { IsArea part }
        ensures value { result ≡ room_of part p.now self.now.lists }
        ensures room { IsRoom result }
    {
        match part {
            Part::Top => self.room_left(p, part, p.topfraction),
            Part::Bottom => self.room_left(p, part, p.bottomfraction),
            Part::Double => difference_of(
                share_of(p.dbltopfraction, p.textheight),
                self.area_taken(part, p.dbltextfloatsep.width, p.dblfloatsep.width),
            ),
            _ => unreachable!(),
        }
    }

    // A share of the column's height less what the floats in an area take.
    fn room_left(&self, p: &Params, part: Part, share: i64) -> i64
        requires params { AreFloatParams p.now }
        requires floats { holds_notes part ≡ false }
        requires share { IsShare share }
        ensures value { result ≡ fraction_of share (column_height_of p.now self.now.lists) -ℤ area_taken p.now (floats_of part self.now.lists) }
        ensures room { IsRoom result }
    {
        difference_of(
            share_of(share, self.column_height(p)),
            self.area_taken(part, p.textfloatsep.width, p.floatsep.width),
        )
    }

    /// What the floats in the text take, in scaled points: each with `intextsep` above and below (after ltoutput.dtx,
    /// `\@textmin`).
    pub fn text_room(&self, p: &Params) -> i64
        requires { AreFloatParams p.now }
        ensures value { result ≡ text_float_room p.now.intextsep.width self.now.lists.here }
        ensures within { IsWithin 17592186044416 result }
    {
        sum_of(
            self.heights.here,
            times(p.intextsep.width, 2 * self.len(Part::Here)),
        )
    }

    // What the floats of a list take with these separators: the first from the text, the others between floats.
    fn area_taken(&self, part: Part, first: i64, between: i64) -> i64
        requires floats { holds_notes part ≡ false }
        requires first { IsDimension first }
        requires between { IsDimension between }
        ensures value { result ≡ floats_room first between (floats_of part self.now.lists) }
        ensures within { IsWithin 17592186044416 result }
    {
        taken(first, between, self.heights.of(part), self.len(part))
    }

    /// How many more floats a limit lets in (after ltoutput.dtx, `\@topnum`, `\@botnum`, `\@colnum` and `\@dbltopnum`). A
    /// float with the mark `!` may come even if none may.
    pub fn count_left(&self, p: &Params, s: &Suppress, l: Limit, bang: bool) -> i64
        requires { AreFloatParams p.now }
        ensures { result ≡ count_left_of p.now self.now.lists s.now l bang }
    {
        match l {
            Limit::Total => {
                let used = self.len(Part::Here) + self.len(Part::Top) + self.len(Part::Bottom);
                count_after(p.totalnumber, used, s.all, bang)
            }
            Limit::Top => count_after(p.topnumber, self.len(Part::Top), s.top, bang),
            Limit::Bottom => count_after(p.bottomnumber, self.len(Part::Bottom), s.bottom, bang),
            Limit::Double => count_after(p.dbltopnumber, self.len(Part::Double), false, bang),
        }
    }
}

// How many are left of a number after some were used. A float with the mark `!` may come even if none may.
fn count_after(number: i64, used: usize, suppressed: bool, bang: bool) -> i64
    requires number { IsCount number }
    requires used { used ≤ 16384 }
    ensures { result ≡ count_after number used suppressed bang }
{
    let left = plain_count_after(number, used, suppressed);
    if bang && left == 0 { 1 } else { left }
}

fn plain_count_after(number: i64, used: usize, suppressed: bool) -> i64
    requires number { IsCount number }
    requires used { used ≤ 16384 }
    ensures { result ≡ plain_count_after number used suppressed }
{
    if suppressed {
        0
    } else {
        (number - used as i64).max(0)
    }
}

/// A share of an amount of at most 2^45 scaled points: `frac`, with what is known of its size.
pub fn share_of(share: i64, amount: i64) -> i64
    requires share { IsShare share }
    requires amount { IsWithin 35184372088832 amount }
    ensures value { result ≡ fraction_of share amount }
    ensures within { IsWithin 35184372088832 result }
{
    frac(share, amount)
}

// What floats of these heights together take of an area.
fn taken(first: i64, between: i64, heights: i64, count: usize) -> i64
    requires first { IsDimension first }
    requires between { IsDimension between }
    requires heights { IsSumOf count heights }
    requires few { count ≤ 4096 }
    ensures value { (fs : List Float) → length fs ≡ count → total_height fs ≡ heights → result ≡ floats_room first between fs }
    ensures within { IsWithin 17592186044416 result }
{
    if count == 0 {
        return 0;
    }
    sum_of(sum_of(heights, first), times(between, count - 1))
}

// The width of this many separators.
fn times(width: i64, count: usize) -> i64
    requires width { IsDimension width }
    requires few { count ≤ 8192 }
    ensures value { result ≡ width *ℤ pos count }
    ensures within { IsWithin 8796093014016 result }
{
    width * count as i64
}
