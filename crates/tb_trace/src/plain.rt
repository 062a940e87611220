//! A line whose numbers are not below 0 and no star, as those of most places are: it is written backward, and appended at once.
ghost use Rattle.std.specs.Prelude.{◌≡◌, ◌≤◌, ◌+◌, ◌++◌, ◌&&◌, pos, int_le, int_lt, drop, length, codes, IfSome};
ghost use Rattle.tb_scaled.specs.Scaled.{awful_bad};
ghost use Rattle.tb_text.specs.Fields.{and_count};
ghost use Rattle.tb_trace.specs.Lines.{and_numbers};
ghost use Rattle.tb_trace.specs.Parts.{sums_of, costs_of, end_text};
ghost use Rattle.tb_trace.specs.Plain.{stretch_text, sums_text, costs_text};
ghost use Rattle.tb_text.specs.Fronts.{PutsAfter};

use std::alloc::AllocError;
use tb_builder::Try;
use tb_node::Sums;
use tb_scaled::AWFUL_BAD;
use tb_text::{put, write_field, write_text};

/// The stretch of each order.
#[derive(Clone, Copy)]
pub(crate) struct Stretch {
    pub(crate) normal: u64,
    pub(crate) fil: u64,
    pub(crate) fill: u64,
    pub(crate) filll: u64,
}

/// The stretch of each order, if none is below 0.
pub(crate) fn plain_stretch(stretch: &[i64; 4]) -> Option<Stretch>
    ensures { IfSome result (λ s. stretch_text s ≡ and_numbers stretch.now) }
{
    let [normal, fil, fill, filll] = *stretch;
    if normal < 0 || fil < 0 || fill < 0 || filll < 0 {
        return None;
    }
    Some(Stretch {
        normal: normal as u64,
        fil: fil as u64,
        fill: fill as u64,
        filll: filll as u64,
    })
}

/// The line of a place in the galley, and the sums of the page before it.
#[derive(Clone, Copy)]
pub(crate) struct PlainSums {
    line: u64,
    total: u64,
    stretch: Stretch,
    shrink: u64,
}

/// The line of a place and these sums, if none is below 0.
pub(crate) fn plain_sums(line: u32, sums: &Sums) -> Option<PlainSums>
    ensures { IfSome result (λ s. sums_text s ≡ sums_of line sums.now) }
{
    let Some(stretch) = plain_stretch(&sums.stretch) else {
        return None;
    };
    if sums.total < 0 || sums.shrink < 0 {
        return None;
    }
    Some(PlainSums {
        line: u64::from(line),
        total: sums.total as u64,
        stretch,
        shrink: sums.shrink as u64,
    })
}

/// The goal at a place, its badness, its penalty and its cost.
#[derive(Clone, Copy)]
pub(crate) struct PlainCosts {
    goal: u64,
    badness: u64,
    penalty: u64,
    cost: u64,
}

/// These of a place, if none is below 0 or a star.
pub(crate) fn plain_costs(t: &Try) -> Option<PlainCosts>
    ensures { IfSome result (λ s. costs_text s ≡ costs_of t.now) }
{
    if t.goal < 0 || !is_plain_cost(t.badness) || t.penalty < 0 || !is_plain_cost(t.cost) {
        return None;
    }
    Some(PlainCosts {
        goal: t.goal as u64,
        badness: t.badness as u64,
        penalty: t.penalty as u64,
        cost: t.cost as u64,
    })
}

// Whether a badness or cost is a number that is not below 0.
fn is_plain_cost(cost: i64) -> bool
    ensures { result ≡ (int_le (pos 0) cost && int_lt cost awful_bad) }
{
    0 <= cost && cost < AWFUL_BAD
}

/// Appends the front of a line up to the sums. If memory runs out, what stood in `out` is still there, and a front of this may
/// follow.
pub(crate) fn put_plain_sums(out: &mut Vec<u8>, sums: &PlainSums) -> Result<(), AllocError>
    ensures { PutsAfter result out.old.items (sums_text sums.now) out.new.items }
{
    let mut text = [0; 156];
    let start = write_sums(sums, &mut text, 156);
    put(out, &text[start..])
}

/// Appends the whole line. If memory runs out, what stood in `out` is still there, and a front of the line may follow.
pub(crate) fn put_plain_try(
    out: &mut Vec<u8>,
    sums: &PlainSums,
    costs: &PlainCosts,
    champion: bool,
) -> Result<(), AllocError>
    ensures { PutsAfter result out.old.items (sums_text sums.now ++ costs_text costs.now ++ end_text champion) out.new.items }
{
    let mut text = [0; 256];
    let at = write_end(champion, &mut text, 256);
    let at = write_costs(costs, &mut text, at);
    let start = write_sums(sums, &mut text, at);
    put(out, &text[start..])
}

// Writes the mark of the best place so far and the end of the line so that they end at `end`, and returns where they start.
fn write_end(champion: bool, text: &mut [u8], end: usize) -> usize
    requires room { 3 ≤ end }
    requires inside { end ≤ length text.old }
    ensures start { end ≤ result + 3 }
    ensures before { result ≤ end }
    ensures same { length text.new ≡ length text.old }
    ensures written { drop result text.new ≡ end_text champion ++ drop end text.old }
{
    if champion {
        return write_text(b" #\n", text, end);
    }
    write_text(b"\n", text, end)
}

// The same for the costs.
fn write_costs(costs: &PlainCosts, text: &mut [u8], end: usize) -> usize
    requires room { 92 ≤ end }
    requires inside { end ≤ length text.old }
    ensures start { end ≤ result + 92 }
    ensures before { result ≤ end }
    ensures same { length text.new ≡ length text.old }
    ensures written { drop result text.new ≡ costs_text costs.now ++ drop end text.old }
{
    let at = write_field(costs.cost, text, end);
    let at = write_text(b" c", text, at);
    let at = write_field(costs.penalty, text, at);
    let at = write_text(b" p", text, at);
    let at = write_field(costs.badness, text, at);
    let at = write_text(b" b", text, at);
    let at = write_field(costs.goal, text, at);
    write_text(b" g", text, at)
}

// The same for the line of the place and the sums.
#[inline(always)]
fn write_sums(sums: &PlainSums, text: &mut [u8], end: usize) -> usize
    requires room { 156 ≤ end }
    requires inside { end ≤ length text.old }
    ensures before { result ≤ end }
    ensures same { length text.new ≡ length text.old }
    ensures written { drop result text.new ≡ sums_text sums.now ++ drop end text.old }
{
    let at = write_field(sums.shrink, text, end);
    let at = write_text(b" z", text, at);
    let at = write_stretch(&sums.stretch, text, at);
    let at = write_field(sums.total, text, at);
    let at = write_text(b" t", text, at);
    let at = write_field(sums.line, text, at);
    write_text(b"try", text, at)
}

// Writes the stretch of each order so that it ends at `end`, and returns where it starts.
#[inline(always)]
fn write_stretch(stretch: &Stretch, text: &mut [u8], end: usize) -> usize
    requires room { 86 ≤ end }
    requires inside { end ≤ length text.old }
    ensures start { end ≤ result + 86 }
    ensures before { result ≤ end }
    ensures same { length text.new ≡ length text.old }
    ensures written { drop result text.new ≡ (codes " s" ++ stretch_text stretch.now) ++ drop end text.old }
{
    let at = write_infinite(stretch, text, end);
    let at = write_field(stretch.normal, text, at);
    write_text(b" s", text, at)
}

// The same for the infinite orders alone, of which most places have no stretch.
#[inline(always)]
fn write_infinite(stretch: &Stretch, text: &mut [u8], end: usize) -> usize
    requires room { 63 ≤ end }
    requires inside { end ≤ length text.old }
    ensures start { end ≤ result + 63 }
    ensures before { result ≤ end }
    ensures same { length text.new ≡ length text.old }
    ensures written { drop result text.new ≡ (and_count stretch.now.fil ++ and_count stretch.now.fill ++ and_count stretch.now.filll) ++ drop end text.old }
{
    if stretch.fil == 0 && stretch.fill == 0 && stretch.filll == 0 {
        return write_text(b" 0 0 0", text, end);
    }
    let at = write_field(stretch.filll, text, end);
    let at = write_field(stretch.fill, text, at);
    write_field(stretch.fil, text, at)
}
