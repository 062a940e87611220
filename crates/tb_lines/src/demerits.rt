//! The badness and the demerits of a line (TeX: The Program §851 to §859).
ghost use Rattle.std.specs.Prelude.{◌≡◌, ◌≤◌, ◌≤ℤ◌, pos, IfSome, negsuc, Option};
ghost use Rattle.tb_lines.specs.Demerits.{line_badness, badness_demerits, penalty_demerits, feasible_demerits, sums_demerits};

use crate::sums::Sums;
use crate::text::LineParams;
use tb_scaled::badness;

// How badly a line with these sums fits the width; `None` if it is too wide for its shrink.
#[tactic(auto, unfolding(crate::specs::Demerits::line_badness))]
fn line_badness(hsize: u32, s: &Sums) -> Option<i64>
    requires width { s.now.width ≤ 281474976710656 }
    requires stretch { s.now.stretch ≤ 281474976710656 }
    requires shrink { s.now.shrink ≤ 281474976710656 }
    ensures value { result ≡ line_badness hsize s.now }
    ensures low { IfSome result (λ b. pos 0 ≤ℤ b) }
    ensures high { IfSome result (λ b. b ≤ℤ pos 10000) }
{
    let hsize = u64::from(hsize);
    if s.width < hsize {
        if s.fills > 0 {
            return Some(0);
        }
        return Some(badness((hsize - s.width) as i64, s.stretch as i64));
    }
    if s.width - hsize > s.shrink {
        return None;
    }
    Some(badness((s.width - hsize) as i64, s.shrink as i64))
}

fn badness_demerits(line_penalty: u32, badness: i64) -> i64
    requires low { pos 0 ≤ℤ badness }
    requires high { badness ≤ℤ pos 10000 }
    ensures value { result ≡ badness_demerits line_penalty badness }
    ensures low { pos 0 ≤ℤ result }
    ensures high { result ≤ℤ pos 100000000 }
{
    let sum = i64::from(line_penalty) + badness;
    if sum >= 10_000 {
        100_000_000
    } else {
        sum * sum
    }
}

/// What the penalty of a break adds to the demerits of a line that ends there: its square, taken away below 0; a forced
/// break adds nothing.
pub(crate) fn penalty_demerits(penalty: i16) -> i64
    ensures value { result ≡ penalty_demerits penalty }
    ensures low { negsuc 4294967295 ≤ℤ result }
    ensures high { result ≤ℤ pos 4294967296 }
{
    let penalty = i64::from(penalty);
    if penalty > 0 {
        penalty * penalty
    } else if penalty > -10_000 && penalty < 0 {
        -(penalty * penalty)
    } else {
        0
    }
}

// The demerits of a line of this badness, if it is within the tolerance; `ending` is what the penalty of its break adds.
fn feasible_demerits(params: &LineParams, ending: i64, badness: i64) -> Option<i64>
    requires low { pos 0 ≤ℤ badness }
    requires high { badness ≤ℤ pos 10000 }
    requires ending_low { negsuc 4294967295 ≤ℤ ending }
    requires ending_high { ending ≤ℤ pos 4294967296 }
    ensures value { result ≡ feasible_demerits params.now ending (Option.Some badness) }
    ensures low { IfSome result (λ d. negsuc 8589934591 ≤ℤ d) }
    ensures high { IfSome result (λ d. d ≤ℤ pos 8589934592) }
{
    if badness > i64::from(params.tolerance) {
        return None;
    }
    Some(badness_demerits(params.line_penalty, badness) + ending)
}

/// The demerits of a line with these sums; `None` if it is not feasible. `ending` is what the penalty of its break adds,
/// which is the same for all lines that end there.
#[inline(always)]
#[tactic(auto, unfolding(crate::specs::Demerits::sums_demerits))]
pub(crate) fn sums_demerits(params: &LineParams, s: &Sums, ending: i64) -> Option<i64>
    requires width { s.now.width ≤ 281474976710656 }
    requires stretch { s.now.stretch ≤ 281474976710656 }
    requires shrink { s.now.shrink ≤ 281474976710656 }
    requires ending_low { negsuc 4294967295 ≤ℤ ending }
    requires ending_high { ending ≤ℤ pos 4294967296 }
    ensures value { result ≡ sums_demerits params.now s.now ending }
    ensures low { IfSome result (λ d. negsuc 8589934591 ≤ℤ d) }
    ensures high { IfSome result (λ d. d ≤ℤ pos 8589934592) }
{
    match line_badness(params.hsize, s) {
        Some(badness) => feasible_demerits(params, ending, badness),
        None => None,
    }
}
