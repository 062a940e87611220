//! The company of a head: for each float of the list, whether it is in it.
ghost use Rattle.std.specs.Prelude.{◌≡◌, ◌≤◌, ◌+◌, [], ◌∷◌, ◌+ℤ◌, ◌-ℤ◌, ◌&&◌, ◌||◌, ◌==◌, not, pos, suc, int_le, int_lt, if◌then◌else◌, length, slice_get, Some, take, drop, OnOk, IfOk};
ghost use Rattle.std.specs.Bool.{beq};
ghost use Rattle.tb_float.specs.Lists.{IsWaiting, floats_of};
ghost use Rattle.tb_float.specs.Ranges.{IsWithin};
ghost use Rattle.tb_fpage.specs.Company.{company_height, separated, joins, choices_from, company_of_head, passed_over, chosen_floats, left_floats};
ghost use Rattle.tb_told.specs.Tested.{first_of_class};
ghost use Rattle.tb_told.specs.ColumnTold.{joins_told, made_told};
ghost use Rattle.tb_told.specs.Sums.{IsHeightSum};

use crate::heads::{is_no_higher, may_be_alone};
use crate::tested::failing;
use crate::{HeightSum, Joining, Made, Test};
use std::alloc::{AllocError, Global};
use std::marker::Model;
use tb_float::{Part, Pool};
use tb_fpage::Wanted;
use tb_node::Float;

/// A float that waits, and whether it is in the company.
#[derive(Clone, Copy)]
pub(crate) struct Choice {
    pub(crate) float: Float,
    pub(crate) chosen: bool,
}

impl Model for Choice {
    ghost use Rattle.tb_fpage.specs.Company.{Choice as PlainChoice};

    ghost Value = { PlainChoice };

    ghost view = { λ c. record { float = c.float; chosen = c.chosen } };

    ghost inverse = { λ v. record { float = v.float; chosen = v.chosen } };
}

// ---- which floats are in a company

/// The company of the head at a place, with a choice for each float of the list.
pub(crate) fn company_of(
    alloc: Global,
    pool: &Pool,
    wanted: &Wanted,
    from: Part,
    place: usize,
    f: &Float,
) -> Result<Vec<Choice>, AllocError>
    requires waiting { IsWaiting from }
    requires few { length (floats_of from pool.now.lists) ≤ 4096 }
    requires there { slice_get (floats_of from pool.now.lists) place ≡ Some f.now }
    ensures { IfOk result (λ cs. cs.items ≡ company_of_head wanted.now (take place (floats_of from pool.now.lists)) f.now (drop (suc place) (floats_of from pool.now.lists))) }
{
    let mut choices = Vec::new(alloc);
    choose_all(&mut choices, pool, wanted, from, place, f)?;
    Ok(choices)
}

// The floats before the head stay behind, the head is in its company, and each later one joins or stays.
fn choose_all(
    choices: &mut Vec<Choice>,
    pool: &Pool,
    wanted: &Wanted,
    from: Part,
    place: usize,
    f: &Float,
) -> Result<(), AllocError>
    requires waiting { IsWaiting from }
    requires few { length (floats_of from pool.now.lists) ≤ 4096 }
    requires there { slice_get (floats_of from pool.now.lists) place ≡ Some f.now }
    requires none { choices.old.items ≡ [] }
    ensures { OnOk result (choices.new.items ≡ company_of_head wanted.now (take place (floats_of from pool.now.lists)) f.now (drop (suc place) (floats_of from pool.now.lists))) }
{
    pass_over(choices, pool, from, place)?;
    choices.push(Choice {
        float: *f,
        chosen: true,
    })?;
    join_later(choices, pool, wanted, from, place + 1)
}

// The first floats of a list stay behind.
fn pass_over(
    choices: &mut Vec<Choice>,
    pool: &Pool,
    from: Part,
    count: usize,
) -> Result<(), AllocError>
    requires waiting { IsWaiting from }
    requires none { choices.old.items ≡ [] }
    ensures { OnOk result (choices.new.items ≡ passed_over (take count (floats_of from pool.now.lists))) }
{
    let mut left = count;
    for entry in pool.entries(from) {
        if left == 0 {
            return Ok(());
        }
        choices.push(Choice {
            float: *entry.float(),
            chosen: false,
        })?;
        left -= 1;
    }
    Ok(())
}

// Each float of a list from a place on joins, or stays behind.
fn join_later(
    choices: &mut Vec<Choice>,
    pool: &Pool,
    wanted: &Wanted,
    from: Part,
    place: usize,
) -> Result<(), AllocError>
    requires waiting { IsWaiting from }
    requires few { length choices.old.items + length (drop place (floats_of from pool.now.lists)) ≤ 4096 }
    ensures { OnOk result (choices.new.items ≡ choices_from wanted.now choices.old.items (drop place (floats_of from pool.now.lists))) }
{
    for entry in pool.entries_from(from, place) {
        let f = entry.float();
        let chosen = joins(wanted, choices, f);
        choices.push(Choice { float: *f, chosen })?;
    }
    Ok(())
}

// Whether a later float joins, after these choices.
fn joins(wanted: &Wanted, before: &[Choice], f: &Float) -> bool
    requires { length before.now ≤ 4096 }
    ensures { result ≡ joins wanted.now before.now f.now }
{
    if !is_of_width(f, wanted.wide) {
        return false;
    }
    joining(wanted, before, f).failed.is_none()
}

/// Whether a float has this width.
pub(crate) fn is_of_width(f: &Float, wide: bool) -> bool
    ensures { result ≡ beq f.now.wide wide }
{
    f.wide == wide
}

// ---- what is told of them

/// What is told of a float that may join, after these choices.
pub(crate) fn joining(wanted: &Wanted, before: &[Choice], f: &Float) -> Joining
    requires { length before.now ≤ 4096 }
    ensures { result ≡ joins_told wanted.now before.now f.now }
{
    let blocker = first_left(before, f.class);
    let sum = height_with(before, wanted.sep, f.height);
    let failed = failing(
        may_be_alone(f, wanted),
        Test::Places,
        failing(
            is_no_higher(f, wanted),
            Test::Tall,
            failing(
                blocker.is_none(),
                Test::Class,
                failing(fits(sum.amount(), wanted.height), Test::Sum, None),
            ),
        ),
    );
    Joining {
        blocker,
        high: f.height,
        sum,
        most: wanted.height,
        failed,
    }
}

/// What is told of a company.
pub(crate) fn made_of(wanted: &Wanted, company: &[Choice]) -> Made
    requires { length company.now ≤ 4096 }
    ensures { result ≡ made_told wanted.now company.now }
{
    let floats = chosen_count(company);
    let sum = company_height(company, floats, wanted.sep);
    Made {
        floats,
        sum,
        least: wanted.minimum,
        failed: failing(is_made(wanted, sum.amount()), Test::Sum, None),
    }
}

// Whether a height fits into the column.
fn fits(sum: i128, most: i64) -> bool
    ensures { result ≡ int_le sum most }
{
    sum <= i128::from(most)
}

// Whether a company of this height is made.
fn is_made(wanted: &Wanted, height: i128) -> bool
    ensures { result ≡ (wanted.now.clearing || int_lt wanted.now.minimum height) }
{
    wanted.clearing || i128::from(wanted.minimum) < height
}

// The first float of a class that stays behind.
fn first_left(choices: &[Choice], class: u8) -> Option<Float>
    ensures { result ≡ first_of_class class (left_floats choices.now) }
{
    for choice in choices {
        if is_left(choice, class) {
            return Some(choice.float);
        }
    }
    None
}

// Whether a float has this class and stays behind.
fn is_left(choice: &Choice, class: u8) -> bool
    ensures { result ≡ (not choice.now.chosen && (choice.now.float.class == class)) }
{
    !choice.chosen && choice.float.class == class
}

// How many floats are in the company.
fn chosen_count(choices: &[Choice]) -> usize
    ensures { result ≡ length (chosen_floats choices.now) }
{
    let mut count = 0;
    for choice in choices {
        count += one_if(choice.chosen);
    }
    count
}

fn one_if(chosen: bool) -> usize
    ensures { result ≡ (if chosen then 1 else 0) }
{
    if chosen { 1 } else { 0 }
}

// ---- heights

// The height of the company with one more float of this height.
fn height_with(before: &[Choice], sep: i64, height: i64) -> HeightSum
    requires { length before.now ≤ 4096 }
    ensures { result ≡ separated sep before.now +ℤ height }
{
    HeightSum::new(plus(separated(before, sep), height))
}

// The height of a company of so many floats.
fn company_height(company: &[Choice], floats: usize, sep: i64) -> HeightSum
    requires few { length company.now ≤ 4096 }
    requires floats { floats ≡ length (chosen_floats company.now) }
    ensures { result ≡ company_height sep company.now }
{
    if floats == 0 {
        return HeightSum::new(0);
    }
    HeightSum::new(less(separated(company, sep), sep))
}

// The heights of the company, each with a separator.
fn separated(choices: &[Choice], sep: i64) -> i128
    requires { length choices.now ≤ 4096 }
    ensures value { result ≡ separated sep choices.now }
    ensures within { IsWithin 151115727451828646838272 result }
{
    let mut sum = 0;
    for choice in choices {
        sum = sum_of(sum, share(choice, sep));
    }
    sum
}

// What a float adds to the height of the company, with a separator: nothing if it stays behind.
fn share(choice: &Choice, sep: i64) -> i128
    ensures value { result ≡ (if choice.now.chosen then sep +ℤ choice.now.float.height else pos 0) }
    ensures within { IsWithin 36893488147419103232 result }
{
    if choice.chosen {
        i128::from(sep) + i128::from(choice.float.height)
    } else {
        0
    }
}

fn sum_of(sum: i128, more: i128) -> i128
    requires sum { IsWithin 151115727451828646838272 sum }
    requires more { IsWithin 36893488147419103232 more }
    ensures { result ≡ sum +ℤ more }
{
    sum + more
}

fn plus(sum: i128, height: i64) -> i128
    requires { IsWithin 151115727451828646838272 sum }
    ensures value { result ≡ sum +ℤ height }
    ensures within { IsHeightSum result }
{
    sum + i128::from(height)
}

fn less(sum: i128, sep: i64) -> i128
    requires { IsWithin 151115727451828646838272 sum }
    ensures value { result ≡ sum -ℤ sep }
    ensures within { IsHeightSum result }
{
    sum - i128::from(sep)
}
