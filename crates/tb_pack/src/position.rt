//! Where the nodes of a set list are.

ghost use Rattle.std.specs.Prelude.{◌≡◌, ◌≢◌, ◌∷◌, ◌++◌, [], List, ℤ, pos, ◌*ℤ◌, ◌<ℤ◌, FitsSigned};
ghost use Rattle.std.specs.Int.{w64};
ghost use Rattle.tb_node.specs.PlainNodes.{shape_of};
ghost use Rattle.tb_node.specs.Shape.{Shape, glue};
ghost use Rattle.tb_node.specs.SmallAmounts.{IsSmallShape};
ghost use Rattle.tb_node.specs.Sums.{amount_at};
ghost use Rattle.tb_pack.specs.declared.Set.{Set as SetOf};
ghost use Rattle.tb_pack.specs.Pack.{at_of, set_amount, floor_ratio, top_after};
ghost use Rattle.tb_pack.specs.PositionRange.{IsProduct};
ghost use Rattle.tb_pack.specs.Position.{walked_past, glue_of, top_of, HasPassed};

use crate::{Set, Sign};
use std::marker::Model;
use tb_node::{Kind, Node, room_of};
use tb_scaled::{Glue, Order, sum};

/// The top, in sp, of a node in a set list. The nodes before it have this natural size and this sum of the stretch of
/// the set order, or of the shrink.
///
/// It is exact but for the glue's share, which is rounded down whatever the signs; TeX rounds to the nearest. The set's
/// `den` is not 0, as `pack` makes it.
pub fn at(set: &Set, natural: i64, sum: i64) -> i128
    requires { set.now.den ≢ pos 0 }
    ensures { result ≡ at_of set.now natural sum }
{
    match set.sign {
        Sign::None => i128::from(natural),
        Sign::Stretch => i128::from(natural) + set_amount(set, sum),
        Sign::Shrink => i128::from(natural) - set_amount(set, sum),
    }
}

// What glue with this sum is set to, rounded down.
fn set_amount(set: &Set, sum: i64) -> i128
    requires { set.now.den ≢ pos 0 }
    ensures value { result ≡ set_amount set.now sum }
    ensures small { IsProduct result }
{
    floor_ratio(product(sum, set.num), set.den)
}

fn product(a: i64, b: i64) -> i128
    ensures { result ≡ a *ℤ b }
{
    i128::from(a) * i128::from(b)
}

// The greatest whole number not above n / d.
fn floor_ratio(n: i128, d: i64) -> i128
    requires divisor { d ≢ pos 0 }
    requires small { IsProduct n }
    ensures { result ≡ floor_ratio n d }
{
    if d > 0 {
        floor_quotient(n, i128::from(d))
    } else {
        floor_quotient(-n, -i128::from(d))
    }
}

// The same for a divisor above 0.
fn floor_quotient(n: i128, d: i128) -> i128
    requires divisor { pos 0 <ℤ d }
    requires small { IsProduct n }
    ensures { result ≡ floor_ratio n d }
{
    if n >= 0 { n / d } else { -1 - (-1 - n) / d }
}

/// A walk of a set list from its first node on, which has the top of the next node.
#[derive(Clone, Copy)]
pub struct Tops {
    set: Set,
    natural: i64,
    glue: i64,
}

impl Model for Tops {
    ghost use Rattle.tb_pack.specs.PositionRange.{IsProduct};
    ghost use Rattle.tb_pack.specs.Position.{Walked};

    ghost Value = { Walked };

    ghost view = { λ t. record { set = t.set; natural = t.natural; glue = t.glue } };

    ghost inverse = { λ w. record { set = w.set; natural = w.natural; glue = w.glue } };
}

impl Tops {
    /// The walk of a list with this set, before its first node.
    pub fn new(set: Set) -> Self
        ensures value { result ≡ record { set = set; natural = pos 0; glue = pos 0 } }
        ensures none { HasPassed result set [] }
    {
        Tops {
            set,
            natural: 0,
            glue: 0,
        }
    }

    /// The top of the next node, in sp, as `at` gives it.
    pub fn top(&self) -> i128
        requires { self.now.set.den ≢ pos 0 }
        ensures value { result ≡ top_of self.now }
        ensures after { (set : SetOf) (before : List Shape) → HasPassed self.now set before → result ≡ top_after set before }
    {
        at(&self.set, self.natural, self.glue)
    }

    /// Passes the next node. The size and the glue of all that was passed fit 64 bits.
    pub fn pass(&mut self, n: &Node)
        requires node { IsSmallShape (shape_of n.now) }
        requires natural { FitsSigned w64 (walked_past self.old (shape_of n.now)).natural }
        requires glue { FitsSigned w64 (walked_past self.old (shape_of n.now)).glue }
        ensures value { self.new ≡ walked_past self.old (shape_of n.now) }
        ensures passed { (set : SetOf) (before : List Shape) → HasPassed self.old set before → HasPassed self.new set (before ++ shape_of n.now ∷ []) }
    {
        self.natural = sum(self.natural, room_of(n));
        self.glue = sum(self.glue, glue_of(&self.set, n));
    }
}

// The part of a node's glue that is set.
fn glue_of(set: &Set, n: &Node) -> i64
    ensures { result ≡ glue_of set.now.sign set.now.order (shape_of n.now) }
{
    match n.kind {
        Kind::Skip(g) => amount_of(set.sign, set.order, g),
        Kind::Hbox { .. } => 0,
        Kind::Rule { .. } => 0,
        Kind::Kern(_) => 0,
        Kind::Pen(_) => 0,
        Kind::Mark(_) => 0,
        Kind::Note(_) => 0,
        Kind::Whatsit => 0,
        Kind::Ins(_) => 0,
        Kind::Act(_) => 0,
    }
}

// The stretch of an order in glue, or its shrink.
fn amount_of(sign: Sign, order: Order, g: Glue) -> i64
    ensures { result ≡ glue_of sign order (glue g) }
{
    match sign {
        Sign::None => 0,
        Sign::Stretch => stretch_in(order, g),
        Sign::Shrink => g.shrink,
    }
}

// The stretch of an order.
fn stretch_in(order: Order, g: Glue) -> i64
    ensures { result ≡ amount_at order g.order g.stretch }
{
    match (order, g.order) {
        (Order::Normal, Order::Normal) => g.stretch,
        (Order::Fil, Order::Fil) => g.stretch,
        (Order::Fill, Order::Fill) => g.stretch,
        (Order::Filll, Order::Filll) => g.stretch,
        _ => 0,
    }
}
