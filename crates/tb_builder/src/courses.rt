//! The course of a page: its running sums and account, and the best of its places.

ghost use Rattle.std.specs.Prelude.{◌≡◌, ◌<◌, ◌<ℤ◌, ◌≤ℤ◌, ◌||◌, pos, negsuc, int_le, ℕ, ℤ, List, [], ◌∷◌, ◌++◌, length, None, true};
ghost use Rattle.tb_scaled.specs.Scaled.{awful_bad};
ghost use Rattle.tb_pool.specs.Lists.{list_at};
ghost use Rattle.tb_node.specs.declared.Node.{Node as NodeOf};
ghost use Rattle.tb_node.specs.SmallAmounts.{IsAmount, IsSmall, IsSmallShape};
ghost use Rattle.tb_node.specs.Shape.{box, glue};
ghost use Rattle.tb_node.specs.PlainNodes.{shape_of, plain_of, inserted_of, PlainNode, ins as an_insertion};
ghost use Rattle.tb_node.specs.NodeSums.{added_node};
ghost use Rattle.tb_node.specs.Roles.{act_of_kind, insertion_of_kind};
ghost use Rattle.tb_break.specs.Best.{Breakpoint};
ghost use Rattle.tb_break.specs.Places.{ends_lasting};
ghost use Rattle.tb_insert.specs.Account.{Frozen};
ghost use Rattle.tb_insert.specs.AccountEntries.{Differ, ComesTo};
ghost use Rattle.tb_insert.specs.declared.Class.{Class as ClassOf};
ghost use Rattle.tb_insert.specs.Arrival.{ArriveFits, IsCutOff, LateFits};
ghost use Rattle.tb_builder.specs.LegalPlaces.{page_shapes};
ghost use Rattle.tb_builder.specs.Courses.{IsCourseOf, IsFlat, AllLoose};
ghost use Rattle.tb_builder.specs.CourseOffers.{OfferIs, MarksBest, TermsFit};

use crate::{Course, Try};
use tb_break::{Offer, is_lasting, new_scan};
use tb_insert::{Class, new_account};
use tb_node::{Insertion, Node, Sums};
use tb_pool::Lists;
use tb_scaled::{AWFUL_BAD, EJECT_PENALTY, Glue};

/// The course of a page of marks, notes and whatsits whose goal and depth limit (sp) are frozen now.
pub(crate) fn started(goal: i64, max_depth: i64, lasting: bool) -> Course
    requires low { pos 0 ≤ℤ max_depth }
    requires limit { IsAmount max_depth }
    ensures { (z : Frozen) (page : List PlainNode) → z.goal ≡ goal → z.limit ≡ max_depth → Differ z.classes → AllLoose page → lasting ≡ ends_lasting (page_shapes page)
        → IsCourseOf z result page [] }
{
    Course {
        scan: new_scan(max_depth),
        account: new_account(goal),
        best_goal: 0,
        lasting,
    }
}

fn made_try(line: u32, sums: Sums, goal: i64, offer: Offer, penalty: i64) -> Try
    ensures { result ≡ record { line = line; sums = sums; goal = goal; badness = offer.badness; penalty = penalty; cost = offer.cost; champion = offer.champion } }
{
    Try {
        line,
        sums,
        goal,
        badness: offer.badness,
        penalty,
        cost: offer.cost,
        champion: offer.champion,
    }
}

/// What a builder keeps until a place is tried.
pub(crate) fn no_try() -> Try {
    Try {
        line: 0,
        sums: Sums {
            total: 0,
            depth: 0,
            stretch: [0; 4],
            shrink: 0,
        },
        goal: 0,
        badness: 0,
        penalty: 0,
        cost: 0,
        champion: false,
    }
}

/// Whether the page fires at the place that was tried: it is overfull there, or the break is forced (TeX: The Program
/// §1005).
pub(crate) fn stops(t: &Try) -> bool
    ensures { result ≡ (int_le awful_bad t.now.cost || int_le t.now.penalty (negsuc 9999)) }
{
    t.cost >= AWFUL_BAD || t.penalty <= EJECT_PENALTY
}

impl Course {
    // Begins the course of the next page as `started` makes it, but in place: a course is too large to be made and
    // moved for each page.
    pub(crate) fn restart(&mut self, goal: i64, max_depth: i64)
        requires low { pos 0 ≤ℤ max_depth }
        requires limit { IsAmount max_depth }
        ensures { (z : Frozen) (page : List PlainNode) → z.goal ≡ goal → z.limit ≡ max_depth → Differ z.classes → AllLoose page → self.old.lasting ≡ ends_lasting (page_shapes page)
            → IsCourseOf z self.new page [] }
    {
        self.scan = new_scan(max_depth);
        self.account.restart(goal);
        self.best_goal = 0;
    }

    // Marks the page so far, if the place at its end is the best.
    fn mark_if(&mut self, champion: bool, goal: i64)
        ensures marks { (z : Frozen) (page : List PlainNode) → MarksBest z self.old self.new page champion goal }
        ensures scan { self.new.scan ≡ self.old.scan }
        ensures lasting { self.new.lasting ≡ self.old.lasting }
    {
        if !champion {
            return;
        }
        self.account.mark_best();
        self.best_goal = goal;
    }

    // Tries the legal place at the end of the page, which has `index` nodes.
    #[inline(always)]
    pub(crate) fn offer(&mut self, index: usize, line: u32, penalty: i64) -> Try
        requires terms { TermsFit self.old }
        requires low { IsAmount penalty }
        requires legal { penalty <ℤ pos 10000 }
        ensures { (z : Frozen) (page : List PlainNode) (bs : List Breakpoint) → IsCourseOf z self.old page bs → index ≡ length page → OfferIs z self.new page bs result line penalty }
    {
        let sums = self.scan.sums();
        let goal = self.account.goal();
        let offer = self
            .scan
            .offer(index, penalty, goal, self.account.penalties());
        self.mark_if(offer.champion, goal);
        made_try(line, sums, goal, offer, penalty)
    }

    // A node that is no insertion goes to the end of the page.
    #[inline(always)]
    pub(crate) fn put(&mut self, n: &Node)
        requires node { IsSmallShape (shape_of n.now) }
        requires fits { IsSmall (added_node self.old.scan.max_depth self.old.scan.sums (shape_of n.now)) }
        ensures { (z : Frozen) (page : List PlainNode) (bs : List Breakpoint) (held : ℕ → List NodeOf) → IsCourseOf z self.old page bs → act_of_kind n.now.kind ≡ None → insertion_of_kind n.now.kind ≡ None
            → IsCourseOf z self.new (page ++ plain_of held n.now ∷ []) bs }
    {
        self.scan.add(n);
        self.lasting = is_lasting(n);
    }

    // A box or rule goes to the end of the page.
    #[inline(always)]
    pub(crate) fn put_box(&mut self, height: i64, depth: i64)
        requires node { IsSmallShape (box height depth) }
        requires fits { IsSmall (added_node self.old.scan.max_depth self.old.scan.sums (box height depth)) }
        ensures { (n : NodeOf) (z : Frozen) (page : List PlainNode) (bs : List Breakpoint) (held : ℕ → List NodeOf) → shape_of n ≡ box height depth → IsCourseOf z self.old page bs → act_of_kind n.kind ≡ None → insertion_of_kind n.kind ≡ None
            → IsCourseOf z self.new (page ++ plain_of held n ∷ []) bs }
    {
        self.scan.add_box(height, depth);
        self.lasting = true;
    }

    // Glue goes to the end of the page.
    #[inline(always)]
    pub(crate) fn put_glue(&mut self, g: Glue)
        requires node { IsSmallShape (glue g) }
        requires fits { IsSmall (added_node self.old.scan.max_depth self.old.scan.sums (glue g)) }
        ensures { (n : NodeOf) (z : Frozen) (page : List PlainNode) (bs : List Breakpoint) (held : ℕ → List NodeOf) → shape_of n ≡ glue g → IsCourseOf z self.old page bs → act_of_kind n.kind ≡ None → insertion_of_kind n.kind ≡ None
            → IsCourseOf z self.new (page ++ plain_of held n ∷ []) bs }
    {
        self.scan.add_glue(g);
        self.lasting = false;
    }

    // A node that takes no room goes to the end of the page: a mark, note or whatsit, which lasts, or a penalty.
    #[inline(always)]
    pub(crate) fn put_flat(&mut self, lasting: bool)
        ensures { (n : NodeOf) (z : Frozen) (page : List PlainNode) (bs : List Breakpoint) (held : ℕ → List NodeOf) → IsFlat lasting (shape_of n) → IsCourseOf z self.old page bs → act_of_kind n.kind ≡ None → insertion_of_kind n.kind ≡ None
            → IsCourseOf z self.new (page ++ plain_of held n ∷ []) bs }
    {
        self.lasting = lasting;
    }

    // An insertion goes to the end of the page, which has `index` nodes.
    pub(crate) fn join(
        &mut self,
        store: &Lists<Node>,
        ins: &Insertion,
        index: usize,
        class: &Class,
        box_size: i64,
    )
        requires number { class.now.number ≡ ins.now.class }
        requires most { ins.now.class < 256 }
        requires fits { ArriveFits store.now self.old.account self.old.scan ins.now class.now box_size }
        ensures { (z : Frozen) (page : List PlainNode) (bs : List Breakpoint) (line : ℕ) → IsCourseOf z self.old page bs → ComesTo z page self.old.scan class.now box_size index
            → IsCourseOf z self.new (page ++ record { line = line; kind = an_insertion (inserted_of (list_at store.now) ins.now) } ∷ []) bs }
    {
        self.account
            .arrive(store, ins, index, class, box_size, &mut self.scan);
        self.lasting = true;
    }

    // Whether the page has a split insertion of the class, so that each further one is late.
    pub(crate) fn is_late(&self, class: u8) -> bool
        requires { class < 256 }
        ensures { result ≡ true → IsCutOff self.now.account class }
    {
        self.account.is_late(class)
    }

    // A late insertion goes to the end of the page, which has `index` nodes. Its class and the size of its box are not needed.
    pub(crate) fn join_late(&mut self, ins: &Insertion, index: usize)
        requires most { ins.now.class < 256 }
        requires late { IsCutOff self.old.account ins.now.class }
        requires fits { LateFits self.old.account ins.now }
        ensures { (held : ℕ → List NodeOf) (class : ClassOf) (size : ℤ) (z : Frozen) (page : List PlainNode) (bs : List Breakpoint) (line : ℕ)
            → class.number ≡ ins.now.class → IsCourseOf z self.old page bs → ComesTo z page self.old.scan class size index
            → IsCourseOf z self.new (page ++ record { line = line; kind = an_insertion (inserted_of held ins.now) } ∷ []) bs }
    {
        self.account.arrive_late(ins, index);
        self.lasting = true;
    }
}
