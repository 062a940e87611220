//! The lists that nobody needs any more are closed.

ghost use Rattle.std.specs.Prelude.{◌≡◌, ◌≢◌, ℕ, None};
ghost use Rattle.std.specs.List.{AllByRecursion};
ghost use Rattle.std.specs.FinMap.{get};
ghost use Rattle.tb_pool.specs.Lists.{IsLive};
ghost use Rattle.tb_pool.specs.Frame.{IsNoneOf};
ghost use Rattle.tb_column.specs.Notes.{AreDistinct};
ghost use Rattle.tb_sheet.specs.StoredSheets.{sent_lists, sheet_lists};
ghost use Rattle.tb_items.specs.Happenings.{happening_lists, happened_lists};

use crate::Happening;
use tb_node::Node;
use tb_pool::{ListId, Lists};
use tb_sheet::{Sent, Sheet};

/// Closes the lists of the pages that were sent.
pub fn close_happened(store: &mut Lists<Node>, happened: &[Happening])
    requires live { AllByRecursion (IsLive store.old) (happened_lists happened.now) }
    requires distinct { AreDistinct (happened_lists happened.now) }
    ensures closed { AllByRecursion (λ l. get store.new.lists l ≡ None) (happened_lists happened.now) }
    ensures others { (q : ℕ) → IsNoneOf q (happened_lists happened.now) → get store.new.lists q ≡ get store.old.lists q }
{
    for happening in happened {
        close_happening(store, *happening);
    }
}

// A place that was tried has no lists.
fn close_happening(store: &mut Lists<Node>, happening: Happening)
    requires live { AllByRecursion (IsLive store.old) (happening_lists happening) }
    requires distinct { AreDistinct (happening_lists happening) }
    ensures closed { AllByRecursion (λ l. get store.new.lists l ≡ None) (happening_lists happening) }
    ensures others { (q : ℕ) → IsNoneOf q (happening_lists happening) → get store.new.lists q ≡ get store.old.lists q }
{
    match happening {
        Happening::Tried(_) => {}
        Happening::Sent(event) => close_sent(store, event.sent),
    }
}

// Closes the lists of a page; a warning has none.
fn close_sent(store: &mut Lists<Node>, sent: Sent)
    requires live { AllByRecursion (IsLive store.old) (sent_lists sent) }
    requires distinct { AreDistinct (sent_lists sent) }
    ensures closed { AllByRecursion (λ l. get store.new.lists l ≡ None) (sent_lists sent) }
    ensures others { (q : ℕ) → IsNoneOf q (sent_lists sent) → get store.new.lists q ≡ get store.old.lists q }
{
    match sent {
        Sent::Warn(_) => {}
        Sent::Ship { page: _, sheet } => close_sheet(store, sheet),
    }
}

fn close_sheet(store: &mut Lists<Node>, sheet: Sheet)
    requires live { AllByRecursion (IsLive store.old) (sheet_lists sheet) }
    requires distinct { AreDistinct (sheet_lists sheet) }
    ensures closed { AllByRecursion (λ l. get store.new.lists l ≡ None) (sheet_lists sheet) }
    ensures others { (q : ℕ) → IsNoneOf q (sheet_lists sheet) → get store.new.lists q ≡ get store.old.lists q }
{
    match sheet {
        Sheet::One(column) => close_list(store, column.list),
        Sheet::Wide(column) => close_list(store, column.list),
        Sheet::Two {
            tops,
            at: _,
            left,
            right,
        } => {
            close_list(store, tops);
            close_list(store, left.list);
            close_list(store, right.list);
        }
    }
}

/// Empties a list and closes it.
#[tactic(auto, using(tb_pool::proofs::MapLemmas::list_steps))]
pub fn close_list(store: &mut Lists<Node>, list: ListId)
    requires { IsLive store.old list }
    ensures closed { get store.new.lists list ≡ None }
    ensures others { (q : ℕ) → q ≢ list → get store.new.lists q ≡ get store.old.lists q }
{
    store.clear(list);
    store.close(list);
}
