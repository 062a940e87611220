//! What the page makeup serves.

ghost use Rattle.std.specs.Prelude.{◌≡◌};
ghost use Rattle.tb_plain.specs.Suitability.{is_suited, unsuited_among, first_unsuited};

use tb_galley::{Galley, Item, ItemKind};
use tb_node::FOOTNOTES;

/// The line of the first item that the page makeup does not serve, if there is one: a marginal note, a change of columns, a
/// suppressed area, a page number, or an insertion of another class than that of footnotes.
pub fn first_unsuited(galley: &Galley) -> Option<u32>
    ensures { result ≡ first_unsuited galley.now }
{
    unsuited_among(galley.items.as_slice())
}

fn unsuited_among(items: &[Item]) -> Option<u32>
    ensures { result ≡ unsuited_among items.now }
{
    for item in items {
        if !is_suited(&item.kind) {
            return Some(item.line);
        }
    }
    None
}

// Whether an item is served.
fn is_suited(kind: &ItemKind) -> bool
    ensures { result ≡ is_suited kind.now }
{
    match kind {
        ItemKind::Foot { class, leaves: _ } => *class == FOOTNOTES,
        ItemKind::Margin { .. } => false,
        ItemKind::OneColumn => false,
        ItemKind::TwoColumn => false,
        ItemKind::Suppress(_) => false,
        ItemKind::Page(_) => false,
        ItemKind::Set(_) => false,
        ItemKind::Head(_) => false,
        ItemKind::Enlarge { .. } => false,
        _ => true,
    }
}
