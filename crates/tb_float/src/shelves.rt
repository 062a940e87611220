//! The ids of the pool's lists.
ghost use Rattle.std.specs.Prelude.{◌≡◌, [], IfOk};
ghost use Rattle.std.specs.FinMap.{empty};
ghost use Rattle.tb_float.specs.declared.Part.{Part};
ghost use Rattle.tb_float.specs.Shelves.{slots_of, AreShelves};

use crate::Slot;
use crate::by_part::ByPart;
use std::alloc::AllocError;
use tb_pool::{ListId, Lists};

/// Two lists that are empty between calls and help to move an entry, and the list of each part.
#[derive(Clone, Copy)]
pub(crate) struct Shelves {
    pub(crate) one: ListId,
    pub(crate) rest: ListId,
    pub(crate) lists: ByPart<ListId>,
}

// Opens the two helper lists and a list for each part.
pub(crate) fn open_shelves(store: &mut Lists<Slot>) -> Result<Shelves, AllocError>
    requires { store.old.lists ≡ empty }
    ensures { IfOk result (λ s. AreShelves store.new s × ((p : Part) → slots_of store.new s p ≡ [])) }
{
    Ok(Shelves {
        one: store.add_list()?,
        rest: store.add_list()?,
        lists: ByPart {
            current: store.add_list()?,
            here: store.add_list()?,
            top: store.add_list()?,
            bottom: store.add_list()?,
            deferred: store.add_list()?,
            double: store.add_list()?,
            second: store.add_list()?,
        },
    })
}
