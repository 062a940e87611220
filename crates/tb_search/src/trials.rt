//! The states in which pages are tried, and those whose memory can be used again.

ghost use Rattle.std.specs.Prelude.{◌≡◌, IfOk};
ghost use Rattle.tb_search.specs.Branches.{shown, IsBranch};

use crate::Branch;
use std::alloc::{AllocError, Global};
use tb_items::Happening;

/// The state in which pages are tried, and states of no account, in whose memory the next copies are made.
#[derive(Drop)]
pub(crate) struct Trials<'a> {
    /// What it shows between two tries is of no account.
    pub(crate) page: Branch<'a>,
    /// How many items are tried first, to see how many can be taken before a page fires.
    pub(crate) guess: usize,
    /// What happened when a page was filled. Between two tries it is of no account.
    pub(crate) happened: Vec<Happening>,
    spare: Vec<Branch<'a>>,
}

// So many items are tried first from the first state.
const FIRST_GUESS: usize = 64;

impl<'a> Trials<'a> {
    /// Pages are tried in this state, and no other can be used again yet.
    pub(crate) fn start(alloc: Global, page: Branch<'a>) -> Self {
        Trials {
            page,
            guess: FIRST_GUESS,
            happened: Vec::new(alloc),
            spare: Vec::new(alloc),
        }
    }

    /// A copy of the state in which a page was tried. It fails only if memory runs out.
    pub(crate) fn copy(&mut self, alloc: Global) -> Result<Branch<'a>, AllocError>
        requires { IsBranch self.old.page }

        ensures branch { IfOk result IsBranch }
        ensures state { IfOk result (λ c. shown c ≡ shown self.old.page) }
        ensures ahead { IfOk result (λ c. c.ahead ≡ self.old.page.ahead) }
        ensures plain { IfOk result (λ c. c.plain ≡ self.old.page.plain) }
    {
        let Some(spare) = self.spare.pop() else {
            return self.page.copy(alloc);
        };
        let mut copy = spare;
        copy.copy_from(&self.page, alloc)?;
        Ok(copy)
    }

    /// A state is of no account from now on. If there is no memory to keep it, it is dropped.
    pub(crate) fn give_back(&mut self, branch: Branch<'a>)
        ensures { self.new.page ≡ self.old.page }
    {
        let _ = self.spare.push(branch);
    }
}
