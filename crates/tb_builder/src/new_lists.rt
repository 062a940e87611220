//! A builder is made.

ghost use Rattle.std.specs.Prelude.{◌≡◌, ℕ, IfOk};
ghost use Rattle.std.specs.FinMap.{get};
ghost use Rattle.tb_pool.specs.Lists.{IsLive};
ghost use Rattle.tb_builder.specs.Contents.{contents_of, nothing_yet};
ghost use Rattle.tb_builder.specs.Ownership.{ids_of, owned, Lacks, ClassesFit};
ghost use Rattle.tb_builder.specs.Courses.{IsSound};
ghost use Rattle.tb_builder.specs.NewLists.{VoidBoxes};

use crate::class_lists::ClassLists;
use crate::courses::{no_try, started};
use crate::{Builder, ClassList};
use std::alloc::{AllocError, Global};
use tb_insert::Class;
use tb_node::Node;
use tb_pool::Lists;

// A void box for each class, with a list of its own.
fn void_boxes(
    alloc: Global,
    store: &mut Lists<Node>,
    classes: &[Class],
) -> Result<ClassLists, AllocError>
    ensures boxes { IfOk result (λ v. VoidBoxes store.old store.new classes.now v) }
    ensures others { (q : ℕ) → IsLive store.old q → get store.new.lists q ≡ get store.old.lists q }
{
    let mut boxes = ClassLists::with_capacity(alloc, classes.len())?;
    for class in classes {
        let list = store.add_list()?;
        boxes.push(ClassList {
            class: *class,
            list,
            void: true,
        })?;
    }
    Ok(boxes)
}

/// A builder with an empty page, nothing waiting and a void box for each class. The class numbers differ. On an `Err` lists that were opened for it may be left in the store, empty; all other lists are as before.
pub fn new_builder(
    alloc: Global,
    store: &mut Lists<Node>,
    classes: &[Class],
) -> Result<Builder, AllocError>
    requires { ClassesFit classes.now }
    ensures sound { IfOk result (λ b. IsSound b store.new) }
    ensures contents { IfOk result (λ b. contents_of b store.new ≡ nothing_yet classes.now) }
    ensures fresh { IfOk result (λ b. (q : ℕ) → IsLive store.old q → Lacks q (owned (ids_of b) store.new)) }
    ensures others { (q : ℕ) → IsLive store.old q → get store.new.lists q ≡ get store.old.lists q }
{
    let boxes = void_boxes(alloc, store, classes)?;
    let rest = store.add_list()?;
    let held = store.add_list()?;
    let waiting = store.add_list()?;
    let page = store.add_list()?;
    Ok(Builder {
        boxes,
        page,
        waiting,
        held,
        rest,
        frozen: None,
        opened: false,
        stopped: false,
        tried: no_try(),
        course: started(0, 0, false),
    })
}
