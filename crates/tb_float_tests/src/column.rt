//! Worked pages: insertions of two classes under a text, two columns under a wide float, and floats alone.

ghost use Rattle.std.specs.Prelude.{◌≡◌, ◌≢◌, None, length, IfOk};
ghost use Rattle.tb_pool.specs.Lists.{IsLive, list_at};
ghost use Rattle.tb_column.specs.Page.{IsPageList};
ghost use Rattle.tb_column.specs.Ranges.{AreColumnParams, IsSizedGlue};
ghost use Rattle.tb_column.specs.ColumnChanges.{IsOpened};

use std::alloc::AllocError;
use std::test::Fail;
use tb_column::{
    Column, ColumnKind, Enlarged, NoteBox, float_column, make_column, pair_tops, push_made,
};
use tb_float::{Entry, Part, Pool, new_pool};
use tb_node::{Float, Kind, Node, Places, What, name_of};
use tb_param::{Choice, Params, defaults};
use tb_pool::{ListId, Lists};
use tb_scaled::{Glue, Order, filling_glue, fixed};

#[test]
fn insertions_of_two_classes_stand_under_a_text(rt: HostRuntime) -> Result<(), Fail> {
    let mut store = Lists::new(rt.alloc());
    let mut pool = new_pool(rt.alloc(), 2)?;
    let body = list_of(&mut store, 10, filling_glue())?;
    let third = list_of(&mut store, 10, fixed(0))?;
    let feet = list_of(&mut store, 10, fixed(0))?;
    let notes = [note_box(3, third), note_box(254, feet)];
    let column = make_column(
        &mut store,
        &mut pool,
        &params(40),
        body,
        &notes,
        &Enlarged::No,
    )?;
    assert_eq!(rt; sizes(&column), (40, 30, 10, 65536, 0));
    assert!(rt; matches!(column.kind, ColumnKind::Text));
    assert!(rt; is_made_of(&store, column.list, b"bggbggkrkbgg"));
    assert_eq!(rt; (store.len(third), store.len(feet)), (0, 0));
    Ok(())
}

#[test]
fn a_column_stands_under_a_wide_float(rt: HostRuntime) -> Result<(), Fail> {
    let mut store = Lists::new(rt.alloc());
    let mut pool = new_pool(rt.alloc(), 3)?;
    put(&mut pool, 30, Part::Double)?;
    put(&mut pool, 20, Part::Top)?;
    put(&mut pool, 5, Part::Bottom)?;
    let body = list_of(&mut store, 10, filling_glue())?;
    let column = make_column(
        &mut store,
        &mut pool,
        &params(100),
        body,
        &[],
        &Enlarged::No,
    )?;
    assert_eq!(rt; sizes(&column), (70, 35, 35, 65536, 0));
    assert!(rt; is_made_of(&store, column.list, b"bgggbggbggg"));
    let tops = pair_tops(&mut store, &mut pool, &params(100))?;
    assert!(rt; is_made_of(&store, tops, b"bggg"));
    assert_eq!(rt; pool.live(), 0);
    Ok(())
}

#[test]
fn floats_stand_alone(rt: HostRuntime) -> Result<(), Fail> {
    let mut store = Lists::new(rt.alloc());
    let mut pool = new_pool(rt.alloc(), 3)?;
    for height in [10, 20, 40] {
        put(&mut pool, height, Part::Second)?;
    }
    if pool.len(Part::Second) != 3 {
        return Err("not put")?;
    }
    pool.mark(Part::Second, 0);
    pool.mark(Part::Second, 1);
    let column = float_column(&mut store, &mut pool, &params(40), 50, false, Part::Second)?;
    assert_eq!(rt; sizes(&column), (50, 36, 14, 12, 0));
    assert!(rt; matches!(column.kind, ColumnKind::Floats));
    assert!(rt; is_made_of(&store, column.list, b"gggbgbg"));
    assert_eq!(rt; pool.len(Part::Second), 1);
    Ok(())
}

// The height, the natural height, the share of the glue, and by how much the column is overfull.
fn sizes(column: &Column) -> (i64, i64, i64, i64, i64) {
    let set = &column.set;
    (set.height, set.natural, set.num, set.den, set.over)
}

// Whether the list has these nodes: boxes, glue, kerns and rules.
fn is_made_of(store: &Lists<Node>, l: ListId, letters: &[u8]) -> bool
    requires { IsLive store.now l }
{
    let mut k = 0;
    'nodes: for node in store.iter(l) {
        if k >= letters.len() || letters[k] != letter_of(node) {
            return false;
        }
        k += 1;
    }
    k == letters.len()
}

fn letter_of(node: &Node) -> u8 {
    match node.kind {
        Kind::Hbox { .. } => b'b',
        Kind::Skip(_) => b'g',
        Kind::Kern(_) => b'k',
        Kind::Rule { .. } => b'r',
        _ => b'?',
    }
}

fn glue_of(width: u8, stretch: u8) -> Glue
    ensures { IsSizedGlue result }
{
    Glue {
        width: i64::from(width),
        stretch: i64::from(stretch),
        order: Order::Normal,
        shrink: 0,
    }
}

// A page of this height, with glue about the floats of a column of floats alone.
fn params(height: u8) -> Params
    ensures { AreColumnParams result }
{
    let none = glue_of(0, 0);
    Params {
        textheight: i64::from(height),
        maxdepth: 0,
        bottom: Choice::Flush,
        skipfootins: none,
        textfloatsep: none,
        floatsep: none,
        dbltextfloatsep: none,
        dblfloatsep: none,
        fptop: glue_of(1, 3),
        fpsep: glue_of(2, 4),
        fpbot: glue_of(3, 5),
        ..defaults()
    }
}

fn note_box(class: u8, list: ListId) -> NoteBox
    ensures class { result.class ≡ class }
    ensures list { result.list ≡ list }
    ensures below { result.below ≡ None }
    ensures skip { IsSizedGlue result.skip }
{
    NoteBox {
        class,
        below: None,
        skip: glue_of(0, 0),
        list,
    }
}

// A new list of a box of this height, and of this glue.
fn list_of(store: &mut Lists<Node>, height: u8, glue: Glue) -> Result<ListId, AllocError>
    requires { IsSizedGlue glue }
    ensures page { IfOk result (λ l. IsPageList store.new l) }
    ensures two { IfOk result (λ l. length (list_at store.new l) ≡ 2) }
    ensures opened { IfOk result (λ l. IsOpened l store.old store.new) }
{
    store.reserve(2)?;
    let l = store.add_list()?;
    push_made(
        store,
        l,
        Kind::Hbox {
            what: What::Blank,
            height: i64::from(height),
            depth: 0,
        },
    );
    push_made(store, l, Kind::Skip(glue));
    Ok(l)
}

// Puts a float of this height at the end of a list of a pool in which none was taken.
fn put(pool: &mut Pool, height: u8, part: Part) -> Result<(), Fail>
    requires { Part.Current ≢ part }
{
    let float = Float {
        line: 1,
        name: name_of(b"F").ok_or("name")?,
        class: 1,
        wide: false,
        places: Places {
            h: true,
            t: true,
            b: true,
            p: true,
        },
        bang: false,
        height: i64::from(height),
        deep: false,
        nobreak: false,
    };
    if pool.take(float).is_err() {
        return Err("full")?;
    }
    if let Some(Entry::Float(_)) = pool.entry(Part::Current, 0) {
        pool.move_to(Part::Current, 0, part);
    }
    Ok(())
}
