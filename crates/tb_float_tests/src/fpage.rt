//! Columns of floats on worked values.
ghost use Rattle.std.specs.Prelude.{◌≢◌, IfOk};
ghost use Rattle.tb_float.specs.Pool.{HasNoMarks};
ghost use Rattle.tb_float.specs.Ranges.{IsExtent};

use std::test::Fail;
use tb_float::{Entry, Part, Pool, new_pool};
use tb_fpage::choose;
use tb_node::{Float, Name, Places, name_of};

const ON_A_PAGE: Places = Places {
    h: false,
    t: false,
    b: false,
    p: true,
};

const AT_THE_TOP: Places = Places {
    h: false,
    t: true,
    b: false,
    p: false,
};

fn float_of(name: Name, wide: bool, places: Places, height: u8, class: u8) -> Float
    ensures { IsExtent result.height }
{
    Float {
        line: 1,
        name,
        class,
        wide,
        places,
        bang: false,
        height: i64::from(height),
        deep: false,
        nobreak: false,
    }
}

// The float waits in the list, if the pool has room for it.
fn wait(pool: &mut Pool, f: Float, list: Part)
    requires extent { IsExtent f.height }
    requires apart { list ≢ Part.Current }
    requires unmarked { HasNoMarks pool.old }
    ensures { HasNoMarks pool.new }
{
    if pool.take(f).is_err() {
        return;
    }
    if let Some(Entry::Float(_)) = pool.entry(Part::Current, 0) {
        pool.move_to(Part::Current, 0, list);
    }
}

// A pool whose deferred floats may go to these places and have these heights and classes.
fn deferred(rt: &HostRuntime, places: Places, floats: &[(u8, u8)]) -> Result<Pool, Fail>
    ensures { IfOk result (λ pool. HasNoMarks pool) }
{
    let name = name_of(b"F").ok_or("name")?;
    let mut pool = new_pool(rt.alloc(), 18)?;
    for (height, class) in floats {
        wait(
            &mut pool,
            float_of(name, false, places, *height, *class),
            Part::Deferred,
        );
    }
    Ok(pool)
}

// The height of the first marked float, which leaves the pool.
fn next_marked(pool: &mut Pool) -> Option<i64> {
    pool.retire_marked(Part::Deferred).map(|f| f.height)
}

#[test]
fn a_company_of_one_class_with_a_separator(rt: HostRuntime) -> Result<(), Fail> {
    let mut pool = deferred(&rt, ON_A_PAGE, &[(60, 1), (30, 1), (50, 2)])?;
    assert!(rt; choose(&mut pool, 100, 50, 5, false, false, Part::Deferred));
    assert_eq!(rt; next_marked(&mut pool), Some(60));
    assert_eq!(rt; next_marked(&mut pool), Some(30));
    assert!(rt; next_marked(&mut pool).is_none());
    assert_eq!(rt; pool.len(Part::Deferred), 1);
    Ok(())
}

#[test]
fn the_second_head_has_its_company_made(rt: HostRuntime) -> Result<(), Fail> {
    let mut pool = deferred(&rt, ON_A_PAGE, &[(30, 1), (70, 2)])?;
    assert!(rt; choose(&mut pool, 90, 50, 0, false, false, Part::Deferred));
    assert_eq!(rt; next_marked(&mut pool), Some(70));
    assert!(rt; next_marked(&mut pool).is_none());
    Ok(())
}

#[test]
fn a_class_that_failed_heads_no_company(rt: HostRuntime) -> Result<(), Fail> {
    let mut pool = deferred(&rt, ON_A_PAGE, &[(30, 1), (40, 1)])?;
    assert!(rt; !choose(&mut pool, 60, 30, 0, false, false, Part::Deferred));
    assert!(rt; next_marked(&mut pool).is_none());
    assert_eq!(rt; pool.len(Part::Deferred), 2);
    Ok(())
}

#[test]
fn a_company_exceeds_the_minimum(rt: HostRuntime) -> Result<(), Fail> {
    let mut pool = deferred(&rt, ON_A_PAGE, &[(50, 1)])?;
    assert!(rt; !choose(&mut pool, 100, 50, 0, false, false, Part::Deferred));
    assert!(rt; !choose(&mut pool, 49, 0, 0, false, false, Part::Deferred));
    assert!(rt; !choose(&mut pool, 100, 0, 0, false, true, Part::Deferred));
    assert!(rt; choose(&mut pool, 100, 49, 0, false, false, Part::Deferred));
    assert_eq!(rt; next_marked(&mut pool), Some(50));
    Ok(())
}

#[test]
fn a_clear_takes_the_first_company(rt: HostRuntime) -> Result<(), Fail> {
    let mut pool = deferred(&rt, AT_THE_TOP, &[(20, 1), (90, 2), (30, 1)])?;
    assert!(rt; !choose(&mut pool, 100, 0, 0, false, false, Part::Deferred));
    assert!(rt; choose(&mut pool, 100, 60, 0, true, false, Part::Deferred));
    assert_eq!(rt; next_marked(&mut pool), Some(20));
    assert_eq!(rt; next_marked(&mut pool), Some(30));
    assert!(rt; next_marked(&mut pool).is_none());
    Ok(())
}

#[test]
fn a_wide_company_is_of_the_second_list(rt: HostRuntime) -> Result<(), Fail> {
    let name = name_of(b"F").ok_or("name")?;
    let mut pool = deferred(&rt, ON_A_PAGE, &[(60, 1)])?;
    wait(
        &mut pool,
        float_of(name, true, ON_A_PAGE, 60, 1),
        Part::Second,
    );
    wait(
        &mut pool,
        float_of(name, true, ON_A_PAGE, 50, 2),
        Part::Second,
    );
    wait(
        &mut pool,
        float_of(name, true, ON_A_PAGE, 20, 1),
        Part::Second,
    );
    assert!(rt; choose(&mut pool, 100, 50, 5, false, true, Part::Second));
    assert!(rt; pool.retire_marked(Part::Deferred).is_none());
    assert_eq!(rt;
        pool.retire_marked(Part::Second).map(|f| f.height),
        Some(60)
    );
    assert_eq!(rt;
        pool.retire_marked(Part::Second).map(|f| f.height),
        Some(20)
    );
    assert!(rt; pool.retire_marked(Part::Second).is_none());
    assert_eq!(rt; (pool.len(Part::Deferred), pool.len(Part::Second)), (1, 1));
    Ok(())
}
