//! The decisions on worked values.
ghost use Rattle.std.specs.Prelude.{◌≢◌};
ghost use Rattle.tb_node.specs.Fit.{IsExtent};
ghost use Rattle.tb_float.specs.Lists.{IsWaiting};
ghost use Rattle.tb_float.specs.Ranges.{AreFloatParams};

use crate::given::{NOT_SUPPRESSED, plain_params};
use std::test::Fail;
use tb_area::{add_current, add_double, add_next, fill_column, fill_double};
use tb_float::{Entry, Part, Pool, new_pool};
use tb_node::{Float, Name, Places, Where, name_of};
use tb_param::Params;

// The places that the letters name; `!` is no place.
fn places_of(letters: &str) -> Places {
    let bytes = letters.as_bytes();
    Places {
        h: bytes.contains(&b'h'),
        t: bytes.contains(&b't'),
        b: bytes.contains(&b'b'),
        p: bytes.contains(&b'p'),
    }
}

fn float_of(name: Name, class: u8, wide: bool, letters: &str, height: u8) -> Float
    ensures { IsExtent result.height }
{
    Float {
        line: 1,
        name,
        class,
        wide,
        places: places_of(letters),
        bang: letters.as_bytes().contains(&b'!'),
        height: i64::from(height),
        deep: false,
        nobreak: false,
    }
}

// The letter of a list, as in a float's places; `w` for above both columns, `d` for deferred.
fn letter(place: Where) -> char {
    match place {
        Where::Here => 'h',
        Where::Top => 't',
        Where::Bottom => 'b',
        Where::Page => 'p',
        Where::Double => 'w',
        Where::Deferred => 'd',
    }
}

fn part_of(place: Where) -> Part
    ensures { result ≢ Part.Current }
{
    match place {
        Where::Here => Part::Here,
        Where::Top => Part::Top,
        Where::Bottom => Part::Bottom,
        Where::Double => Part::Double,
        Where::Page | Where::Deferred => Part::Deferred,
    }
}

// Where the float goes in the current column; it goes there.
fn place_current(pool: &mut Pool, p: &Params, page_height: u8) -> Option<char>
    requires { AreFloatParams p.now }
{
    let Some(Entry::Float(_)) = pool.entry(Part::Current, 0) else {
        return None;
    };
    let place = add_current(pool, p, &NOT_SUPPRESSED, i64::from(page_height));
    pool.move_to(Part::Current, 0, part_of(place));
    Some(letter(place))
}

// Where a deferred float goes in the next column.
fn next(pool: &Pool, p: &Params, k: usize) -> Option<char>
    requires { AreFloatParams p.now }
{
    if k < pool.len(Part::Deferred) {
        Some(letter(add_next(pool, p, &NOT_SUPPRESSED, k)))
    } else {
        None
    }
}

// Where a float that waits goes after a pair of columns.
fn double(pool: &Pool, p: &Params, from: Part, k: usize) -> Option<char>
    requires params { AreFloatParams p.now }
    requires waiting { IsWaiting from }
{
    if k < pool.len(from) {
        Some(letter(add_double(pool, p, from, k)))
    } else {
        None
    }
}

#[test]
fn floats_go_where_they_fit(rt: HostRuntime) -> Result<(), Fail> {
    let name = name_of(b"F").ok_or("name")?;
    // How many floats the bottom takes, and two floats at page height 20: class, places, height and list of each.
    let rows = [
        (1, (1, "ht", 80, 'd'), (2, "ht", 80, 'd')),
        (1, (1, "ht", 79, 'h'), (2, "t", 1, 't')),
        (1, (1, "ht", 79, 'h'), (2, "t", 2, 'd')),
        (0, (1, "!b", 10, 'b'), (2, "b", 10, 'd')),
        (1, (1, "h", 20, 'h'), (1, "t", 10, 'd')),
        (1, (1, "p", 10, 'd'), (2, "b", 10, 'b')),
    ];
    for (number, first, second) in rows {
        let p = plain_params(number);
        let mut pool = new_pool(rt.alloc(), 18)?;
        for (class, letters, height, list) in [first, second] {
            assert!(rt;
                pool.take(float_of(name, class, false, letters, height))
                    .is_ok()
            );
            assert_eq!(rt;
                place_current(&mut pool, &p, 20),
                Some(list),
                "{letters} {height}"
            );
        }
    }
    Ok(())
}

#[test]
fn a_single_float_waits_for_the_double_one(rt: HostRuntime) -> Result<(), Fail> {
    let name = name_of(b"F").ok_or("name")?;
    let p = plain_params(1);
    let mut pool = new_pool(rt.alloc(), 18)?;
    assert!(rt; pool.take(float_of(name, 1, true, "t", 30)).is_ok());
    assert_eq!(rt; place_current(&mut pool, &p, 20), Some('d'));
    assert!(rt; pool.take(float_of(name, 1, false, "ht", 20)).is_ok());
    assert_eq!(rt; place_current(&mut pool, &p, 20), Some('d'));
    assert_eq!(rt; next(&pool, &p, 0), Some('d'));
    assert_eq!(rt; next(&pool, &p, 1), Some('d'));
    assert_eq!(rt; double(&pool, &p, Part::Deferred, 1), Some('d'));
    assert_eq!(rt; double(&pool, &p, Part::Deferred, 0), Some('w'));
    fill_double(&mut pool, &p, Part::Deferred);
    assert_eq!(rt; (pool.len(Part::Double), pool.len(Part::Deferred)), (1, 1));
    assert_eq!(rt; double(&pool, &p, Part::Deferred, 0), Some('d'));
    assert_eq!(rt; next(&pool, &p, 0), Some('t'));
    assert_eq!(rt; next(&pool, &p, 1), None);
    fill_column(&mut pool, &p, &NOT_SUPPRESSED);
    assert_eq!(rt; (pool.len(Part::Top), pool.len(Part::Deferred)), (1, 0));
    Ok(())
}

// The float is taken, and waits in one of the lists.
fn wait(pool: &mut Pool, f: Float, list: Part) -> bool
    requires extent { IsExtent f.height }
    requires waiting { IsWaiting list }
{
    if pool.take(f).is_err() {
        return false;
    }
    let Some(Entry::Float(_)) = pool.entry(Part::Current, 0) else {
        return false;
    };
    pool.move_to(Part::Current, 0, list);
    true
}

#[test]
fn a_double_float_passes_a_single_one_of_its_class_in_release_2014(
    rt: HostRuntime,
) -> Result<(), Fail> {
    let name = name_of(b"F").ok_or("name")?;
    let p = plain_params(1);
    let mut pool = new_pool(rt.alloc(), 18)?;
    assert!(rt; wait(&mut pool, float_of(name, 1, false, "t", 20), Part::Deferred));
    assert!(rt; wait(&mut pool, float_of(name, 1, true, "b", 30), Part::Second));
    assert!(rt; wait(&mut pool, float_of(name, 1, true, "t", 30), Part::Second));
    assert!(rt; wait(&mut pool, float_of(name, 2, true, "t", 30), Part::Second));
    assert_eq!(rt; double(&pool, &p, Part::Second, 1), Some('d'));
    assert_eq!(rt; double(&pool, &p, Part::Second, 2), Some('w'));
    fill_double(&mut pool, &p, Part::Second);
    assert_eq!(rt; (pool.len(Part::Double), pool.len(Part::Second)), (1, 2));
    assert_eq!(rt; pool.len(Part::Deferred), 1);
    Ok(())
}
