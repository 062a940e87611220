//! The float pool's calls on worked values.
ghost use Rattle.std.specs.Prelude.{◌≡◌, ◌≢◌};

use crate::given::{NOT_SUPPRESSED, plain_params};
use std::test::Fail;
use tb_float::{Entry, Limit, Part, Pool, new_pool};
use tb_node::{Float, Margin, Name, Places, name_of};

const ANYWHERE: Places = Places {
    h: true,
    t: true,
    b: true,
    p: true,
};

const ON_A_PAGE: Places = Places {
    h: false,
    t: false,
    b: false,
    p: true,
};

fn float_of(name: Name, class: u8, height: i64) -> Float
    ensures { result.height ≡ height }
{
    Float {
        line: 1,
        name,
        class,
        wide: false,
        places: ANYWHERE,
        bang: false,
        height,
        deep: false,
        nobreak: false,
    }
}

// The first of a list goes to another, if it is a float.
fn move_first(pool: &mut Pool, from: Part, to: Part) -> bool
    requires { from ≢ to }
{
    let Some(Entry::Float(_)) = pool.entry(from, 0) else {
        return false;
    };
    pool.move_to(from, 0, to);
    true
}

// The first of a list may go on a page of floats alone, if it is a float.
fn send_to_page(pool: &mut Pool, p: Part) -> bool {
    let Some(Entry::Float(_)) = pool.entry(p, 0) else {
        return false;
    };
    pool.set_places(p, 0, ON_A_PAGE);
    true
}

// The heights of a list's floats, read as digits.
fn heights(pool: &Pool, p: Part) -> i64 {
    let mut digits = 0i64;
    for entry in pool.entries(p) {
        if let Entry::Float(f) = entry {
            digits = digits.wrapping_mul(10).wrapping_add(f.height);
        }
    }
    digits
}

#[test]
fn a_copy_has_the_floats_of_the_pool(rt: HostRuntime) -> Result<(), Fail> {
    let name = name_of(b"F").ok_or("name")?;
    let mut pool = new_pool(rt.alloc(), 2)?;
    assert!(rt; pool.take(float_of(name, 1, 5)).is_ok());
    let mut copy = pool.copy(rt.alloc())?;
    assert!(rt; copy.take(float_of(name, 1, 6)).is_ok());
    assert!(rt; copy.take(float_of(name, 1, 7)).is_err());
    assert_eq!(rt; heights(&copy, Part::Current), 56);
    assert_eq!(rt; heights(&pool, Part::Current), 5);
    Ok(())
}

#[test]
fn a_pool_of_two_is_full_at_two(rt: HostRuntime) -> Result<(), Fail> {
    let name = name_of(b"F").ok_or("name")?;
    let mut pool = new_pool(rt.alloc(), 2)?;
    assert!(rt; pool.take(float_of(name, 1, 5)).is_ok());
    assert!(rt; pool.take(float_of(name, 1, 6)).is_ok());
    assert_eq!(rt;
        pool.take(float_of(name, 1, 7)).err().map(|e| e.live),
        Some(2)
    );
    assert_eq!(rt; heights(&pool, Part::Current), 56);
    assert!(rt; pool.retire(Part::Current).is_some());
    assert!(rt; pool.take(float_of(name, 1, 8)).is_ok());
    assert_eq!(rt; heights(&pool, Part::Current), 68);
    Ok(())
}

#[test]
fn a_top_float_takes_its_room(rt: HostRuntime) -> Result<(), Fail> {
    let name = name_of(b"F").ok_or("name")?;
    let p = plain_params(1);
    let mut pool = new_pool(rt.alloc(), 18)?;
    assert_eq!(rt; pool.room(&p, Part::Top), 69);
    assert_eq!(rt; pool.column_room(&p), 100);
    assert!(rt; pool.take(float_of(name, 1, 50)).is_ok());
    assert!(rt; move_first(&mut pool, Part::Current, Part::Top));
    assert_eq!(rt; pool.room(&p, Part::Top), 19);
    assert_eq!(rt; pool.column_room(&p), 50);
    assert_eq!(rt; pool.column_height(&p), 100);
    assert_eq!(rt; pool.count_left(&p, &NOT_SUPPRESSED, Limit::Top, false), 1);
    assert_eq!(rt; pool.text_room(&p), 0);
    Ok(())
}

#[test]
fn places_are_used_again(rt: HostRuntime) -> Result<(), Fail> {
    let name = name_of(b"F").ok_or("name")?;
    let mut pool = new_pool(rt.alloc(), 18)?;
    for _round in 0..1000 {
        assert!(rt; pool.take(float_of(name, 1, 5)).is_ok());
        assert!(rt; move_first(&mut pool, Part::Current, Part::Deferred));
        assert!(rt; move_first(&mut pool, Part::Deferred, Part::Top));
        assert!(rt; pool.retire(Part::Top).is_some());
        assert_eq!(rt; pool.live(), 0);
    }
    Ok(())
}

// A float of this class goes to the deferred ones.
fn defer(pool: &mut Pool, name: Name, class: u8) -> bool {
    pool.take(float_of(name, class, 5)).is_ok() && move_first(pool, Part::Current, Part::Deferred)
}

// The places of the deferred floats that are the first of their class, read as digits, if they are known.
fn first_places(pool: &Pool) -> Option<usize> {
    let Some(firsts) = pool.firsts(Part::Deferred) else {
        return None;
    };
    let mut digits = 0usize;
    for first in firsts {
        digits = digits.wrapping_mul(10).wrapping_add(first.place);
    }
    Some(digits)
}

#[test]
fn first_floats_are_known_until_one_leaves(rt: HostRuntime) -> Result<(), Fail> {
    let name = name_of(b"F").ok_or("name")?;
    let mut pool = new_pool(rt.alloc(), 18)?;
    assert!(rt; defer(&mut pool, name, 1) && defer(&mut pool, name, 1));
    assert!(rt; defer(&mut pool, name, 2) && defer(&mut pool, name, 1));
    assert!(rt; defer(&mut pool, name, 3));
    assert_eq!(rt; first_places(&pool), None);
    pool.find_firsts(Part::Deferred);
    assert_eq!(rt; first_places(&pool), Some(24));
    assert!(rt; defer(&mut pool, name, 2));
    assert_eq!(rt; first_places(&pool), Some(24));
    assert!(rt; move_first(&mut pool, Part::Deferred, Part::Top));
    assert_eq!(rt; first_places(&pool), None);
    pool.find_firsts(Part::Deferred);
    assert_eq!(rt; first_places(&pool), Some(13));
    assert!(rt; defer(&mut pool, name, 4));
    assert_eq!(rt; first_places(&pool), None);
    Ok(())
}

// A pool whose deferred floats have these heights, of a class each.
fn deferred(rt: &HostRuntime, name: Name) -> Result<Pool, Fail> {
    let mut pool = new_pool(rt.alloc(), 18)?;
    for class in 1..=3u8 {
        if pool.take(float_of(name, class, i64::from(class))).is_err()
            || !move_first(&mut pool, Part::Current, Part::Deferred)
        {
            return Err("not deferred")?;
        }
    }
    Ok(pool)
}

#[test]
fn marked_floats_leave_first(rt: HostRuntime) -> Result<(), Fail> {
    let name = name_of(b"F").ok_or("name")?;
    let mut pool = deferred(&rt, name)?;
    assert_eq!(rt; pool.len(Part::Deferred), 3);
    pool.mark(Part::Deferred, 1);
    pool.mark(Part::Deferred, 2);
    assert_eq!(rt;
        pool.retire_marked(Part::Deferred).map(|f| f.height),
        Some(2)
    );
    assert_eq!(rt;
        pool.retire_marked(Part::Deferred).map(|f| f.height),
        Some(3)
    );
    assert!(rt; pool.retire_marked(Part::Deferred).is_none());
    assert_eq!(rt; heights(&pool, Part::Deferred), 1);
    Ok(())
}

#[test]
fn floats_join_and_change(rt: HostRuntime) -> Result<(), Fail> {
    let name = name_of(b"F").ok_or("name")?;
    let mut pool = deferred(&rt, name)?;
    assert!(rt; move_first(&mut pool, Part::Deferred, Part::Top));
    assert!(rt; !pool.has_class(Part::Deferred, 1));
    assert!(rt; pool.has_class_before(Part::Deferred, 1, 2));
    pool.join_front(Part::Top, Part::Deferred);
    assert_eq!(rt; heights(&pool, Part::Deferred), 123);
    assert!(rt; send_to_page(&mut pool, Part::Deferred));
    let Some(Entry::Float(f)) = pool.entry(Part::Deferred, 0) else {
        return Err("no float")?;
    };
    assert!(rt; f.places.p && !f.places.h);
    Ok(())
}

#[test]
fn a_note_takes_two_boxes(rt: HostRuntime) -> Result<(), Fail> {
    let name = name_of(b"m").ok_or("name")?;
    let note = Margin {
        line: 1,
        name,
        left_height: 5,
        left_depth: 0,
        right_height: 5,
        right_depth: 0,
        nobreak: false,
    };
    let mut pool = new_pool(rt.alloc(), 2)?;
    assert!(rt; pool.take_margin(note).is_ok());
    assert!(rt; matches!(pool.entry(Part::Current, 0), Some(Entry::Left(_))));
    assert!(rt; matches!(pool.retire(Part::Current), Some(Entry::Left(_))));
    assert!(rt; matches!(pool.retire(Part::Current), Some(Entry::Right(_))));
    assert_eq!(rt; pool.live(), 0);
    Ok(())
}
