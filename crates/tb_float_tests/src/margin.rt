//! Notes on worked values.
ghost use Rattle.std.specs.Prelude.{◌≡◌, pos};

use std::test::Fail;
use tb_margin::place_note;
use tb_node::{Margin, Name, Side, name_of};
use tb_param::{Choice, Params, defaults};

fn note(name: Name) -> Margin
    ensures left_height { result.left_height ≡ pos 8 }
    ensures left_depth { result.left_depth ≡ pos 3 }
    ensures right_height { result.right_height ≡ pos 8 }
    ensures right_depth { result.right_depth ≡ pos 4 }
{
    Margin {
        line: 1,
        name,
        left_height: 8,
        left_depth: 3,
        right_height: 8,
        right_depth: 4,
        nobreak: false,
    }
}

fn switched(on: bool) -> Choice {
    if on { Choice::On } else { Choice::Off }
}

#[test]
fn notes_stand_below_each_other(rt: HostRuntime) -> Result<(), Fail> {
    let name = name_of(b"n").ok_or("name")?;
    let p = Params {
        marginparpush: 2,
        ..defaults()
    };
    // The height of the page, the bottom of the notes before, and the shift and the bottom with this one.
    for (height, before, shift, bottom) in [
        (10u16, 0u16, 0, 16),
        (18, 16, 6, 30),
        (10, 2, 0, 16),
        (10, 3, 1, 17),
    ] {
        let placed = place_note(
            &note(name),
            &p,
            1,
            false,
            true,
            i64::from(height),
            i64::from(before),
        );
        assert!(rt; matches!(placed.side, Side::Right));
        assert_eq!(rt; placed.shift, shift);
        assert_eq!(rt; placed.bottom, bottom);
        assert_eq!(rt; placed.moved, shift > 0);
    }
    Ok(())
}

#[test]
fn sides_alternate(rt: HostRuntime) -> Result<(), Fail> {
    let name = name_of(b"n").ok_or("name")?;
    // The page, two columns, the first of them, the two switches, and whether the note goes left.
    let rows = [
        (1, false, true, false, false, false),
        (2, false, true, false, false, false),
        (1, false, true, true, false, false),
        (2, false, true, true, false, true),
        (1, false, true, false, true, true),
        (1, false, true, true, true, true),
        (2, false, true, true, true, false),
        (2, true, true, true, true, true),
        (2, true, false, true, true, false),
    ];
    for (page, two, first, switch, reverse, left) in rows {
        let p = Params {
            marginparpush: 0,
            mparswitch: switched(switch),
            reversemargin: switched(reverse),
            ..defaults()
        };
        let placed = place_note(&note(name), &p, page, two, first, 10, 0);
        assert_eq!(rt; matches!(placed.side, Side::Left), left, "on page {page}");
        assert_eq!(rt; placed.bottom, if left { 13 } else { 14 });
    }
    Ok(())
}
