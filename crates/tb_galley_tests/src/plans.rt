//! Page breaks put into a galley.
use std::test::Fail;
use tb_galley::{Item, ItemKind, parse};
use tb_plans::{places, with_breaks};

// Each kind of place, and items that are none.
const GALLEY: &[u8] = b"galley 1
box a 10 0
glue 1
kern 5
glue 2
kern 5
box b 10 0
penalty 50
penalty 10000
penalty -10000
mark m
suppressfloats
glue 3
float F 1 single t 5 par
box c 10 0
margin n 1 0 1 0 par
kern 3
pagebreak 3
pagebreak 4
nopagebreak 4
nopagebreak 0
kern 1
suppressfloats t
glue 4
newpage
glue 5
foot
box d 5 0
endfoot
glue 6
end
";

#[test]
fn finds_the_places_of_a_galley(rt: HostRuntime) -> Result<(), Fail> {
    let galley = match parse(rt.alloc(), GALLEY) {
        Ok(galley) => galley,
        Err(_) => Err("no galley")?,
    };
    let found = places(rt.alloc(), &galley)?;
    assert!(rt; found.as_slice() == [1, 2, 6, 11, 13, 15, 16, 19, 20, 26].as_slice());
    Ok(())
}

// A break is on the line of the item after it.
fn is_break(item: Option<&Item>, line: u32) -> bool {
    match item {
        Some(
            Item {
                line: on,
                kind: ItemKind::Penalty(-10_000),
            },
        ) => *on == line,
        _ => false,
    }
}

#[test]
fn puts_breaks_into_a_galley(rt: HostRuntime) -> Result<(), Fail> {
    let galley = match parse(rt.alloc(), GALLEY) {
        Ok(galley) => galley,
        Err(_) => Err("no galley")?,
    };
    let broken = with_breaks(rt.alloc(), &galley, &[1, 13])?;
    assert!(rt; (galley.items.len(), broken.items.len()) == (27, 29));
    assert!(rt; is_break(broken.items.get(1), 3) && is_break(broken.items.get(14), 15));
    assert!(rt;
        (
            broken.items.get(0).is_some_and(|item| item.line == 2),
            broken.end_line
        ) == (true, galley.end_line)
    );
    Ok(())
}

// A parameter that is set is looked past, and no break parts it from the clear before it.
#[test]
fn looks_past_parameters(rt: HostRuntime) -> Result<(), Fail> {
    let text = b"galley 3
box a 10 0
set topskip 5
glue 1
clearpage
set textheight 50
set topskip 6
glue 2
box b 10 0
end
"
        .as_slice();
    let Ok(galley) = parse(rt.alloc(), text) else {
        return Err("no galley")?;
    };
    assert!(rt; places(rt.alloc(), &galley)?.as_slice() == [2].as_slice());
    let broken = with_breaks(rt.alloc(), &galley, &[2])?;
    assert!(rt; is_break(broken.items.get(2), 4) && broken.items.len() == 9);
    Ok(())
}
