//! The classes of a galley.

use super::CANONICAL_SETS;
use std::alloc::Global;
use std::test::Fail;
use tb_galley::{ClassLine, Classes, Galley, Items, parse, print};
use tb_param::defaults;
use tb_scaled::{Glue, Order};

fn class_line(number: u8) -> ClassLine {
    ClassLine {
        line: 2,
        number,
        factor: 1000,
        limit: 5,
        below: None,
        skip: Glue {
            width: 1,
            stretch: 2,
            order: Order::Fil,
            shrink: 3,
        },
    }
}

// The galley of a text.
fn read(alloc: Global, text: &[u8]) -> Result<Galley, Fail> {
    match parse(alloc, text) {
        Ok(galley) => Ok(galley),
        Err(_) => Err("no galley")?,
    }
}

// The canonical text of a galley of version 2 without items that has these class lines.
fn with_classes(alloc: Global, lines: &[u8]) -> Result<Vec<u8>, Fail> {
    let mut text = Vec::from_slice(alloc, b"galley 2\n")?;
    text.extend_from_slice(CANONICAL_SETS)?;
    text.extend_from_slice(b"set release 2015\n")?;
    text.extend_from_slice(lines)?;
    text.extend_from_slice(b"end\n")?;
    Ok(text)
}

// The classes of a galley by their calls, and their lines.
#[test]
fn keeps_classes_in_order(rt: HostRuntime) -> Result<(), Fail> {
    let mut classes = Classes::new(rt.alloc());
    assert!(rt; classes.is_empty());
    classes.push(class_line(3))?;
    let galley = Galley {
        params: defaults(),
        version: 2,
        classes,
        items: Items::new(rt.alloc()),
        end_line: 2,
    };
    let want = with_classes(rt.alloc(), b"class 3 1000 5 1 plus 2sfil minus 3\n")?;
    assert!(rt; print(rt.alloc(), &galley)?.as_slice() == want.as_slice());
    let two = read(
        rt.alloc(),
        b"galley 2\nclass 3 1000 5 1\nclass 253 1000 5 1\nend",
    )?;
    let classes = &two.classes;
    assert_eq!(rt; (classes.len(), classes.as_slice().len()), (2, 2));
    assert!(rt; classes.get(1).map(|class| class.number) == Some(253));
    assert!(rt; classes.get(2).is_none());
    let galley = read(
        rt.alloc(),
        b"galley 2\nclass 3 1000 5 1 plus 2sfil minus 3\nclass 253 1000 5 1 plus 2sfil minus 3\nclass 7 1000 5 1 plus 2sfil minus 3\nclass 0 1000 5 1 plus 2sfil minus 3\nclass 7 500 5 1 plus 2sfil minus 3\nclass 253 1000 6 1 plus 2sfil minus 3\nend",
    )?;
    let want = with_classes(
        rt.alloc(),
        b"class 0 1000 5 1 plus 2sfil minus 3\nclass 3 1000 5 1 plus 2sfil minus 3\nclass 7 500 5 1 plus 2sfil minus 3\nclass 253 1000 6 1 plus 2sfil minus 3\n",
    )?;
    assert!(rt; print(rt.alloc(), &galley)?.as_slice() == want.as_slice());
    Ok(())
}
