//! Titles over both columns, and pages that are made higher.

use super::{first_fault, repeated};
use std::test::Fail;
use tb_galley::{parse, print};

// Each cause that a title may have, by where it stands and by its fields.
#[test]
fn finds_faults_of_titles(rt: HostRuntime) -> Result<(), Fail> {
    let rows: [(&[u8], u32, u32, &[u8]); 25] = [
        (b"galley 3\ntwocolumn\nhead T 30\nend", 0, 0, b"none"),
        (b"galley 3\ntwocolumn\n# x\n\nhead T 0\nend", 0, 0, b"none"),
        (
            b"galley 3\nkern 0\ntwocolumn\nhead T 0.5pt\nkern 0\nend",
            0,
            0,
            b"none",
        ),
        (b"galley 3\nhead T 30", 2, 1, b"StrayHead"),
        (b"galley 3\nkern 0\nhead T 30", 3, 1, b"StrayHead"),
        (
            b"galley 3\ntwocolumn\nhead T 30\nhead U 30",
            4,
            1,
            b"StrayHead",
        ),
        (b"galley 3\ntwocolumn\nkern 0\nhead", 4, 1, b"StrayHead"),
        (b"galley 3\nfoot\nhead T 30", 3, 1, b"NotInFoot"),
        (b"galley 3\nend\nhead T 30", 3, 1, b"AfterEnd"),
        (b"head T 30", 1, 1, b"NoHeader"),
        (b"galley 2\ntwocolumn\nhead T 30", 3, 1, b"UnknownWord"),
        (b"galley 1\ntwocolumn\nhead", 3, 1, b"UnknownWord"),
        // else the place behind `twocolumn` is one among items
        (b"galley 3\ntwocolumn\nset pool 4", 3, 1, b"SetAfterItem"),
        (b"galley 3\ntwocolumn\nclass 3 0 0 0", 3, 1, b"SetAfterItem"),
        (b"galley 3\ntwocolumn\nendfoot", 3, 1, b"StrayEndfoot"),
        (b"galley 3\ntwocolumn\ngalley 3", 3, 1, b"UnknownWord"),
        (b"galley 3\ntwocolumn", 3, 0, b"NoEnd"),
        // its fields
        (b"galley 3\ntwocolumn\nhead", 3, 2, b"MissingField"),
        (b"galley 3\ntwocolumn\nhead +", 3, 2, b"BadName"),
        (b"galley 3\ntwocolumn\nhead T", 3, 3, b"MissingField"),
        (b"galley 3\ntwocolumn\nhead T -1", 3, 3, b"Dimension"),
        (
            b"galley 3\ntwocolumn\nhead T 1073741824",
            3,
            3,
            b"Dimension",
        ),
        (b"galley 3\ntwocolumn\nhead T 3.", 3, 3, b"BadUnit"),
        (b"galley 3\ntwocolumn\nhead T x", 3, 3, b"BadNumber"),
        (b"galley 3\ntwocolumn\nhead T 30 0", 3, 4, b"ExtraField"),
    ];
    for (text, line, field, cause) in rows {
        assert!(rt; first_fault(rt.alloc(), text) == (line, field, cause));
    }
    Ok(())
}

// Each cause that a line of `enlarge` may have.
#[test]
fn finds_faults_of_higher_pages(rt: HostRuntime) -> Result<(), Fail> {
    let rows: [(&[u8], u32, u32, &[u8]); 11] = [
        (
            b"galley 3\nenlarge 5\nenlarge -5pt\nenlarge 5 star\nend",
            0,
            0,
            b"none",
        ),
        (b"galley 3\nenlarge", 2, 2, b"MissingField"),
        (b"galley 3\nenlarge star", 2, 2, b"BadNumber"),
        (b"galley 3\nenlarge 5.", 2, 2, b"BadUnit"),
        (b"galley 3\nenlarge -1073741824", 2, 2, b"Dimension"),
        (b"galley 3\nenlarge 5 stars", 2, 3, b"UnknownWord"),
        (b"galley 3\nenlarge 5 star 5", 2, 4, b"ExtraField"),
        (b"galley 3\nfoot\nenlarge 5", 3, 1, b"NotInFoot"),
        (b"galley 3\nend\nenlarge 5", 3, 1, b"AfterEnd"),
        (b"galley 2\nenlarge 5", 2, 1, b"UnknownWord"),
        (b"galley 1\nenlarge", 2, 1, b"UnknownWord"),
    ];
    for (text, line, field, cause) in rows {
        assert!(rt; first_fault(rt.alloc(), text) == (line, field, cause));
    }
    let mut items = Vec::from_slice(rt.alloc(), b"galley 3\n")?;
    items.extend_from_slice(repeated(rt.alloc(), b"enlarge 1\n", 100_001)?.as_slice())?;
    assert!(rt; first_fault(rt.alloc(), items.as_slice()) == (100_002, 1, b"Items".as_slice()));
    Ok(())
}

// The canonical text of both words.
#[test]
fn prints_titles(rt: HostRuntime) -> Result<(), Fail> {
    let text = b"galley 3\ntwocolumn\nhead T 1pt\nenlarge 1pt star\nenlarge -3\nend".as_slice();
    let Ok(galley) = parse(rt.alloc(), text) else {
        return Err("no galley")?;
    };
    let printed = print(rt.alloc(), &galley)?;
    let want = b"\ntwocolumn\nhead T 65536\nenlarge 65536 star\nenlarge -3\nend\n".as_slice();
    assert!(rt; printed.as_slice().ends_with(want));
    Ok(())
}
