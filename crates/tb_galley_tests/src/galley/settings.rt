//! Parameters that are set among the items.

use super::{first_fault, repeated};
use std::test::Fail;
use tb_galley::{parse, print};

// Where each kind of parameter may be set.
#[test]
fn finds_parameters_that_stand_elsewhere(rt: HostRuntime) -> Result<(), Fail> {
    let rows: [(&[u8], u32, u32, &[u8]); 24] = [
        // one that may be set anywhere
        (
            b"galley 3\nkern 0\nset topskip 20\nkern 0\nset parskip 1\nset bottom flush\nend",
            0,
            0,
            b"none",
        ),
        (b"galley 3\nfoot\nset topskip 5", 3, 1, b"SetAfterItem"),
        (
            b"galley 3\nfoot\nendfoot\nset topskip 5\nend",
            0,
            0,
            b"none",
        ),
        // a measure
        (
            b"galley 3\nclearpage\nset textheight 50\nset topskip 2\nset floatsep 3\nend",
            0,
            0,
            b"none",
        ),
        (b"galley 3\nonecolumn\nset topnumber 2\nend", 0, 0, b"none"),
        (
            b"galley 3\ntwocolumn\nset topskip 2\nset topfraction .5\nhead T 30\nend",
            0,
            0,
            b"none",
        ),
        (
            b"galley 3\nkern 0\nset textheight 50",
            3,
            1,
            b"SetAfterItem",
        ),
        (
            b"galley 3\nkern 0\nset topskip 2\nset fptop 0",
            4,
            1,
            b"SetAfterItem",
        ),
        (
            b"galley 3\nclearpage\nkern 0\nset textheight 50",
            4,
            1,
            b"SetAfterItem",
        ),
        (
            b"galley 3\ntwocolumn\nhead T 30\nset textheight 50",
            4,
            1,
            b"SetAfterItem",
        ),
        (
            b"galley 3\nnewpage\nset textheight 50",
            3,
            1,
            b"SetAfterItem",
        ),
        (
            b"galley 3\nclearpage\nfoot\nset textheight 50",
            4,
            1,
            b"SetAfterItem",
        ),
        // one that holds for the whole galley
        (b"galley 3\nclearpage\nset pool 5", 3, 1, b"SetAfterItem"),
        (b"galley 3\nkern 0\nset release 2014", 3, 1, b"SetAfterItem"),
        // a title behind parameters, and a class behind them
        (
            b"galley 3\nclearpage\nset topskip 2\nhead T 30",
            4,
            1,
            b"StrayHead",
        ),
        (
            b"galley 3\nkern 0\nset topskip 2\nhead T 30",
            4,
            1,
            b"StrayHead",
        ),
        (b"galley 3\nset topskip 2\nhead T 30", 3, 1, b"StrayHead"),
        (
            b"galley 3\nclearpage\nset topskip 2\nclass 3 0 0 0",
            4,
            1,
            b"SetAfterItem",
        ),
        // what stands before the header and after the end, and earlier versions
        (b"set topskip 5", 1, 1, b"NoHeader"),
        (b"galley 3\nend\nset topskip 5", 3, 1, b"AfterEnd"),
        (b"galley 2\nkern 0\nset topskip 5", 3, 1, b"SetAfterItem"),
        (b"galley 2\nkern 0\nset nothing", 3, 1, b"SetAfterItem"),
        (
            b"galley 1\nclearpage\nset textheight 50",
            3,
            1,
            b"SetAfterItem",
        ),
        (b"galley 1\nfoot\nset topskip 5", 3, 1, b"SetAfterItem"),
    ];
    for (text, line, field, cause) in rows {
        assert!(rt; first_fault(rt.alloc(), text) == (line, field, cause));
    }
    Ok(())
}

// What a line among the items may say.
#[test]
fn finds_faults_of_settings(rt: HostRuntime) -> Result<(), Fail> {
    let rows: [(&[u8], u32, u32, &[u8]); 9] = [
        (
            b"galley 3\nkern 0\nset nothing 5",
            3,
            2,
            b"UnknownParameter",
        ),
        (b"galley 3\nfoot\nset nothing 5", 3, 2, b"UnknownParameter"),
        (b"galley 3\nkern 0\nset", 3, 2, b"MissingField"),
        (b"galley 3\nfoot\nset", 3, 2, b"MissingField"),
        (b"galley 3\nkern 0\nset topskip", 3, 3, b"MissingField"),
        (b"galley 3\nkern 0\nset topskip 0", 3, 3, b"Parameter"),
        (b"galley 3\nkern 0\nset topskip x", 3, 3, b"BadNumber"),
        (b"galley 3\nkern 0\nset bottom keep", 3, 3, b"WrongForm"),
        (b"galley 3\nkern 0\nset topskip 5 5", 3, 4, b"ExtraField"),
    ];
    for (text, line, field, cause) in rows {
        assert!(rt; first_fault(rt.alloc(), text) == (line, field, cause));
    }
    // a parameter that is set among the items counts as an item, and one before them does not
    let mut items = Vec::from_slice(rt.alloc(), b"galley 3\nset topskip 1\nkern 0\n")?;
    items.extend_from_slice(repeated(rt.alloc(), b"set topskip 1\n", 100_000)?.as_slice())?;
    assert!(rt; first_fault(rt.alloc(), items.as_slice()) == (100_003, 1, b"Items".as_slice()));
    Ok(())
}

// The canonical text has each parameter where it is set.
#[test]
fn prints_parameters_among_the_items(rt: HostRuntime) -> Result<(), Fail> {
    let text = b"galley 3
set footrule 0 1pt -2
twocolumn
set dbltextfloatsep 7 plus 1fil
set topfraction .5
head T 30
enlarge 1pt star
page 7
float F 1 single th! 20 vert nobreak
margin N 1 2 3 4 par nobreak
set topskip 5
set footrule none
set bottom flush
end
"
        .as_slice();
    let Ok(galley) = parse(rt.alloc(), text) else {
        return Err("no galley")?;
    };
    let printed = print(rt.alloc(), &galley)?;
    let want = b"
set footplace above
twocolumn
set dbltextfloatsep 7 plus 65536sfil minus 0
set topfraction 32768/65536
head T 30
enlarge 65536 star
page 7
float F 1 single !ht 20 vert nobreak
margin N 1 2 3 4 par nobreak
set topskip 5
set footrule none
set bottom flush
end
"
        .as_slice();
    assert!(rt; printed.as_slice().ends_with(want));
    Ok(())
}
