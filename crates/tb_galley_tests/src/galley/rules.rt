//! The parameters of version 3: rules, the glue of a column's ends, and how footnotes stand.

use super::first_fault;
use std::test::Fail;

// Each cause that version 3 adds, and what the versions before it say of the same.
#[test]
fn finds_faults_of_rules(rt: HostRuntime) -> Result<(), Fail> {
    let rows: [(&[u8], u32, u32, &[u8]); 50] = [
        (b"galley 3\nend", 0, 0, b"none"),
        (b"galley 03\nend", 1, 2, b"NoHeader"),
        (b"galley 3 x", 1, 3, b"ExtraField"),
        // classes and the release are there too
        (
            b"galley 3\nclass 4 0 0 0\nset release 2014\nfoot 4\nendfoot\nend",
            0,
            0,
            b"none",
        ),
        (b"galley 3\nfoot 4", 2, 2, b"Class"),
        // rules
        (b"galley 3\nset footrule none\nend", 0, 0, b"none"),
        (b"galley 3\nset footrule 2 3 1\nend", 0, 0, b"none"),
        (
            b"galley 3\nset footrule -1073741823 1073741823 -1073741823\nend",
            0,
            0,
            b"none",
        ),
        (
            b"galley 3\nset footrule -3pt 0.4pt 2.6pt\nend",
            0,
            0,
            b"none",
        ),
        (b"galley 3\nset footrule 2 -3 1", 2, 4, b"Parameter"),
        (
            b"galley 3\nset toprule 2 3 -1\nset bottomrule none\nset dblrule 0 0 0\nend",
            0,
            0,
            b"none",
        ),
        (b"galley 3\nset footrule", 2, 3, b"MissingField"),
        (b"galley 3\nset footrule 2", 2, 4, b"MissingField"),
        (b"galley 3\nset footrule 2 3", 2, 5, b"MissingField"),
        (b"galley 3\nset footrule 2 3 1 1", 2, 6, b"ExtraField"),
        (b"galley 3\nset footrule none 1", 2, 4, b"ExtraField"),
        (b"galley 3\nset footrule None", 2, 3, b"BadNumber"),
        (b"galley 3\nset footrule 2 none 1", 2, 4, b"BadNumber"),
        (b"galley 3\nset footrule 2. 3 1", 2, 3, b"BadUnit"),
        (b"galley 3\nset footrule 1073741824 3 1", 2, 3, b"Dimension"),
        (b"galley 3\nset footrule 2 1073741824 1", 2, 4, b"Dimension"),
        (
            b"galley 3\nset footrule 2 3 -1073741824",
            2,
            5,
            b"Dimension",
        ),
        (b"galley 3\nset footrule 2 \xff 1", 2, 4, b"NotAscii"),
        // classes below the footnotes
        (b"galley 3\nclass 3 0 0 below none 0\nend", 0, 0, b"none"),
        (b"galley 3\nclass 3 0 0 below -2 1 1 2\nend", 0, 0, b"none"),
        (b"galley 3\nclass 3 0 0 below -2 -1 1 2", 2, 7, b"Parameter"),
        (b"galley 3\nclass 3 0 0 below", 2, 6, b"MissingField"),
        (b"galley 3\nclass 3 0 0 below none", 2, 7, b"MissingField"),
        (b"galley 3\nclass 3 0 0 below -2 1 1", 2, 9, b"MissingField"),
        (
            b"galley 3\nclass 3 0 0 below none 1 2",
            2,
            8,
            b"UnknownWord",
        ),
        (b"galley 3\nclass 3 0 0 above none 1", 2, 5, b"BadNumber"),
        (b"galley 2\nclass 3 0 0 below none 1", 2, 5, b"BadNumber"),
        // words and glue
        (
            b"galley 3\nset footdepth drop\nset footdepth keep\nend",
            0,
            0,
            b"none",
        ),
        (b"galley 3\nset footdepth below", 2, 3, b"WrongForm"),
        (
            b"galley 3\nset footplace below\nset footplace above\nend",
            0,
            0,
            b"none",
        ),
        (b"galley 3\nset footplace keep", 2, 3, b"WrongForm"),
        (
            b"galley 3\nset footfill 0 plus 1fil\nset texttop 1 minus 2\nend",
            0,
            0,
            b"none",
        ),
        (b"galley 3\nset textbottom 1 x", 2, 4, b"WrongForm"),
        (b"galley 3\nkern 0\nset footrule none\nend", 0, 0, b"none"),
        // in earlier versions there is none of these
        (b"galley 2\nset footrule none", 2, 2, b"UnknownParameter"),
        (b"galley 1\nset footrule 2 -3 x", 2, 2, b"UnknownParameter"),
        (b"galley 2\nset texttop 0", 2, 2, b"UnknownParameter"),
        (b"galley 2\nset textbottom", 2, 2, b"UnknownParameter"),
        (b"galley 2\nset toprule none", 2, 2, b"UnknownParameter"),
        (b"galley 2\nset bottomrule none", 2, 2, b"UnknownParameter"),
        (b"galley 2\nset dblrule none", 2, 2, b"UnknownParameter"),
        (b"galley 2\nset footdepth keep", 2, 2, b"UnknownParameter"),
        (b"galley 2\nset footfill 0", 2, 2, b"UnknownParameter"),
        (b"galley 1\nset footplace above", 2, 2, b"UnknownParameter"),
        (b"galley 2\npage 7", 2, 1, b"UnknownWord"),
    ];
    for (text, line, field, cause) in rows {
        assert!(rt; first_fault(rt.alloc(), text) == (line, field, cause));
    }
    Ok(())
}
