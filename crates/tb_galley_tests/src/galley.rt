mod classes;
mod cuts;
mod rules;
mod settings;
mod titles;

use std::alloc::Global;
use std::test::Fail;
use tb_galley::{
    GalleyFault, Item, ItemKind, Items, Leaf, LeafKind, Leaves, cause_text, is_range_cause, parse,
    print,
};

// The first fault of a text: its line, its field and its cause.
fn first_fault(alloc: Global, text: &[u8]) -> (u32, u32, &'static [u8]) {
    match parse(alloc, text) {
        Ok(_) => (0, 0, b"none"),
        Err(GalleyFault::At(fault)) => (fault.line, fault.field, cause_text(fault.cause)),
        Err(GalleyFault::Memory) => (0, 0, b"out of memory"),
    }
}

// A galley of this line, as its second.
fn with_line(alloc: Global, line: &[u8]) -> Result<Vec<u8>, Fail> {
    let mut text = Vec::from_slice(alloc, b"galley 1\n")?;
    text.extend_from_slice(line)?;
    text.extend_from_slice(b"\nend\n")?;
    Ok(text)
}

// Each cause that a line of an item or a parameter may have, and what is read without a fault.
#[test]
fn finds_faults_of_lines(rt: HostRuntime) -> Result<(), Fail> {
    let rows: [(&[u8], u32, &[u8]); 84] = [
        (b"box a 1073741824 0", 3, b"Dimension"),
        (b"box a 1 -1", 4, b"Dimension"),
        (b"box a 1073741823 0.5pt", 0, b"none"),
        (b"box a 10", 4, b"MissingField"),
        (b"rule a 1 1 1", 5, b"ExtraField"),
        (b"rule _a 1 1", 2, b"BadName"),
        (b"mark a.b_c-d", 0, b"none"),
        (b"note a+b", 2, b"BadName"),
        (b"kern 5.", 2, b"BadUnit"),
        (b"kern 5.pt", 0, b"none"),
        (b"kern -1073741824", 2, b"Dimension"),
        (b"kern pt", 2, b"BadNumber"),
        (b"kern", 2, b"MissingField"),
        (b"penalty 5.", 2, b"BadNumber"),
        (b"penalty -10000", 0, b"none"),
        (b"penalty -10001", 2, b"Penalty"),
        (b"penalty 10001", 2, b"Penalty"),
        (b"pagebreak 4", 0, b"none"),
        (b"pagebreak 5", 2, b"Penalty"),
        (b"nopagebreak -1", 2, b"Penalty"),
        (b"newpage 1", 2, b"ExtraField"),
        (b"clearpage", 0, b"none"),
        (b"Box a 1 1", 1, b"UnknownWord"),
        (b"galley 1", 1, b"UnknownWord"),
        (b"b\xffx a 1 1", 1, b"NotAscii"),
        (b"mark a\x1fb", 2, b"NotAscii"),
        // glue, in which each word has its place
        (b"glue 1 plus 2fil minus 3", 0, b"none"),
        (b"glue 1 minus 3", 0, b"none"),
        (b"glue 1 plus", 4, b"MissingField"),
        (b"glue 1 x", 3, b"UnknownWord"),
        (b"glue 1 plus 2 x", 5, b"UnknownWord"),
        (b"glue 1 plus 2 plus 3", 5, b"UnknownWord"),
        (b"glue 1 minus 2 x", 5, b"ExtraField"),
        (b"glue 1 minus 2 plus 3", 5, b"ExtraField"),
        (b"glue 1 plus 2 minus 3 x", 7, b"ExtraField"),
        (b"glue 1 minus 2fil", 4, b"BadUnit"),
        // floats, marginal notes and columns
        (b"float a 1 single !htbp 5 par", 0, b"none"),
        (b"float a 26 double t!t 0 vert", 0, b"none"),
        (b"float a 0 single t 5 par", 3, b"Class"),
        (b"float a 27 single t 5 par", 3, b"Class"),
        (b"float a 1 wide t 5 par", 4, b"UnknownWord"),
        (b"float a 1 single ! 5 par", 5, b"BadPlace"),
        (b"float a 1 single x 5 par", 5, b"BadPlace"),
        (b"float a 1 single t -1 par", 6, b"Dimension"),
        (b"float a 1 single t 5 here", 7, b"UnknownWord"),
        (b"float a 1 single t 5", 7, b"MissingField"),
        (b"margin a 1 2 3 4 par", 0, b"none"),
        (b"margin a 1 2 3 -4 par", 6, b"Dimension"),
        (b"margin a 1 2 3 4 vert x", 8, b"ExtraField"),
        (b"onecolumn 1", 2, b"ExtraField"),
        (b"twocolumn", 0, b"none"),
        (b"suppressfloats", 0, b"none"),
        (b"suppressfloats b", 0, b"none"),
        (b"suppressfloats h", 2, b"UnknownWord"),
        // parameters
        (b"set poo 1", 2, b"UnknownParameter"),
        (b"set pool on", 3, b"BadNumber"),
        (b"set pool 1", 3, b"Parameter"),
        (b"set pool 2", 0, b"none"),
        (b"set pool 4096", 0, b"none"),
        (b"set pool 4097", 3, b"Parameter"),
        (b"set pool 2 2", 4, b"ExtraField"),
        (b"set", 2, b"MissingField"),
        (b"set pool", 3, b"MissingField"),
        (b"set textheight 0", 3, b"Parameter"),
        (b"set textheight -2000000000", 3, b"Dimension"),
        (b"set interlinepenalty -9999", 0, b"none"),
        (b"set interlinepenalty -10000", 3, b"Parameter"),
        (b"set bottom 5", 3, b"WrongForm"),
        (b"set bottom flush", 0, b"none"),
        (b"set mparswitch ragged", 3, b"WrongForm"),
        (b"set floatsep 1 x", 4, b"WrongForm"),
        (b"set floatsep 1 plus 2 x", 6, b"WrongForm"),
        (b"set floatsep 1 minus 2 x", 6, b"ExtraField"),
        (b"set floatsep 1 minus", 5, b"MissingField"),
        (b"set topfraction 5.", 3, b"Parameter"),
        (b"set topfraction +0.5", 0, b"none"),
        (b"set topfraction 65536/65536", 0, b"none"),
        (b"set topfraction +1/65536", 3, b"BadUnit"),
        (b"set topfraction 1./65536", 3, b"BadUnit"),
        (b"set maxnodes 4194304", 0, b"none"),
        // what has no content
        (b"", 0, b"none"),
        (b" \t", 0, b"none"),
        (b" # \xff", 0, b"none"),
        (b"\tkern\t 1  ", 0, b"none"),
    ];
    for (line, field, cause) in rows {
        let text = with_line(rt.alloc(), line)?;
        let number = if field == 0 { 0 } else { 2 };
        assert!(rt; first_fault(rt.alloc(), text.as_slice()) == (number, field, cause));
    }
    Ok(())
}

// Each cause about the order and the ends of lines; of two faults the earlier one.
#[test]
fn finds_the_first_fault(rt: HostRuntime) -> Result<(), Fail> {
    let rows: [(&[u8], u32, u32, &[u8]); 25] = [
        (b"", 1, 0, b"NoHeader"),
        (b"\n# x\n", 3, 0, b"NoHeader"),
        (b"galley", 1, 2, b"NoHeader"),
        (b"galley 4", 1, 2, b"NoHeader"),
        (b"galley 1 x", 1, 3, b"ExtraField"),
        (b"end", 1, 1, b"NoHeader"),
        (b"g\x01 1", 1, 1, b"NotAscii"),
        (b"galley 1\nbox a 1 0", 3, 0, b"NoEnd"),
        (b"galley 1\nend\n\r", 0, 0, b"none"),
        (b"galley 1\r\r\nend", 1, 2, b"NotAscii"),
        (b"galley 1\r\nend\r\n\n# x\n", 0, 0, b"none"),
        (b"galley 1\nend\nend", 3, 1, b"AfterEnd"),
        (b"galley 1\nkern 0\nset pool 4\nend", 3, 1, b"SetAfterItem"),
        // two faults each
        (b"set pool 1 2", 1, 1, b"NoHeader"),
        (b"galley 1\nbox a\nkern", 2, 3, b"MissingField"),
        (b"galley 1\nbox - x -1\nend", 2, 2, b"BadName"),
        (b"galley 1\nbox a -1 \xff\nend", 2, 3, b"Dimension"),
        (b"galley 1\nbox a \xff\nend", 2, 3, b"NotAscii"),
        (b"galley 1\nnewpage \xff\nend", 2, 2, b"NotAscii"),
        (b"galley 1\nbox a 1 1 1 \xff\nend", 2, 5, b"ExtraField"),
        (b"galley 1\nmark +\xff\nend", 2, 2, b"NotAscii"),
        (
            b"galley 1\nkern 0\nset pool 1 2\nend",
            3,
            1,
            b"SetAfterItem",
        ),
        (b"galley 1\nend\nbox a", 3, 1, b"AfterEnd"),
        (b"galley 1\nset poo x x x\nend", 2, 2, b"UnknownParameter"),
        (b"galley 1\nset pool 5000\nkern 1\n", 2, 3, b"Parameter"),
    ];
    for (text, line, field, cause) in rows {
        assert!(rt; first_fault(rt.alloc(), text) == (line, field, cause));
    }
    Ok(())
}

// Each cause that version 2 adds, and what version 1 says of the same.
#[test]
fn finds_faults_of_versions(rt: HostRuntime) -> Result<(), Fail> {
    let rows: [(&[u8], u32, u32, &[u8]); 59] = [
        (b"galley 2\nend", 0, 0, b"none"),
        (b"galley 02\nend", 1, 2, b"NoHeader"),
        (b"galley 2 x", 1, 3, b"ExtraField"),
        (b"galley 2\ngalley 2", 2, 1, b"UnknownWord"),
        (b"galley 2\nbox a 1 0", 3, 0, b"NoEnd"),
        // footnotes
        (b"galley 2\nfoot\nendfoot\nend", 0, 0, b"none"),
        (b"galley 2\nfoot +254\nendfoot\nend", 0, 0, b"none"),
        (b"galley 2\nfoot 255", 2, 2, b"Class"),
        (b"galley 2\nfoot 510", 2, 2, b"Class"),
        (b"galley 2\nfoot -254", 2, 2, b"Class"),
        (b"galley 2\nfoot 4\nendfoot\nend", 2, 2, b"Class"),
        (b"galley 2\nfoot x", 2, 2, b"BadNumber"),
        (b"galley 2\nfoot 254.", 2, 2, b"BadNumber"),
        (b"galley 2\nfoot \x01", 2, 2, b"NotAscii"),
        (b"galley 2\nfoot 254 x", 2, 3, b"ExtraField"),
        (b"galley 2\nfoot 254", 3, 0, b"UnclosedFoot"),
        (b"galley 1\nfoot 254\nendfoot\nend", 2, 2, b"ExtraField"),
        // classes
        (b"galley 2\nclass 0 0 0 0\nend", 0, 0, b"none"),
        (
            b"galley 2\nclass 253 10000 1073741823 -5 plus 1fil minus 2\nend",
            0,
            0,
            b"none",
        ),
        (b"galley 2\nclass -1 0 0 0", 2, 2, b"Class"),
        (b"galley 2\nclass 254 0 0 0", 2, 2, b"Class"),
        (b"galley 2\nclass 1.", 2, 2, b"BadNumber"),
        (b"galley 2\nclass", 2, 2, b"MissingField"),
        (b"galley 2\nclass 3 -1 0 0", 2, 3, b"Parameter"),
        (b"galley 2\nclass 3 10001 0 0", 2, 3, b"Parameter"),
        (b"galley 2\nclass 3 x", 2, 3, b"BadNumber"),
        (b"galley 2\nclass 3 0 -1 0", 2, 4, b"Dimension"),
        (b"galley 2\nclass 3 0 1073741824 0", 2, 4, b"Dimension"),
        (b"galley 2\nclass 3 0 5. 0", 2, 4, b"BadUnit"),
        (b"galley 2\nclass 3 0 0", 2, 5, b"MissingField"),
        (b"galley 2\nclass 3 0 0 1073741824", 2, 5, b"Dimension"),
        (b"galley 2\nclass 3 0 0 1 x", 2, 6, b"UnknownWord"),
        (b"galley 2\nclass 3 0 0 1 plus 2 x", 2, 8, b"UnknownWord"),
        (b"galley 2\nclass 3 0 0 1 minus 2 x", 2, 8, b"ExtraField"),
        (b"galley 2\nclass 3 0 0 1 plus", 2, 7, b"MissingField"),
        (b"class 1 1 1 1", 1, 1, b"NoHeader"),
        (b"galley 1\nclass 3 0 0 0", 2, 1, b"UnknownWord"),
        (b"galley 1\nkern 0\nclass 3 0 0 0", 3, 1, b"UnknownWord"),
        (b"galley 2\nkern 0\nclass 3 0 0 0", 3, 1, b"SetAfterItem"),
        (b"galley 2\nfoot\nclass 3 0 0 0", 3, 1, b"SetAfterItem"),
        (b"galley 2\nend\nclass 3 0 0 0", 3, 1, b"AfterEnd"),
        (
            b"galley 2\nclass 4 0 0 0\nset pool 4\nfoot 4\nendfoot\nend",
            0,
            0,
            b"none",
        ),
        (b"galley 2\nclass 4 0 0 0\nfoot 3", 3, 2, b"Class"),
        (b"galley 2\nclass 4 0 0 0\nfoot 260", 3, 2, b"Class"),
        (b"galley 2\nfoot 4\nendfoot\nclass 4 0 0 0", 2, 2, b"Class"),
        // the release
        (b"galley 2\nset release 2014\nend", 0, 0, b"none"),
        (b"galley 2\nset release 2013", 2, 3, b"WrongForm"),
        (b"galley 2\nset release", 2, 3, b"MissingField"),
        (b"galley 2\nset release 2015 x", 2, 4, b"ExtraField"),
        (b"galley 2\nset bottom 2015", 2, 3, b"WrongForm"),
        (b"galley 2\nkern 0\nset release 2015", 3, 1, b"SetAfterItem"),
        (
            b"galley 1\nset release 2014\nend",
            2,
            2,
            b"UnknownParameter",
        ),
        (b"galley 1\nset release", 2, 2, b"UnknownParameter"),
        (b"galley 1\nset release 2013 x", 2, 2, b"UnknownParameter"),
        // the page number
        (b"galley 3\npage 0\npage 1000000\nend", 0, 0, b"none"),
        (b"galley 3\npage 1000001", 2, 2, b"Parameter"),
        (b"galley 3\npage -1", 2, 2, b"Parameter"),
        (b"galley 2\npage 1", 2, 1, b"UnknownWord"),
        (b"galley 3\nfoot\npage 1", 3, 1, b"NotInFoot"),
    ];
    for (text, line, field, cause) in rows {
        assert!(rt; first_fault(rt.alloc(), text) == (line, field, cause));
    }
    Ok(())
}

// This many copies of a text.
fn repeated(alloc: Global, text: &[u8], count: usize) -> Result<Vec<u8>, Fail> {
    let mut all = Vec::new(alloc);
    for _ in 0..count {
        all.extend_from_slice(text)?;
    }
    Ok(all)
}

// The limits of a line, of items and of the input, each met and passed.
#[test]
fn keeps_to_the_limits(rt: HostRuntime) -> Result<(), Fail> {
    let mut line = Vec::from_slice(rt.alloc(), b"#")?;
    line.extend_from_slice(repeated(rt.alloc(), b"-", 254)?.as_slice())?;
    line.extend_from_slice(b"\r")?;
    let fits = with_line(rt.alloc(), line.as_slice())?;
    assert!(rt; first_fault(rt.alloc(), fits.as_slice()) == (0, 0, b"none".as_slice()));
    line.extend_from_slice(b"\r")?;
    let long = with_line(rt.alloc(), line.as_slice())?;
    assert!(rt; first_fault(rt.alloc(), long.as_slice()) == (2, 0, b"LineLength".as_slice()));

    let kerns = repeated(rt.alloc(), b"kern 0\n", 100_000)?;
    let mut items = Vec::from_slice(rt.alloc(), b"galley 1\n")?;
    items.extend_from_slice(kerns.as_slice())?;
    let fits = items.clone()?;
    assert!(rt; first_fault(rt.alloc(), fits.as_slice()) == (100_002, 0, b"NoEnd".as_slice()));
    items.extend_from_slice(b"mark +\nend")?;
    assert!(rt; first_fault(rt.alloc(), items.as_slice()) == (100_002, 1, b"Items".as_slice()));

    let mut comment = Vec::from_slice(rt.alloc(), b"#")?;
    comment.extend_from_slice(repeated(rt.alloc(), b"-", 254)?.as_slice())?;
    comment.extend_from_slice(b"\n")?;
    let mut comments = repeated(rt.alloc(), comment.as_slice(), 32_768)?;
    assert!(rt;
        first_fault(rt.alloc(), comments.as_slice()) == (32_769, 0, b"NoHeader".as_slice())
    );
    comments.extend_from_slice(b"\n")?;
    assert!(rt; first_fault(rt.alloc(), comments.as_slice()) == (0, 0, b"InputSize".as_slice()));
    Ok(())
}

// The `set` lines of the defaults, in version 1.
const CANONICAL_SETS: &[u8] = b"set textheight 36044800
set topskip 655360
set maxdepth 327680
set baselineskip 786432
set bottom ragged
set topnumber 2
set bottomnumber 1
set totalnumber 3
set dbltopnumber 2
set topfraction 45875/65536
set bottomfraction 19661/65536
set textfraction 13107/65536
set floatpagefraction 32768/65536
set dbltopfraction 45875/65536
set dblfloatpagefraction 32768/65536
set floatsep 786432 plus 131072 minus 131072
set textfloatsep 1310720 plus 131072 minus 262144
set intextsep 786432 plus 131072 minus 131072
set dblfloatsep 786432 plus 131072 minus 131072
set dbltextfloatsep 1310720 plus 131072 minus 262144
set fptop 0 plus 65536sfil minus 0
set fpsep 524288 plus 131072sfil minus 0
set fpbot 0 plus 65536sfil minus 0
set dblfptop 0 plus 65536sfil minus 0
set dblfpsep 524288 plus 131072sfil minus 0
set dblfpbot 0 plus 65536sfil minus 0
set skipfootins 589824 plus 262144 minus 131072
set footlimit 37890293
set footsplittop 435814
set footsplitdepth 186778
set footfloating 20000
set splittopskip 655360
set splitmaxdepth 1073741823
set floatingpenalty 0
set interlinepenalty 0
set parskip 0 plus 65536 minus 0
set marginparpush 327680
set mparswitch off
set reversemargin off
set pool 18
set maxdeadcycles 100
set maxpages 1000000
set maxnodes 4194304
";

// The canonical text of a text without sets.
fn canonical(alloc: Global, text: &[u8]) -> Result<Vec<u8>, Fail> {
    match parse(alloc, text) {
        Ok(galley) => Ok(print(alloc, &galley)?),
        Err(_) => Ok(Vec::new(alloc)),
    }
}

#[test]
fn prints_the_canonical_text(rt: HostRuntime) -> Result<(), Fail> {
    let rows: [(&[u8], &[u8], &[u8]); 11] = [
        (b"galley 1\nend", b"galley 1\n", b"end\n"),
        (b"galley 2\nend", b"galley 2\n", b"set release 2015\nend\n"),
        (
            b"galley 2\nset release 2015\nset release 2014\nend",
            b"galley 2\n",
            b"set release 2014\nend\n",
        ),
        (
            b"galley 3\nend",
            b"galley 3\n",
            b"set release 2015\nset texttop 0 plus 0 minus 0\nset textbottom 0 plus 0 minus 0\nset footrule -196608 26214 170394\nset toprule none\nset bottomrule none\nset dblrule none\nset footdepth keep\nset footfill 0 plus 0 minus 0\nset footplace above\nend\n",
        ),
        (
            b"galley 3\npage 07\npage 1000000\nend",
            b"galley 3\n",
            b"set release 2015\nset texttop 0 plus 0 minus 0\nset textbottom 0 plus 0 minus 0\nset footrule -196608 26214 170394\nset toprule none\nset bottomrule none\nset dblrule none\nset footdepth keep\nset footfill 0 plus 0 minus 0\nset footplace above\npage 7\npage 1000000\nend\n",
        ),
        (
            b"galley 3\nset footplace below\nset footfill 0 plus 1fil\nset footdepth drop\nset dblrule 1pt 0 -1\nset toprule 1 2 3\nset toprule none\nset footrule +0 1pt -2\nset texttop 1\nclass 3 1000 1 0\nfoot\nendfoot\nend",
            b"galley 3\n",
            b"set release 2015\nset texttop 1 plus 0 minus 0\nset textbottom 0 plus 0 minus 0\nset footrule 0 65536 -2\nset toprule none\nset bottomrule none\nset dblrule 65536 0 -1\nset footdepth drop\nset footfill 0 plus 65536sfil minus 0\nset footplace below\nclass 3 1000 1 0 plus 0 minus 0\nfoot 254\nendfoot\nend\n",
        ),
        (
            b"galley 1\nfoot\nkern 1\nendfoot\nend",
            b"galley 1\n",
            b"foot\nkern 1\nendfoot\nend\n",
        ),
        (
            b"galley 2\nfoot\nkern 1\nendfoot\nfoot 0254\nendfoot\nend",
            b"galley 2\n",
            b"set release 2015\nfoot 254\nkern 1\nendfoot\nfoot 254\nendfoot\nend\n",
        ),
        (
            b"galley 2\nclass 7 1 2 3 plus 0fill\nclass 3 1000 1 0\nclass 3 +0500 1.5pt -0\nset release 2014\nfoot 07\nendfoot\nfoot 3\nendfoot\nend",
            b"galley 2\n",
            b"set release 2014\nclass 3 500 98304 0 plus 0 minus 0\nclass 7 1 2 3 plus 0sfill minus 0\nfoot 7\nendfoot\nfoot 3\nendfoot\nend\n",
        ),
        (
            b"galley 1\nfloat f 01 double pp!t 1pt vert\nmargin m 1 2 3 4 par\nonecolumn\ntwocolumn\nsuppressfloats\nsuppressfloats t\nend",
            b"galley 1\n",
            b"float f 1 double !tp 65536 vert\nmargin m 1 2 3 4 par\nonecolumn\ntwocolumn\nsuppressfloats\nsuppressfloats t\nend\n",
        ),
        (
            b"galley 1\nbox  a 0.5pt 0\nglue -0 plus 0fil\nkern -1.5pt\n\npenalty +7\nmark m\nnote n\nrule r 1sp 2\nnewpage\nclearpage\npagebreak 0\nnopagebreak 4\nend",
            b"galley 1\n",
            b"box a 32768 0\nglue 0 plus 0sfil minus 0\nkern -98304\npenalty 7\nmark m\nnote n\nrule r 1 2\nnewpage\nclearpage\npagebreak 0\nnopagebreak 4\nend\n",
        ),
    ];
    for (text, header, items) in rows {
        let mut want = Vec::from_slice(rt.alloc(), header)?;
        want.extend_from_slice(CANONICAL_SETS)?;
        want.extend_from_slice(items)?;
        let first = canonical(rt.alloc(), text)?;
        assert!(rt; first.as_slice() == want.as_slice());
        let again = canonical(rt.alloc(), first.as_slice())?;
        assert!(rt; again.as_slice() == want.as_slice());
    }
    Ok(())
}

// The lists of items and leaves, by their calls.
#[test]
fn keeps_items_in_order(rt: HostRuntime) -> Result<(), Fail> {
    let mut leaves = Leaves::new(rt.alloc());
    assert!(rt; leaves.is_empty());
    leaves.push(Leaf {
        line: 3,
        kind: LeafKind::Kern(1),
    })?;
    leaves.push(Leaf {
        line: 4,
        kind: LeafKind::Penalty(2),
    })?;
    assert_eq!(rt; (leaves.len(), leaves.as_slice().len()), (2, 2));
    assert!(rt; leaves.get(1).map(|leaf| leaf.line) == Some(4));
    assert!(rt; leaves.get(2).is_none());
    let mut items = Items::new(rt.alloc());
    items.push(Item {
        line: 2,
        kind: ItemKind::Foot { class: 254, leaves },
    })?;
    assert!(rt; !items.is_empty());
    assert_eq!(rt; (items.len(), items.as_slice().len()), (1, 1));
    assert!(rt; items.get(0).map(|item| item.line) == Some(2));
    assert!(rt; items.get(1).is_none());
    Ok(())
}

#[test]
fn tells_range_from_syntax(rt: HostRuntime) -> Result<(), Fail> {
    let rows: [(&[u8], bool); 4] = [
        (b"galley 1\nbox a 1073741824 0\nend", true),
        (b"galley 1\nset pool 1\nend", true),
        (b"galley 1\nbox a 1 0", false),
        (b"galley 1\nkern x\nend", false),
    ];
    for (text, is_range) in rows {
        match parse(rt.alloc(), text) {
            Err(GalleyFault::At(fault)) => assert!(rt; is_range_cause(fault.cause) == is_range),
            _ => assert!(rt; false),
        }
    }
    Ok(())
}
