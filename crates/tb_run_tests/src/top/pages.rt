// Two views of one run.
use super::{INPUT, REPORT};
use std::test::Fail;
use tb_galley::parse;
use tb_io::SureSink;
use tb_top::{View, first_unsuited, paginate, paginate_plain};

#[test]
fn each_view_returns_the_totals(rt: HostRuntime) -> Result<(), Fail> {
    let alloc = rt.alloc();
    let Ok(galley) = parse(alloc, INPUT) else {
        panic!(rt; "the galley is not read");
    };
    for (view, text) in [(View::Silent, b"".as_slice()), (View::Report, REPORT)] {
        let mut out = SureSink::new(alloc);
        let Ok(totals) = paginate(alloc, &galley, view, &mut out) else {
            panic!(rt; "the run is refused");
        };
        assert_eq!(rt; out.held(), text);
        assert_eq!(rt; totals.pages, 2);
        assert_eq!(rt; totals.boxes, 3);
        assert_eq!(rt; totals.floats, 0);
        assert_eq!(rt; totals.warnings, 0);
    }
    Ok(())
}

// A float that is taken into the text of a page, after places that were tried.
const FLOAT_IN_THE_TEXT: &[u8] =
    b"galley 1\nset textheight 100\nset topskip 10\nset maxdepth 0\nset baselineskip 0\nset bottom flush\nset skipfootins 0\nset footsplittop 10\nset intextsep 0\nset textfloatsep 0\nset floatsep 0\nset fptop 0\nset fpsep 0\nset fpbot 0\nset dbltextfloatsep 0\nbox a 20 0\nglue 0 plus 80\nbox c 0 0\npenalty -50\nfloat F 1 single h 80 par\nbox b 10 0\nend\n";

const ITS_REPORT: &[u8] =
    b"report 1\npage 1 one\ncolumn 1 text height 100 natural 100 set none\nbox a 0 20 0\nbox c 20 0 0\nfloat F 1 here 20 80\npage 2 one\ncolumn 1 text height 100 natural 10 set stretch fill 90/65536\nbox b 0 10 0\nend pages 2 boxes 3 floats 1 warnings 0\n";

const ITS_TRACE: &[u8] =
    b"report 1\ntry 17 t 20 s 0 0 0 0 z 0 g 100 b 10000 p 0 c 100000 #\ntry 19 t 20 s 80 0 0 0 z 0 g 100 b 100 p -50 c 50 #\ntry 0 t 20 s 80 0 0 0 z 0 g 100 b 100 p 0 c 100\ntry 0 t 100 s 80 0 0 0 z 0 g 100 b 0 p -200 c -200 #\ntry 22 t 110 s 80 0 0 0 z 0 g 100 b * p 0 c *\npage 1 one\ncolumn 1 text height 100 natural 100 set none\nbox a 0 20 0\nbox c 20 0 0\nfloat F 1 here 20 80\ntry 22 t 10 s 0 0 0 0 z 0 g 100 b 10000 p 0 c 100000 #\ntry 22 t 10 s 0 0 65536 0 z 0 g 100 b 0 p -20000 c -20000 #\npage 2 one\ncolumn 1 text height 100 natural 10 set stretch fill 90/65536\nbox b 0 10 0\nend pages 2 boxes 3 floats 1 warnings 0\n";

#[test]
fn each_view_of_a_page_makeup(rt: HostRuntime) -> Result<(), Fail> {
    let alloc = rt.alloc();
    let Ok(galley) = parse(alloc, FLOAT_IN_THE_TEXT) else {
        panic!(rt; "the galley is not read");
    };
    let None = first_unsuited(&galley) else {
        panic!(rt; "an item is not supported");
    };
    let views = [
        (View::Silent, b"".as_slice()),
        (View::Report, ITS_REPORT),
        (View::Trace, ITS_TRACE),
    ];
    for (view, text) in views {
        let mut out = SureSink::new(alloc);
        let Ok(totals) = paginate_plain(alloc, &galley, view, &mut out) else {
            panic!(rt; "the run is refused");
        };
        assert_eq!(rt; out.held(), text);
        assert_eq!(rt; totals.pages, 2);
        assert_eq!(rt; totals.boxes, 3);
        assert_eq!(rt; totals.floats, 1);
        assert_eq!(rt; totals.warnings, 0);
    }
    Ok(())
}

// After a clear the footnotes have another skip and another limit: 40 less the skip of 6 leave 34 on page 2. Within a limit of
// 20 the whole footnote stands below b, and only one more line of text would leave 14 for 20; within a limit of 10 it is split,
// and c stands above its first line.
const SET_FEET: [(&[u8], &[u8]); 2] = [
    (
        b"galley 3\nset textheight 40\nset topskip 10\nset maxdepth 0\nset baselineskip 0\nset bottom flush\nset skipfootins 0\nset footsplittop 10\nset footrule none\nbox a 10 0\nglue 0 plus 10\nclearpage\nset skipfootins 6 plus 1\nset footlimit 20\nbox b 10 0\nfoot\nbox f1 10 0\nglue 0\nbox f2 10 0\nendfoot\nglue 0 plus 10\nbox c 10 0\nglue 0 plus 10\nend\n",
        b"report 1\npage 1 one\ncolumn 1 text height 40 natural 10 set stretch fil 30/65536\nbox a 0 10 0\npage 2 one\ncolumn 1 text height 40 natural 36 set stretch normal 4/1\nbox b 0 10 0\nbox f1 20 10 0\nbox f2 30 10 0\npage 3 one\ncolumn 1 text height 40 natural 10 set stretch fil 30/65536\nbox c 0 10 0\nend pages 3 boxes 5 floats 0 warnings 0\n",
    ),
    (
        b"galley 3\nset textheight 40\nset topskip 10\nset maxdepth 0\nset baselineskip 0\nset bottom flush\nset skipfootins 0\nset footsplittop 10\nset footrule none\nbox a 10 0\nglue 0 plus 10\nclearpage\nset skipfootins 6 plus 1\nset footlimit 10\nbox b 10 0\nfoot\nbox f1 10 0\nglue 0\nbox f2 10 0\nendfoot\nglue 0 plus 10\nbox c 10 0\nglue 0 plus 10\nend\n",
        b"report 1\npage 1 one\ncolumn 1 text height 40 natural 10 set stretch fil 30/65536\nbox a 0 10 0\npage 2 one\ncolumn 1 text height 40 natural 36 set stretch fil 4/65536\nbox b 0 10 0\nbox c 10 10 0\nbox f1 30 10 0\npage 3 one\ncolumn 1 text height 40 natural 26 set stretch fil 14/65536\nbox f2 30 10 0\nend pages 3 boxes 5 floats 0 warnings 0\n",
    ),
];

#[test]
fn footnotes_have_what_is_set_after_a_clear(rt: HostRuntime) -> Result<(), Fail> {
    let alloc = rt.alloc();
    for (input, report) in SET_FEET {
        let Ok(galley) = parse(alloc, input) else {
            panic!(rt; "the galley is not read");
        };
        let mut out = SureSink::new(alloc);
        let Ok(_) = paginate(alloc, &galley, View::Report, &mut out) else {
            panic!(rt; "the run is refused");
        };
        assert_eq!(rt; out.held(), report);
    }
    Ok(())
}
