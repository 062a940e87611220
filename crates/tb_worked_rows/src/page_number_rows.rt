//! Worked rows of page numbers.

use crate::Row;

/// Worked rows of the word `page`, which sets the page number: it is what the report says and what marginal notes go by, and
/// does not count for `maxpages`.
pub const PAGE_NUMBER_ROWS: [Row; 4] = [
    Row {
        name: "the page number is set",
        input: b"galley 3\nset textheight 60\nset topskip 10\nset maxdepth 0\nset baselineskip 0\nset bottom flush\nset skipfootins 0\nset footsplittop 10\nset intextsep 0\nset textfloatsep 0\nset floatsep 0\nset fptop 0\nset fpsep 0\nset fpbot 0\nset dbltextfloatsep 0\nset dblfloatsep 0\nset dblfptop 0\nset dblfpsep 0\nset dblfpbot 0\nset mparswitch on\npage 4\nbox a 10 0\nmargin N 5 0 6 0 par\nnewpage\nbox b 10 0\nmargin M 5 0 6 0 par\nend\n",
        status: 0,
        out: b"report 1\npage 4 one\ncolumn 1 text height 60 natural 10 set stretch fil 50/65536\nbox a 0 10 0\nmargin N left 0 10 5 0\npage 5 one\ncolumn 1 text height 60 natural 10 set stretch fil 50/65536\nbox b 0 10 0\nmargin M right 0 10 6 0\nend pages 2 boxes 2 floats 0 warnings 0\n",
        err: b"",
    },
    Row {
        name: "page numbers do not count for the page limit",
        input: b"galley 3\nset textheight 60\nset topskip 10\nset maxdepth 0\nset baselineskip 0\nset bottom flush\nset maxpages 2\npage 1000000\nbox a 10 0\nnewpage\nbox b 10 0\nend\n",
        status: 0,
        out: b"report 1\npage 1000000 one\ncolumn 1 text height 60 natural 10 set stretch fil 50/65536\nbox a 0 10 0\npage 1000001 one\ncolumn 1 text height 60 natural 10 set stretch fil 50/65536\nbox b 0 10 0\nend pages 2 boxes 2 floats 0 warnings 0\n",
        err: b"",
    },
    Row {
        name: "page numbers are no words of version 2",
        input: b"galley 2\nbox a 10 0\npage 4\nend\n",
        status: 3,
        out: b"",
        err: b"galley_pages: line 3 field 1: UnknownWord\n",
    },
    Row {
        name: "a page number out of range",
        input: b"galley 3\nbox a 10 0\npage 1000001\nend\n",
        status: 4,
        out: b"",
        err: b"galley_pages: line 3 field 2: Parameter\n",
    },
];
