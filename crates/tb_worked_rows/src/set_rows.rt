//! Worked rows of parameters that are set among the items.

use crate::Row;

/// Worked rows of `set` among the items of a galley.
pub const SET_ROWS: [Row; 6] = [
    Row {
        name: "a measure is set anew after a clear",
        input: b"galley 3\nset textheight 30\nset topskip 10\nset maxdepth 0\nset baselineskip 0\nset bottom flush\nset skipfootins 0\nset footsplittop 10\nset intextsep 0\nset textfloatsep 0\nset floatsep 0\nset fptop 0\nset fpsep 0\nset fpbot 0\nset dbltextfloatsep 0\nset dblfloatsep 0\nset dblfptop 0\nset dblfpsep 0\nset dblfpbot 0\nbox a 10 0\nclearpage\nset textheight 50\nbox b 10 0\nglue 0\nbox c 10 0\nglue 0\nbox d 10 0\nglue 0\nbox e 10 0\nend\n",
        status: 0,
        out: b"report 1\npage 1 one\ncolumn 1 text height 30 natural 10 set stretch fil 20/65536\nbox a 0 10 0\npage 2 one\ncolumn 1 text height 50 natural 40 set stretch fil 10/65536\nbox b 0 10 0\nbox c 10 10 0\nbox d 20 10 0\nbox e 30 10 0\nend pages 2 boxes 5 floats 0 warnings 0\n",
        err: b"",
    },
    Row {
        name: "the top skip of one page",
        input: b"galley 3\nset textheight 30\nset topskip 10\nset maxdepth 0\nset baselineskip 0\nset bottom flush\nset skipfootins 0\nset footsplittop 10\nset intextsep 0\nset textfloatsep 0\nset floatsep 0\nset fptop 0\nset fpsep 0\nset fpbot 0\nset dbltextfloatsep 0\nset dblfloatsep 0\nset dblfptop 0\nset dblfpsep 0\nset dblfpbot 0\nbox a 10 0\nnewpage\nset topskip 20\nbox b 10 0\nset topskip 10\nnewpage\nbox c 10 0\nend\n",
        status: 0,
        out: b"report 1\npage 1 one\ncolumn 1 text height 30 natural 10 set stretch fil 20/65536\nbox a 0 10 0\npage 2 one\ncolumn 1 text height 30 natural 20 set stretch fil 10/65536\nbox b 10 10 0\npage 3 one\ncolumn 1 text height 30 natural 10 set stretch fil 20/65536\nbox c 0 10 0\nend pages 3 boxes 3 floats 0 warnings 0\n",
        err: b"",
    },
    Row {
        name: "a measure away from a clear",
        input: b"galley 3\nset textheight 30\nset topskip 10\nset maxdepth 0\nset baselineskip 0\nset bottom flush\nset skipfootins 0\nset footsplittop 10\nset intextsep 0\nset textfloatsep 0\nset floatsep 0\nset fptop 0\nset fpsep 0\nset fpbot 0\nset dbltextfloatsep 0\nset dblfloatsep 0\nset dblfptop 0\nset dblfpsep 0\nset dblfpbot 0\nbox a 10 0\nset textheight 50\nend\n",
        status: 3,
        out: b"",
        err: b"galley_pages: line 21 field 1: SetAfterItem\n",
    },
    Row {
        name: "a fraction behind other items",
        input: b"galley 3\ntwocolumn\nset dbltextfloatsep 7\nhead T 30\nenlarge 1pt star\npage 7\nfloat F 1 single ht 20 vert nobreak\nmargin N 1 2 3 4 par\nset topskip 5\nset footrule none\nset bottom flush\nset topfraction .5\nend\n",
        status: 3,
        out: b"",
        err: b"galley_pages: line 12 field 1: SetAfterItem\n",
    },
    Row {
        name: "a parameter of the whole galley",
        input: b"galley 3\nset textheight 30\nset topskip 10\nset maxdepth 0\nset baselineskip 0\nset bottom flush\nset skipfootins 0\nset footsplittop 10\nset intextsep 0\nset textfloatsep 0\nset floatsep 0\nset fptop 0\nset fpsep 0\nset fpbot 0\nset dbltextfloatsep 0\nset dblfloatsep 0\nset dblfptop 0\nset dblfpsep 0\nset dblfpbot 0\nbox a 10 0\nclearpage\nset pool 5\nend\n",
        status: 3,
        out: b"",
        err: b"galley_pages: line 22 field 1: SetAfterItem\n",
    },
    Row {
        name: "a parameter in a footnote",
        input: b"galley 3\nset textheight 30\nset topskip 10\nset maxdepth 0\nset baselineskip 0\nset bottom flush\nset skipfootins 0\nset footsplittop 10\nset intextsep 0\nset textfloatsep 0\nset floatsep 0\nset fptop 0\nset fpsep 0\nset fpbot 0\nset dbltextfloatsep 0\nset dblfloatsep 0\nset dblfptop 0\nset dblfpsep 0\nset dblfpbot 0\nbox a 10 0\nfoot\nset topskip 5\nendfoot\nend\n",
        status: 3,
        out: b"",
        err: b"galley_pages: line 22 field 1: SetAfterItem\n",
    },
];
