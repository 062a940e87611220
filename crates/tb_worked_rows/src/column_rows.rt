//! Worked rows with two columns.

use crate::Row;

/// Worked rows with two columns, marginal notes and suppressed areas.
pub const COLUMN_ROWS: [Row; 10] = [
    Row {
        name: "act between kern and glue",
        input: b"galley 1\nset textheight 30\nset topskip 10\nset maxdepth 0\nset baselineskip 0\nset bottom flush\nset skipfootins 0\nset footsplittop 10\nset intextsep 0\nset textfloatsep 0\nset floatsep 0\nset fptop 0\nset fpsep 0\nset fpbot 0\nset dbltextfloatsep 0\nbox a 20 0\nkern 0\nsuppressfloats\nglue 0\nbox b 20 0\nend\n",
        status: 0,
        out: b"report 1\npage 1 one\ncolumn 1 text height 30 natural 20 set none\nbox a 0 20 0\npage 2 one\ncolumn 1 text height 30 natural 20 set stretch fil 10/65536\nbox b 0 20 0\nend pages 2 boxes 2 floats 0 warnings 0\n",
        err: b"",
    },
    Row {
        name: "suppressed areas",
        input: b"galley 1\nset textheight 100\nset topskip 10\nset maxdepth 0\nset baselineskip 0\nset bottom flush\nset skipfootins 0\nset footsplittop 10\nset intextsep 0\nset textfloatsep 0\nset floatsep 0\nset fptop 0\nset fpsep 0\nset fpbot 0\nset dbltextfloatsep 0\nsuppressfloats\nbox a 20 0\nfloat F 1 single ht 10 par\nend\n",
        status: 0,
        out: b"report 1\npage 1 one\ncolumn 1 text height 100 natural 20 set stretch fil 80/65536\nbox a 0 20 0\npage 2 one\ncolumn 1 floats height 100 natural 10 set none\nfloat F 1 page 0 10\nend pages 2 boxes 1 floats 1 warnings 0\n",
        err: b"",
    },
    Row {
        name: "double float keeps class order",
        input: b"galley 1\nset textheight 100\nset topskip 10\nset maxdepth 0\nset baselineskip 0\nset bottom flush\nset skipfootins 0\nset footsplittop 10\nset intextsep 0\nset textfloatsep 0\nset floatsep 0\nset fptop 0\nset fpsep 0\nset fpbot 0\nset dbltextfloatsep 0\ntwocolumn\nbox a 20 0\nfloat W 1 double t 30 par\nfloat S 1 single ht 20 par\nnewpage\nbox b 10 0\nnewpage\nbox c 10 0\nend\n",
        status: 0,
        out: b"report 1\npage 1 two at 0\ncolumn 1 text height 100 natural 20 set stretch fil 80/65536\nbox a 0 20 0\ncolumn 2 text height 100 natural 10 set stretch fil 90/65536\nbox b 0 10 0\npage 2 two at 30\nfloat W 1 wide 0 30\ncolumn 1 text height 70 natural 30 set stretch fil 40/65536\nfloat S 1 top 0 20\nbox c 20 10 0\ncolumn 2 text height 70 natural 10 set stretch fil 60/65536\nend pages 2 boxes 3 floats 2 warnings 0\n",
        err: b"",
    },
    Row {
        name: "clear in two columns",
        input: b"galley 1\nset textheight 100\nset topskip 10\nset maxdepth 0\nset baselineskip 0\nset bottom flush\nset skipfootins 0\nset footsplittop 10\nset intextsep 0\nset textfloatsep 0\nset floatsep 0\nset fptop 0\nset fpsep 0\nset fpbot 0\nset dbltextfloatsep 0\ntwocolumn\nbox a 10 0\nfloat W 1 double t 30 par\nnewpage\nbox b 10 0\nnewpage\nbox c 10 0\nnewpage\nfloat S 2 single p 80 par\nclearpage\nbox e 10 0\nend\n",
        status: 0,
        out: b"report 1\npage 1 two at 0\ncolumn 1 text height 100 natural 10 set stretch fil 90/65536\nbox a 0 10 0\ncolumn 2 text height 100 natural 10 set stretch fil 90/65536\nbox b 0 10 0\npage 2 two at 30\nfloat W 1 wide 0 30\ncolumn 1 text height 70 natural 10 set stretch fil 60/65536\nbox c 0 10 0\ncolumn 2 text height 70 natural 10 set stretch fil 60/65536\npage 3 two at 0\ncolumn 1 floats height 100 natural 80 set none\nfloat S 2 page 0 80\ncolumn 2 text height 100 natural 10 set stretch fil 90/65536\npage 4 two at 0\ncolumn 1 text height 100 natural 10 set stretch fil 90/65536\nbox e 0 10 0\ncolumn 2 text height 100 natural 10 set stretch fil 90/65536\nend pages 4 boxes 4 floats 2 warnings 0\n",
        err: b"",
    },
    Row {
        name: "pool full at a marginal note",
        input: b"galley 1\nset textheight 100\nset topskip 10\nset maxdepth 0\nset baselineskip 0\nset bottom flush\nset skipfootins 0\nset footsplittop 10\nset intextsep 0\nset textfloatsep 0\nset floatsep 0\nset fptop 0\nset fpsep 0\nset fpbot 0\nset dbltextfloatsep 0\nset pool 2\nbox a 60 0\nfloat F 1 single b 50 par\nmargin m 5 0 5 0 par\nend\n",
        status: 5,
        out: b"report 1\n",
        err: b"galley_pages: line 19: float pool full at 1\n",
    },
    Row {
        name: "wide page",
        input: b"galley 1\nset textheight 100\nset topskip 10\nset maxdepth 0\nset baselineskip 0\nset bottom flush\nset skipfootins 0\nset footsplittop 10\nset intextsep 0\nset textfloatsep 0\nset floatsep 0\nset fptop 0\nset fpsep 0\nset fpbot 0\nset dbltextfloatsep 0\nset dblfptop 0\nset dblfpbot 0\ntwocolumn\nbox a 10 0\nfloat W 1 double p 60 par\nnewpage\nbox b 10 0\nend\n",
        status: 0,
        out: b"report 1\npage 1 two at 0\ncolumn 1 text height 100 natural 10 set stretch fil 90/65536\nbox a 0 10 0\ncolumn 2 text height 100 natural 10 set stretch fil 90/65536\nbox b 0 10 0\npage 2 wide\ncolumn 1 floats height 100 natural 60 set none\nfloat W 1 page 0 60\nend pages 2 boxes 2 floats 1 warnings 0\n",
        err: b"",
    },
    Row {
        name: "notes beside two columns",
        input: b"galley 1\nset textheight 100\nset topskip 10\nset maxdepth 0\nset baselineskip 0\nset bottom flush\nset skipfootins 0\nset footsplittop 10\nset intextsep 0\nset textfloatsep 0\nset floatsep 0\nset fptop 0\nset fpsep 0\nset fpbot 0\nset dbltextfloatsep 0\nset marginparpush 2\ntwocolumn\nbox a 10 0\nmargin m 8 4 8 4 par\nnewpage\nbox b 10 0\nmargin n 8 4 8 4 par\nend\n",
        status: 0,
        out: b"report 1\npage 1 two at 0\ncolumn 1 text height 100 natural 10 set stretch fil 90/65536\nbox a 0 10 0\nmargin m left 0 10 8 4\ncolumn 2 text height 100 natural 10 set stretch fil 90/65536\nbox b 0 10 0\nmargin n right 0 10 8 4\nend pages 1 boxes 2 floats 0 warnings 0\n",
        err: b"",
    },
    Row {
        name: "notes change sides",
        input: b"galley 1\nset textheight 100\nset topskip 10\nset maxdepth 0\nset baselineskip 0\nset bottom flush\nset skipfootins 0\nset footsplittop 10\nset intextsep 0\nset textfloatsep 0\nset floatsep 0\nset fptop 0\nset fpsep 0\nset fpbot 0\nset dbltextfloatsep 0\nset marginparpush 2\nset mparswitch on\nbox a 10 0\nmargin m 8 4 8 4 par\nnewpage\nbox b 10 0\nmargin n 8 4 8 4 par\nend\n",
        status: 0,
        out: b"report 1\npage 1 one\ncolumn 1 text height 100 natural 10 set stretch fil 90/65536\nbox a 0 10 0\nmargin m right 0 10 8 4\npage 2 one\ncolumn 1 text height 100 natural 10 set stretch fil 90/65536\nbox b 0 10 0\nmargin n left 0 10 8 4\nend pages 2 boxes 2 floats 0 warnings 0\n",
        err: b"",
    },
    Row {
        name: "notes on reversed sides",
        input: b"galley 1\nset textheight 100\nset topskip 10\nset maxdepth 0\nset baselineskip 0\nset bottom flush\nset skipfootins 0\nset footsplittop 10\nset intextsep 0\nset textfloatsep 0\nset floatsep 0\nset fptop 0\nset fpsep 0\nset fpbot 0\nset dbltextfloatsep 0\nset marginparpush 2\nset mparswitch on\nset reversemargin on\nbox a 10 0\nmargin m 8 4 8 4 par\nnewpage\nbox b 10 0\nmargin n 8 4 8 4 par\nend\n",
        status: 0,
        out: b"report 1\npage 1 one\ncolumn 1 text height 100 natural 10 set stretch fil 90/65536\nbox a 0 10 0\nmargin m left 0 10 8 4\npage 2 one\ncolumn 1 text height 100 natural 10 set stretch fil 90/65536\nbox b 0 10 0\nmargin n right 0 10 8 4\nend pages 2 boxes 2 floats 0 warnings 0\n",
        err: b"",
    },
    Row {
        name: "marginal notes",
        input: b"galley 1\nset textheight 100\nset topskip 10\nset maxdepth 0\nset baselineskip 0\nset bottom flush\nset skipfootins 0\nset footsplittop 10\nset intextsep 0\nset textfloatsep 0\nset floatsep 0\nset fptop 0\nset fpsep 0\nset fpbot 0\nset dbltextfloatsep 0\nset marginparpush 2\nbox a 10 2\nmargin m 8 4 8 4 par\nbox b 6 2\nmargin n 8 4 8 4 par\nnewpage\nbox c 10 0\nmargin q 8 4 8 4 par\nend\n",
        status: 0,
        out: b"report 1\nwarn moved n 6\npage 1 one\ncolumn 1 text height 100 natural 20 set stretch fil 80/65536\nbox a 0 10 2\nmargin m right 0 10 8 4\nbox b 12 6 2\nmargin n right 6 18 8 4\npage 2 one\ncolumn 1 text height 100 natural 10 set stretch fil 90/65536\nbox c 0 10 0\nmargin q right 0 10 8 4\nend pages 2 boxes 3 floats 0 warnings 1\n",
        err: b"",
    },
];
