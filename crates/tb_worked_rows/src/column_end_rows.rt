//! Worked rows of galley version 3.

use crate::Row;

/// Worked rows of galley version 3: rules, glue at the ends of a column, how footnotes stand, depths of double floats, and classes below the footnotes.
pub const COLUMN_END_ROWS: [Row; 16] = [
    Row {
        name: "depth above footnotes dropped",
        input: b"galley 3\nset textheight 35\nset topskip 10\nset baselineskip 0\nset bottom flush\nset skipfootins 0\nset footsplittop 10\nset intextsep 0\nset textfloatsep 0\nset floatsep 0\nset fptop 0\nset fpsep 0\nset fpbot 0\nset dbltextfloatsep 0\nset dblfloatsep 0\nset dblfptop 0\nset dblfpsep 0\nset dblfpbot 0\nset footdepth drop\nset maxdepth 5\nbox a 10 4\nfoot\nbox f 10 0\nendfoot\nglue 0\nbox b 20 0\nend\n",
        status: 0,
        out: b"report 1\npage 1 one\ncolumn 1 text height 35 natural 20 set none\nbox a 0 10 4\nfootrule -196598 26214 0\nbox f 10 10 0\npage 2 one\ncolumn 1 text height 35 natural 20 set stretch fil 15/65536\nbox b 0 20 0\nend pages 2 boxes 3 floats 0 warnings 0\n",
        err: b"",
    },
    Row {
        name: "depth above footnotes kept",
        input: b"galley 3\nset textheight 35\nset topskip 10\nset baselineskip 0\nset bottom flush\nset skipfootins 0\nset footsplittop 10\nset intextsep 0\nset textfloatsep 0\nset floatsep 0\nset fptop 0\nset fpsep 0\nset fpbot 0\nset dbltextfloatsep 0\nset dblfloatsep 0\nset dblfptop 0\nset dblfpsep 0\nset dblfpbot 0\nset maxdepth 5\nbox a 10 4\nfoot\nbox f 10 0\nendfoot\nglue 0\nbox b 20 0\nend\n",
        status: 0,
        out: b"report 1\npage 1 one\ncolumn 1 text height 35 natural 24 set none\nbox a 0 10 4\nfootrule -196594 26214 0\nbox f 14 10 0\npage 2 one\ncolumn 1 text height 35 natural 20 set stretch fil 15/65536\nbox b 0 20 0\nend pages 2 boxes 3 floats 0 warnings 0\n",
        err: b"",
    },
    Row {
        name: "glue above footnotes",
        input: b"galley 3\nset textheight 40\nset topskip 10\nset maxdepth 0\nset baselineskip 0\nset bottom flush\nset skipfootins 0\nset footsplittop 10\nset intextsep 0\nset textfloatsep 0\nset floatsep 0\nset fptop 0\nset fpsep 0\nset fpbot 0\nset dbltextfloatsep 0\nset dblfloatsep 0\nset dblfptop 0\nset dblfpsep 0\nset dblfpbot 0\nset footfill 0 plus 1fill\nbox a 10 0\nfoot\nbox f 10 0\nendfoot\nend\n",
        status: 0,
        out: b"report 1\npage 1 one\ncolumn 1 text height 40 natural 20 set stretch fill 20/65536\nbox a 0 10 0\nfootrule -196578 26214 0\nbox f 30 10 0\nend pages 1 boxes 2 floats 0 warnings 0\n",
        err: b"",
    },
    Row {
        name: "footnotes below a bottom float",
        input: b"galley 3\nset textheight 60\nset topskip 10\nset maxdepth 0\nset baselineskip 0\nset bottom flush\nset skipfootins 0\nset footsplittop 10\nset intextsep 0\nset floatsep 0\nset fptop 0\nset fpsep 0\nset fpbot 0\nset dbltextfloatsep 0\nset dblfloatsep 0\nset dblfptop 0\nset dblfpsep 0\nset dblfpbot 0\nset footplace below\nset textfloatsep 2\nfloat F 1 single b 10 par\nbox a 10 0\nfoot\nbox f 10 0\nendfoot\nend\n",
        status: 0,
        out: b"report 1\npage 1 one\ncolumn 1 text height 60 natural 32 set stretch fil 28/65536\nbox a 0 10 0\nfloat F 1 bottom 40 10\nfootrule -196558 26214 0\nbox f 50 10 0\nend pages 1 boxes 2 floats 1 warnings 0\n",
        err: b"",
    },
    Row {
        name: "footnotes without a rule",
        input: b"galley 3\nset textheight 40\nset topskip 10\nset maxdepth 0\nset baselineskip 0\nset bottom flush\nset skipfootins 0\nset footsplittop 10\nset intextsep 0\nset textfloatsep 0\nset floatsep 0\nset fptop 0\nset fpsep 0\nset fpbot 0\nset dbltextfloatsep 0\nset dblfloatsep 0\nset dblfptop 0\nset dblfpsep 0\nset dblfpbot 0\nset footrule none\nbox a 10 0\nfoot\nbox f 10 0\nendfoot\nend\n",
        status: 0,
        out: b"report 1\npage 1 one\ncolumn 1 text height 40 natural 20 set stretch fil 20/65536\nbox a 0 10 0\nbox f 30 10 0\nend pages 1 boxes 2 floats 0 warnings 0\n",
        err: b"",
    },
    Row {
        name: "a rule of its own above footnotes",
        input: b"galley 3\nset textheight 40\nset topskip 10\nset maxdepth 0\nset baselineskip 0\nset bottom flush\nset skipfootins 0\nset footsplittop 10\nset intextsep 0\nset textfloatsep 0\nset floatsep 0\nset fptop 0\nset fpsep 0\nset fpbot 0\nset dbltextfloatsep 0\nset dblfloatsep 0\nset dblfptop 0\nset dblfpsep 0\nset dblfpbot 0\nset footrule 2 3 1\nbox a 10 0\nfoot\nbox f 10 0\nendfoot\nend\n",
        status: 0,
        out: b"report 1\npage 1 one\ncolumn 1 text height 40 natural 26 set stretch fil 14/65536\nbox a 0 10 0\nfootrule 26 3 0\nbox f 30 10 0\nend pages 1 boxes 2 floats 0 warnings 0\n",
        err: b"",
    },
    Row {
        name: "rules beside floats",
        input: b"galley 3\nset textheight 100\nset topskip 10\nset maxdepth 0\nset baselineskip 0\nset bottom flush\nset skipfootins 0\nset footsplittop 10\nset intextsep 0\nset textfloatsep 0\nset floatsep 0\nset fptop 0\nset fpsep 0\nset fpbot 0\nset dbltextfloatsep 0\nset dblfloatsep 0\nset dblfptop 0\nset dblfpsep 0\nset dblfpbot 0\nset toprule -3 1 2\nset bottomrule -4 1 3\nfloat F 1 single t 20 par\nbox a 10 0\nfloat G 2 single b 20 par\nend\n",
        status: 0,
        out: b"report 1\npage 1 one\ncolumn 1 text height 100 natural 50 set stretch fil 50/65536\nfloat F 1 top 0 20\nfloatrule 17 1 0\nbox a 20 10 0\nfloatrule 76 1 0\nfloat G 2 bottom 80 20\nend pages 1 boxes 1 floats 2 warnings 0\n",
        err: b"",
    },
    Row {
        name: "glue at the ends of a column",
        input: b"galley 3\nset textheight 40\nset topskip 10\nset maxdepth 0\nset baselineskip 0\nset bottom flush\nset skipfootins 0\nset footsplittop 10\nset intextsep 0\nset textfloatsep 0\nset floatsep 0\nset fptop 0\nset fpsep 0\nset fpbot 0\nset dbltextfloatsep 0\nset dblfloatsep 0\nset dblfptop 0\nset dblfpsep 0\nset dblfpbot 0\nset texttop 0 plus 2\nset textbottom 0 plus 1\nfloat F 1 single t 5 par\nbox a 10 0\nend\n",
        status: 0,
        out: b"report 1\npage 1 one\ncolumn 1 text height 40 natural 15 set stretch fil 25/65536\nfloat F 1 top 0 5\nbox a 5 10 0\nend pages 1 boxes 1 floats 1 warnings 0\n",
        err: b"",
    },
    Row {
        name: "a rule of a height below 0",
        input: b"galley 3\nset textheight 40\nset topskip 10\nset maxdepth 0\nset baselineskip 0\nset bottom flush\nset skipfootins 0\nset footsplittop 10\nset intextsep 0\nset textfloatsep 0\nset floatsep 0\nset fptop 0\nset fpsep 0\nset fpbot 0\nset dbltextfloatsep 0\nset dblfloatsep 0\nset dblfptop 0\nset dblfpsep 0\nset dblfpbot 0\nset footrule 2 -3 1\nend\n",
        status: 4,
        out: b"",
        err: b"galley_pages: line 20 field 4: Parameter\n",
    },
    Row {
        name: "a rule below double floats",
        input: b"galley 3\nset textheight 100\nset topskip 10\nset maxdepth 0\nset baselineskip 0\nset bottom flush\nset skipfootins 0\nset footsplittop 10\nset intextsep 0\nset textfloatsep 0\nset floatsep 0\nset fptop 0\nset fpsep 0\nset fpbot 0\nset dbltextfloatsep 0\nset dblfloatsep 0\nset dblfptop 0\nset dblfpsep 0\nset dblfpbot 0\nset release 2014\nset dblrule -3 1 2\ntwocolumn\nbox a 10 0\nfloat W 1 double t 20 par\nnewpage\nbox b 10 0\nnewpage\nbox c 10 0\nend\n",
        status: 0,
        out: b"report 1\npage 1 two at 0\ncolumn 1 text height 100 natural 10 set stretch fil 90/65536\nbox a 0 10 0\ncolumn 2 text height 100 natural 10 set stretch fil 90/65536\nbox b 0 10 0\npage 2 two at 20\nfloat W 1 wide 0 20\nfloatrule 17 1 0\ncolumn 1 text height 80 natural 10 set stretch fil 70/65536\nbox c 0 10 0\ncolumn 2 text height 80 natural 10 set stretch fil 70/65536\nend pages 2 boxes 3 floats 1 warnings 0\n",
        err: b"",
    },
    Row {
        name: "two double floats have depths",
        input: b"galley 3\nset textheight 100\nset topskip 10\nset maxdepth 0\nset baselineskip 0\nset bottom flush\nset skipfootins 0\nset footsplittop 10\nset intextsep 0\nset textfloatsep 0\nset floatsep 0\nset fptop 0\nset fpsep 0\nset fpbot 0\nset dbltextfloatsep 0\nset dblfloatsep 0\nset dblfptop 0\nset dblfpsep 0\nset dblfpbot 0\ntwocolumn\nfloat V 1 double p 30 par\nfloat W 1 double p 40 par\nbox a 10 0\nnewpage\nbox b 10 0\nend\n",
        status: 0,
        out: b"report 1\npage 1 two at 0\ncolumn 1 text height 100 natural 10 set stretch fil 90/65536\nbox a 0 10 0\ncolumn 2 text height 100 natural 10 set stretch fil 90/65536\nbox b 0 10 0\npage 2 wide\ncolumn 1 floats height 100 natural 72 set none\nfloat V 1 page 0 30\nfloat W 1 page 31 40\nend pages 2 boxes 2 floats 2 warnings 0\n",
        err: b"",
    },
    Row {
        name: "a rule below a double float of depth 1",
        input: b"galley 3\nset textheight 100\nset topskip 10\nset maxdepth 0\nset baselineskip 0\nset bottom flush\nset skipfootins 0\nset footsplittop 10\nset intextsep 0\nset textfloatsep 0\nset floatsep 0\nset fptop 0\nset fpsep 0\nset fpbot 0\nset dbltextfloatsep 0\nset dblfloatsep 0\nset dblfptop 0\nset dblfpsep 0\nset dblfpbot 0\nset dblrule -3 1 2\ntwocolumn\nbox a 10 0\nfloat W 1 double t 20 par\nnewpage\nbox b 10 0\nnewpage\nbox c 10 0\nend\n",
        status: 0,
        out: b"report 1\npage 1 two at 0\ncolumn 1 text height 100 natural 10 set stretch fil 90/65536\nbox a 0 10 0\ncolumn 2 text height 100 natural 10 set stretch fil 90/65536\nbox b 0 10 0\npage 2 two at 21\nfloat W 1 wide 0 20\nfloatrule 18 1 0\ncolumn 1 text height 80 natural 10 set stretch fil 70/65536\nbox c 0 10 0\ncolumn 2 text height 80 natural 10 set stretch fil 70/65536\nend pages 2 boxes 3 floats 1 warnings 0\n",
        err: b"",
    },
    Row {
        name: "nobreak in version 2",
        input: b"galley 2\nfloat F 1 single h 20 vert nobreak\nend\n",
        status: 3,
        out: b"",
        err: b"galley_pages: line 2 field 8: ExtraField\n",
    },
    Row {
        name: "another word than nobreak",
        input: b"galley 3\nmargin m 1 0 1 0 par now\nend\n",
        status: 3,
        out: b"",
        err: b"galley_pages: line 2 field 8: UnknownWord\n",
    },
    Row {
        name: "a class below the footnotes",
        input: b"galley 3\nset textheight 60\nset topskip 10\nset maxdepth 0\nset baselineskip 0\nset bottom flush\nset skipfootins 0\nset footsplittop 10\nset intextsep 0\nset textfloatsep 0\nset floatsep 0\nset fptop 0\nset fpsep 0\nset fpbot 0\nset dbltextfloatsep 0\nset dblfloatsep 0\nset dblfptop 0\nset dblfpsep 0\nset dblfpbot 0\nclass 3 1000 1000 below -2 1 1 2\nclass 4 1000 1000 1\nbox a 10 0\nfoot 3\nbox g 10 0\nendfoot\nfoot\nbox f 10 0\nendfoot\nfoot 4\nbox k 10 0\nendfoot\nend\n",
        status: 0,
        out: b"report 1\npage 1 one\ncolumn 1 text height 60 natural 43 set stretch fil 17/65536\nbox a 0 10 0\nbox k 28 10 0\nfootrule -196570 26214 0\nbox f 38 10 0\nfootrule 48 1 0\nbox g 50 10 0\nend pages 1 boxes 4 floats 0 warnings 0\n",
        err: b"",
    },
    Row {
        name: "a class below the footnotes in version 2",
        input: b"galley 2\nclass 3 1000 1000 below -2 1 1 2\nend\n",
        status: 3,
        out: b"",
        err: b"galley_pages: line 2 field 5: BadNumber\n",
    },
];
