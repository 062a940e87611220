//! Worked rows of other versions.

use crate::Row;

/// Worked rows of galley version 2 and of release 2014.
pub const VERSION_ROWS: [Row; 4] = [
    Row {
        name: "class of factor 500",
        input: b"galley 2\nset textheight 40000\nset topskip 10\nset maxdepth 0\nset baselineskip 0\nset bottom flush\nset skipfootins 0\nset footsplittop 10\nset intextsep 0\nset textfloatsep 0\nset floatsep 0\nset fptop 0\nset fpsep 0\nset fpbot 0\nset dbltextfloatsep 0\nclass 3 500 100000 0\nbox a 10000 0\nfoot 3\nbox f 20000 0\nendfoot\nend\n",
        status: 0,
        out: b"report 1\npage 1 one\ncolumn 1 text height 40000 natural 30000 set stretch fil 10000/65536\nbox a 0 10000 0\nbox f 20000 20000 0\nend pages 1 boxes 2 floats 0 warnings 0\n",
        err: b"",
    },
    Row {
        name: "two classes in a column",
        input: b"galley 2\nset textheight 40\nset topskip 10\nset maxdepth 0\nset baselineskip 0\nset bottom flush\nset skipfootins 0\nset footsplittop 10\nset intextsep 0\nset textfloatsep 0\nset floatsep 0\nset fptop 0\nset fpsep 0\nset fpbot 0\nset dbltextfloatsep 0\nclass 3 1000 1000 0\nbox a 10 0\nfoot\nbox f 10 0\nendfoot\nfoot 3\nbox g 10 0\nendfoot\nend\n",
        status: 0,
        out: b"report 1\npage 1 one\ncolumn 1 text height 40 natural 30 set stretch fil 10/65536\nbox a 0 10 0\nbox g 20 10 0\nfootrule -196578 26214 0\nbox f 30 10 0\nend pages 1 boxes 3 floats 0 warnings 0\n",
        err: b"",
    },
    Row {
        name: "release 2014",
        input: b"galley 2\nset textheight 100\nset topskip 10\nset maxdepth 0\nset baselineskip 0\nset bottom flush\nset skipfootins 0\nset footsplittop 10\nset intextsep 0\nset textfloatsep 0\nset floatsep 0\nset fptop 0\nset fpsep 0\nset fpbot 0\nset dbltextfloatsep 0\nset release 2014\ntwocolumn\nbox a 20 0\nfloat W 1 double t 30 par\nfloat S 1 single ht 20 par\nnewpage\nbox b 10 0\nnewpage\nbox c 10 0\nend\n",
        status: 0,
        out: b"report 1\npage 1 two at 0\ncolumn 1 text height 100 natural 40 set stretch fil 60/65536\nbox a 0 20 0\nfloat S 1 here 20 20\ncolumn 2 text height 100 natural 10 set stretch fil 90/65536\nbox b 0 10 0\npage 2 two at 30\nfloat W 1 wide 0 30\ncolumn 1 text height 70 natural 10 set stretch fil 60/65536\nbox c 0 10 0\ncolumn 2 text height 70 natural 10 set stretch fil 60/65536\nend pages 2 boxes 3 floats 2 warnings 0\n",
        err: b"",
    },
    Row {
        name: "release 2015",
        input: b"galley 2\nset textheight 100\nset topskip 10\nset maxdepth 0\nset baselineskip 0\nset bottom flush\nset skipfootins 0\nset footsplittop 10\nset intextsep 0\nset textfloatsep 0\nset floatsep 0\nset fptop 0\nset fpsep 0\nset fpbot 0\nset dbltextfloatsep 0\nset release 2015\ntwocolumn\nbox a 20 0\nfloat W 1 double t 30 par\nfloat S 1 single ht 20 par\nnewpage\nbox b 10 0\nnewpage\nbox c 10 0\nend\n",
        status: 0,
        out: b"report 1\npage 1 two at 0\ncolumn 1 text height 100 natural 20 set stretch fil 80/65536\nbox a 0 20 0\ncolumn 2 text height 100 natural 10 set stretch fil 90/65536\nbox b 0 10 0\npage 2 two at 30\nfloat W 1 wide 0 30\ncolumn 1 text height 70 natural 30 set stretch fil 40/65536\nfloat S 1 top 0 20\nbox c 20 10 0\ncolumn 2 text height 70 natural 10 set stretch fil 60/65536\nend pages 2 boxes 3 floats 2 warnings 0\n",
        err: b"",
    },
];
