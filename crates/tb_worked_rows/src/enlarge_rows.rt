//! Worked rows of pages that are made higher.

use crate::Row;

/// Worked rows of the word `enlarge`, which makes a page higher.
pub const ENLARGE_ROWS: [Row; 6] = [
    Row {
        name: "a page is made higher",
        input: b"galley 3\nset textheight 30\nset topskip 10\nset maxdepth 0\nset baselineskip 0\nset bottom flush\nset skipfootins 0\nset footsplittop 10\nset intextsep 0\nset textfloatsep 0\nset floatsep 0\nset fptop 0\nset fpsep 0\nset fpbot 0\nset dbltextfloatsep 0\nset dblfloatsep 0\nset dblfptop 0\nset dblfpsep 0\nset dblfpbot 0\nenlarge 10\nbox a 10 0\nglue 0\nbox b 10 0\nglue 0\nbox c 10 0\nglue 0\nbox d 10 0\nglue 0\nbox e 10 0\nend\n",
        status: 0,
        out: b"report 1\npage 1 one\ncolumn 1 text height 40 natural 40 set none\nbox a 0 10 0\nbox b 10 10 0\nbox c 20 10 0\nbox d 30 10 0\npage 2 one\ncolumn 1 text height 30 natural 10 set stretch fil 20/65536\nbox e 0 10 0\nend pages 2 boxes 5 floats 0 warnings 0\n",
        err: b"",
    },
    Row {
        name: "a page is made less high",
        input: b"galley 3\nset textheight 40\nset topskip 10\nset maxdepth 0\nset baselineskip 0\nset bottom flush\nset skipfootins 0\nset footsplittop 10\nset intextsep 0\nset textfloatsep 0\nset floatsep 0\nset fptop 0\nset fpsep 0\nset fpbot 0\nset dbltextfloatsep 0\nset dblfloatsep 0\nset dblfptop 0\nset dblfpsep 0\nset dblfpbot 0\nenlarge -10\nbox a 10 0\nglue 0\nbox b 10 0\nglue 0\nbox c 10 0\nglue 0\nbox d 10 0\nend\n",
        status: 0,
        out: b"report 1\npage 1 one\ncolumn 1 text height 30 natural 30 set none\nbox a 0 10 0\nbox b 10 10 0\nbox c 20 10 0\npage 2 one\ncolumn 1 text height 40 natural 10 set stretch fil 30/65536\nbox d 0 10 0\nend pages 2 boxes 4 floats 0 warnings 0\n",
        err: b"",
    },
    Row {
        name: "a page that is made higher with a star is shrunk",
        input: b"galley 3\nset textheight 40\nset topskip 10\nset maxdepth 0\nset baselineskip 0\nset bottom flush\nset skipfootins 0\nset footsplittop 10\nset intextsep 0\nset textfloatsep 0\nset floatsep 0\nset fptop 0\nset fpsep 0\nset fpbot 0\nset dbltextfloatsep 0\nset dblfloatsep 0\nset dblfptop 0\nset dblfpsep 0\nset dblfpbot 0\nenlarge 12 star\nbox a 10 0\nglue 10 minus 4\nbox b 10 0\nglue 10 minus 8\nbox c 10 0\nglue 0\nbox d 10 0\nend\n",
        status: 0,
        out: b"report 1\npage 1 one\ncolumn 1 text height 40 natural 52 set shrink 12/12\nbox a 0 10 0\nbox b 16 10 0\nbox c 28 10 0\nbox d 38 10 0\nend pages 1 boxes 4 floats 0 warnings 0\n",
        err: b"",
    },
    Row {
        name: "what makes a page higher makes none before a clear",
        input: b"galley 3\nset textheight 30\nset topskip 10\nset maxdepth 0\nset baselineskip 0\nset bottom flush\nset skipfootins 0\nset footsplittop 10\nset intextsep 0\nset textfloatsep 0\nset floatsep 0\nset fptop 0\nset fpsep 0\nset fpbot 0\nset dbltextfloatsep 0\nset dblfloatsep 0\nset dblfptop 0\nset dblfpsep 0\nset dblfpbot 0\nbox a 10 0\nnewpage\nenlarge 10\nend\n",
        status: 0,
        out: b"report 1\npage 1 one\ncolumn 1 text height 30 natural 10 set stretch fil 20/65536\nbox a 0 10 0\nend pages 1 boxes 1 floats 0 warnings 0\n",
        err: b"",
    },
    Row {
        name: "a page with a footnote is made higher",
        input: b"galley 3\nset textheight 40\nset topskip 10\nset baselineskip 0\nset bottom flush\nset skipfootins 0\nset footsplittop 10\nset intextsep 0\nset textfloatsep 0\nset floatsep 0\nset fptop 0\nset fpsep 0\nset fpbot 0\nset dbltextfloatsep 0\nset dblfloatsep 0\nset dblfptop 0\nset dblfpsep 0\nset dblfpbot 0\nenlarge 5\nbox a 10 2\nfoot\nbox f 20 0\nendfoot\nglue 0 plus 1\nbox b 10 3\nend\n",
        status: 0,
        out: b"report 1\npage 1 one\ncolumn 1 text height 45 natural 45 set none\nbox a 0 10 2\nbox b 12 10 3\nfootrule -196583 26214 0\nbox f 25 20 0\nend pages 1 boxes 3 floats 0 warnings 0\n",
        err: b"",
    },
    Row {
        name: "a float finds room on a page that is made higher",
        input: b"galley 3\nset textheight 30\nset topskip 10\nset maxdepth 0\nset baselineskip 0\nset bottom flush\nset skipfootins 0\nset footsplittop 10\nset intextsep 0\nset textfloatsep 0\nset floatsep 0\nset fptop 0\nset fpsep 0\nset fpbot 0\nset dbltextfloatsep 0\nset dblfloatsep 0\nset dblfptop 0\nset dblfpsep 0\nset dblfpbot 0\nenlarge 10\nbox a 10 0\nfloat F 1 single h 15 par\nglue 0\nbox b 10 0\nend\n",
        status: 0,
        out: b"report 1\npage 1 one\ncolumn 1 text height 40 natural 35 set stretch fil 5/65536\nbox a 0 10 0\nfloat F 1 here 10 15\nbox b 25 10 0\nend pages 1 boxes 2 floats 1 warnings 0\n",
        err: b"",
    },
];
