//! Worked rows of the mode rate.

use crate::ModeRow;

/// The worked rows of the mode rate.
pub const RATE_ROWS: [ModeRow; 9] = [
    ModeRow {
        name: "ratings, line left alone",
        words: &["--mode", "rate"],
        input: b"galley 1\nset textheight 40\nset topskip 10\nset maxdepth 0\nset baselineskip 0\nset bottom flush\nset skipfootins 0\nset footsplittop 10\nset intextsep 0\nset textfloatsep 0\nset floatsep 0\nset fptop 0\nset fpsep 0\nset fpbot 0\nset dbltextfloatsep 0\nbox a 10 0\nglue 0 plus 10\nbox b 10 0\nglue 0 plus 10\nbox c 10 0\nglue 0 plus 10\nbox d 10 0\nglue 0 plus 10\nbox e 10 0\nglue 0 plus 10\nbox f 35 0\nend\n",
        status: 0,
        out: b"report 1\npage 1 one\ncolumn 1 text height 40 natural 40 set none\nbox a 0 10 0\nbox b 10 10 0\nbox c 20 10 0\nbox d 30 10 0\nrated 1 badness 0 penalty 0 waiting 0 held 0 demerits 100\npage 2 one\ncolumn 1 text height 40 natural 10 set none\nbox e 0 10 0\nrated 2 badness 10000 penalty 0 waiting 0 held 0 demerits 100000000\npage 3 one\ncolumn 1 text height 40 natural 35 set stretch fil 5/65536\nbox f 0 35 0\nrated 3 badness 0 penalty 0 waiting 0 held 0 demerits 100\nend pages 3 boxes 6 floats 0 warnings 0\nrated demerits 100000200\n",
        err: b"",
    },
    ModeRow {
        name: "ratings, no pages",
        words: &["--mode", "rate"],
        input: b"galley 1\nend\n",
        status: 0,
        out: b"report 1\nend pages 0 boxes 0 floats 0 warnings 0\nrated demerits 0\n",
        err: b"",
    },
    ModeRow {
        name: "ratings, page that ends at a penalty",
        words: &["--mode", "rate"],
        input: b"galley 1\nset textheight 40\nset topskip 10\nset maxdepth 0\nset baselineskip 0\nset bottom flush\nset skipfootins 0\nset footsplittop 10\nset intextsep 0\nset textfloatsep 0\nset floatsep 0\nset fptop 0\nset fpsep 0\nset fpbot 0\nset dbltextfloatsep 0\nbox a 10 0\nglue 0 plus 20\nbox b 10 0\npenalty 55\nglue 0\nbox c 20 0\npenalty 150\nglue 0\nbox d 10 0\nend\n",
        status: 0,
        out: b"report 1\npage 1 one\ncolumn 1 text height 40 natural 40 set none\nbox a 0 10 0\nbox b 10 10 0\nbox c 20 20 0\nrated 1 badness 0 penalty 150 waiting 0 held 0 demerits 22600\npage 2 one\ncolumn 1 text height 40 natural 10 set stretch fil 30/65536\nbox d 0 10 0\nrated 2 badness 0 penalty 0 waiting 0 held 0 demerits 100\nend pages 2 boxes 4 floats 0 warnings 0\nrated demerits 22700\n",
        err: b"",
    },
    ModeRow {
        name: "ratings, short page before a float",
        words: &["--mode", "rate"],
        input: b"galley 1\nset textheight 100\nset topskip 10\nset maxdepth 0\nset baselineskip 0\nset bottom flush\nset skipfootins 0\nset footsplittop 10\nset intextsep 0\nset textfloatsep 0\nset floatsep 0\nset fptop 0\nset fpsep 0\nset fpbot 0\nset dbltextfloatsep 0\nbox a 40 0\nglue 0 plus 60\nbox b 40 0\nglue 0 plus 60\nbox c 10 0\nfloat F 1 single t 30 par\nglue 0 plus 60\nbox d 50 0\nglue 0 plus 60\nbox e 30 0\nend\n",
        status: 0,
        out: b"report 1\npage 1 one\ncolumn 1 text height 100 natural 90 set stretch normal 10/120\nbox a 0 40 0\nbox b 45 40 0\nbox c 90 10 0\nrated 1 badness 0 penalty 0 waiting 0 held 0 demerits 100\npage 2 one\ncolumn 1 text height 100 natural 80 set none\nfloat F 1 top 0 30\nbox d 30 50 0\nrated 2 badness 10000 penalty 0 waiting 0 held 0 demerits 100000000\npage 3 one\ncolumn 1 text height 100 natural 30 set stretch fil 70/65536\nbox e 0 30 0\nrated 3 badness 0 penalty 0 waiting 0 held 0 demerits 100\nend pages 3 boxes 5 floats 1 warnings 0\nrated demerits 100000200\n",
        err: b"",
    },
    ModeRow {
        name: "ratings, split footnote",
        words: &["--mode", "rate"],
        input: b"galley 1\nset textheight 45\nset topskip 10\nset maxdepth 0\nset baselineskip 0\nset bottom flush\nset skipfootins 0\nset footsplittop 10\nset intextsep 0\nset textfloatsep 0\nset floatsep 0\nset fptop 0\nset fpsep 0\nset fpbot 0\nset dbltextfloatsep 0\nbox a 10 0\nglue 0 plus 30\nbox b 10 0\nglue 0 plus 30\nbox c 10 0\nfoot\nbox f 10 0\nglue 0\nbox g 10 0\nendfoot\nglue 0 plus 10\nbox d 10 0\nend\n",
        status: 0,
        out: b"report 1\npage 1 one\ncolumn 1 text height 45 natural 40 set stretch normal 5/60\nbox a 0 10 0\nbox b 12 10 0\nbox c 25 10 0\nfootrule -196573 26214 0\nbox f 35 10 0\nrated 1 badness 0 penalty 0 waiting 0 held 1 demerits 10100\npage 2 one\ncolumn 1 text height 45 natural 20 set stretch fil 25/65536\nbox d 0 10 0\nfootrule -196573 26214 0\nbox g 35 10 0\nrated 2 badness 0 penalty 0 waiting 0 held 0 demerits 100\nend pages 2 boxes 6 floats 0 warnings 0\nrated demerits 10200\n",
        err: b"",
    },
    ModeRow {
        name: "ratings, overfull box",
        words: &["--mode", "rate"],
        input: b"galley 1\nset textheight 30\nset topskip 10\nset maxdepth 0\nset baselineskip 0\nset bottom flush\nset skipfootins 0\nset footsplittop 10\nset intextsep 0\nset textfloatsep 0\nset floatsep 0\nset fptop 0\nset fpsep 0\nset fpbot 0\nset dbltextfloatsep 0\nbox a 10 0\nglue 0 plus 10\nbox b 50 0\nglue 0 plus 10\nbox c 10 0\nnewpage\nbox d 10 0\npagebreak 4\nbox e 10 0\nend\n",
        status: 0,
        out: b"report 1\npage 1 one\ncolumn 1 text height 30 natural 10 set none\nbox a 0 10 0\nrated 1 badness 10000 penalty 0 waiting 0 held 0 demerits 100000000\npage 2 one\ncolumn 1 text height 30 natural 50 set none overfull 20\nbox b 0 50 0\nrated 2 badness * penalty 0 waiting 0 held 0 demerits 1000000000\npage 3 one\ncolumn 1 text height 30 natural 10 set stretch fil 20/65536\nbox c 0 10 0\nrated 3 badness 0 penalty 0 waiting 0 held 0 demerits 100\npage 4 one\ncolumn 1 text height 30 natural 10 set none\nbox d 0 10 0\nrated 4 badness 10000 penalty 0 waiting 0 held 0 demerits 100000000\npage 5 one\ncolumn 1 text height 30 natural 10 set stretch fil 20/65536\nbox e 0 10 0\nrated 5 badness 0 penalty 0 waiting 0 held 0 demerits 100\nend pages 5 boxes 5 floats 0 warnings 0\nrated demerits 1200000200\n",
        err: b"",
    },
    ModeRow {
        name: "ratings, ragged pages",
        words: &["--mode", "rate"],
        input: b"galley 1\nset textheight 40\nset topskip 10\nset maxdepth 0\nset baselineskip 0\nset bottom ragged\nset skipfootins 0\nset footsplittop 10\nset intextsep 0\nset textfloatsep 0\nset floatsep 0\nset fptop 0\nset fpsep 0\nset fpbot 0\nset dbltextfloatsep 0\nset baselineskip 10\nbox a 10 0\npenalty 150\nglue 0\nbox b 10 0\nglue 0\nbox c 10 0\nglue 0\nbox d 10 0\npenalty 150\nglue 0\nbox e 10 0\nglue 0\nbox f 10 0\nend\n",
        status: 0,
        out: b"report 1\npage 1 one\ncolumn 1 text height 40 natural 40 set none\nbox a 0 10 0\nbox b 10 10 0\nbox c 20 10 0\nbox d 30 10 0\nrated 1 badness 0 penalty 150 waiting 0 held 0 demerits 22600\npage 2 one\ncolumn 1 text height 40 natural 20 set stretch fil 20/65543\nbox e 0 10 0\nbox f 10 10 0\nrated 2 badness 0 penalty 0 waiting 0 held 0 demerits 100\nend pages 2 boxes 6 floats 0 warnings 0\nrated demerits 22700\n",
        err: b"",
    },
    ModeRow {
        name: "ratings, refused run",
        words: &["--mode", "rate"],
        input: b"galley 1\nset textheight 30\nset topskip 10\nset maxdepth 0\nset baselineskip 0\nset bottom flush\nset skipfootins 0\nset footsplittop 10\nset intextsep 0\nset textfloatsep 0\nset floatsep 0\nset fptop 0\nset fpsep 0\nset fpbot 0\nset dbltextfloatsep 0\nset maxdeadcycles 1\nclearpage\nend\n",
        status: 6,
        out: b"report 1\n",
        err: b"galley_pages: dead cycles 1\n",
    },
    ModeRow {
        name: "ratings, two columns",
        words: &["--mode", "rate"],
        input: b"galley 1\nset textheight 40\nset topskip 10\nset maxdepth 0\nset baselineskip 0\nset bottom flush\nset skipfootins 0\nset footsplittop 10\nset intextsep 0\nset textfloatsep 0\nset floatsep 0\nset fptop 0\nset fpsep 0\nset fpbot 0\nset dbltextfloatsep 0\ntwocolumn\nbox a 10 0\nglue 0 plus 10\nbox b 10 0\nglue 0 plus 10\nbox c 10 0\nglue 0 plus 10\nbox d 10 0\nglue 0 plus 10\nbox e 10 0\nglue 0 plus 10\nbox f 35 0\nend\n",
        status: 0,
        out: b"report 1\nrated 1 badness 0 penalty 0 waiting 0 held 0 demerits 100\npage 1 two at 0\ncolumn 1 text height 40 natural 40 set none\nbox a 0 10 0\nbox b 10 10 0\nbox c 20 10 0\nbox d 30 10 0\ncolumn 2 text height 40 natural 10 set none\nbox e 0 10 0\nrated 1 badness 10000 penalty 0 waiting 0 held 0 demerits 100000000\nrated 2 badness 0 penalty 0 waiting 0 held 0 demerits 100\npage 2 two at 0\ncolumn 1 text height 40 natural 35 set stretch fil 5/65536\nbox f 0 35 0\ncolumn 2 text height 40 natural 10 set stretch fil 30/65536\nrated 2 badness 0 penalty 0 waiting 0 held 0 demerits 100\nend pages 2 boxes 6 floats 0 warnings 0\nrated demerits 100000300\n",
        err: b"",
    },
];
