//! Worked rows of floats and notes below headings.

use crate::ModeRow;

/// Worked rows of galley version 3, traced: no page may end at a float or note with `nobreak`.
pub const HEADING_ROWS: [ModeRow; 4] = [
    ModeRow {
        name: "a float below a heading",
        words: &["--mode", "trace"],
        input: b"galley 3\nset textheight 100\nset topskip 10\nset maxdepth 0\nset baselineskip 0\nset bottom flush\nset skipfootins 0\nset footsplittop 10\nset intextsep 0\nset textfloatsep 0\nset floatsep 0\nset fptop 0\nset fpsep 0\nset fpbot 0\nset dbltextfloatsep 0\nset dblfloatsep 0\nset dblfptop 0\nset dblfpsep 0\nset dblfpbot 0\nbox a 10 0\npenalty 10000\nfloat F 1 single h 20 vert nobreak\nbox b 10 0\nend\n",
        status: 0,
        out: b"report 1\ntry 22 t 10 s 0 0 0 0 z 0 g 100 b 10000 p -10004 c -10004 #\ntry 22 t 10 s 0 0 0 0 z 0 g 1073741823 b 10000 p -10003 c -10003 #\ntry 0 t 30 s 0 0 0 0 z 0 g 100 b 10000 p 0 c 100000 #\ntry 24 t 40 s -65536 0 0 0 z 0 g 100 b 10000 p 0 c 100000 #\ntry 24 t 40 s -65536 65536 0 0 z 0 g 100 b 0 p -10000 c -10000 #\npage 1 one\ncolumn 1 text height 100 natural 40 set stretch fil 60/65536\nbox a 0 10 0\nfloat F 1 here 10 20\nbox b 30 10 0\ntry 24 t 0 s 0 0 0 0 z 0 g 100 b 10000 p 0 c 100000 #\ntry 24 t 10 s 0 0 0 0 z 0 g 100 b 10000 p -10001 c -10001 #\nend pages 1 boxes 2 floats 1 warnings 0\n",
        err: b"",
    },
    ModeRow {
        name: "a deferred float below a heading",
        words: &["--mode", "trace"],
        input: b"galley 3\nset textheight 100\nset topskip 10\nset maxdepth 0\nset baselineskip 0\nset bottom flush\nset skipfootins 0\nset footsplittop 10\nset intextsep 0\nset textfloatsep 0\nset floatsep 0\nset fptop 0\nset fpsep 0\nset fpbot 0\nset dbltextfloatsep 0\nset dblfloatsep 0\nset dblfptop 0\nset dblfpsep 0\nset dblfpbot 0\nbox a 10 0\npenalty 10000\nfloat F 1 single p 20 vert nobreak\nglue 0\nbox b 10 0\nend\n",
        status: 0,
        out: b"report 1\ntry 22 t 10 s 0 0 0 0 z 0 g 100 b 10000 p -10004 c -10004 #\ntry 22 t 10 s 0 0 0 0 z 0 g 1073741823 b 10000 p -10003 c -10003 #\ntry 25 t 20 s 0 0 0 0 z 0 g 100 b 10000 p 0 c 100000 #\ntry 25 t 20 s 0 65536 0 0 z 0 g 100 b 0 p -10000 c -10000 #\npage 1 one\ncolumn 1 text height 100 natural 20 set stretch fil 80/65536\nbox a 0 10 0\nbox b 10 10 0\ntry 25 t 0 s 0 0 0 0 z 0 g 100 b 10000 p 0 c 100000 #\ntry 25 t 10 s 0 0 0 0 z 0 g 100 b 10000 p -10001 c -10001 #\npage 2 one\ncolumn 1 floats height 100 natural 20 set none\nfloat F 1 page 0 20\nend pages 2 boxes 2 floats 1 warnings 0\n",
        err: b"",
    },
    ModeRow {
        name: "a note below a heading",
        words: &["--mode", "trace"],
        input: b"galley 3\nset textheight 100\nset topskip 10\nset maxdepth 0\nset baselineskip 0\nset bottom flush\nset skipfootins 0\nset footsplittop 10\nset intextsep 0\nset textfloatsep 0\nset floatsep 0\nset fptop 0\nset fpsep 0\nset fpbot 0\nset dbltextfloatsep 0\nset dblfloatsep 0\nset dblfptop 0\nset dblfpsep 0\nset dblfpbot 0\nbox a 10 0\npenalty 10000\nmargin N 5 0 5 0 vert nobreak\nglue 0\nbox b 10 0\nend\n",
        status: 0,
        out: b"report 1\ntry 22 t 10 s 0 0 0 0 z 0 g 100 b 10000 p -10004 c -10004 #\ntry 22 t 10 s 0 0 0 0 z 0 g 1073741823 b 10000 p -10003 c -10003 #\ntry 25 t 20 s 0 0 0 0 z 0 g 100 b 10000 p 0 c 100000 #\ntry 25 t 20 s 0 65536 0 0 z 0 g 100 b 0 p -10000 c -10000 #\npage 1 one\ncolumn 1 text height 100 natural 20 set stretch fil 80/65536\nbox a 0 10 0\nmargin N right 0 10 5 0\nbox b 10 10 0\ntry 25 t 0 s 0 0 0 0 z 0 g 100 b 10000 p 0 c 100000 #\ntry 25 t 10 s 0 0 0 0 z 0 g 100 b 10000 p -10001 c -10001 #\nend pages 1 boxes 2 floats 0 warnings 0\n",
        err: b"",
    },
    ModeRow {
        name: "nobreak is printed",
        words: &["--mode", "print"],
        input: b"galley 3\nset pool 3\nfloat F 1 double !p 1pt par nobreak\nmargin m 1 0 2 0 vert nobreak\nend\n",
        status: 0,
        out: b"galley 3\nset textheight 36044800\nset topskip 655360\nset maxdepth 327680\nset baselineskip 786432\nset bottom ragged\nset topnumber 2\nset bottomnumber 1\nset totalnumber 3\nset dbltopnumber 2\nset topfraction 45875/65536\nset bottomfraction 19661/65536\nset textfraction 13107/65536\nset floatpagefraction 32768/65536\nset dbltopfraction 45875/65536\nset dblfloatpagefraction 32768/65536\nset floatsep 786432 plus 131072 minus 131072\nset textfloatsep 1310720 plus 131072 minus 262144\nset intextsep 786432 plus 131072 minus 131072\nset dblfloatsep 786432 plus 131072 minus 131072\nset dbltextfloatsep 1310720 plus 131072 minus 262144\nset fptop 0 plus 65536sfil minus 0\nset fpsep 524288 plus 131072sfil minus 0\nset fpbot 0 plus 65536sfil minus 0\nset dblfptop 0 plus 65536sfil minus 0\nset dblfpsep 524288 plus 131072sfil minus 0\nset dblfpbot 0 plus 65536sfil minus 0\nset skipfootins 589824 plus 262144 minus 131072\nset footlimit 37890293\nset footsplittop 435814\nset footsplitdepth 186778\nset footfloating 20000\nset splittopskip 655360\nset splitmaxdepth 1073741823\nset floatingpenalty 0\nset interlinepenalty 0\nset parskip 0 plus 65536 minus 0\nset marginparpush 327680\nset mparswitch off\nset reversemargin off\nset pool 3\nset maxdeadcycles 100\nset maxpages 1000000\nset maxnodes 4194304\nset release 2015\nset texttop 0 plus 0 minus 0\nset textbottom 0 plus 0 minus 0\nset footrule -196608 26214 170394\nset toprule none\nset bottomrule none\nset dblrule none\nset footdepth keep\nset footfill 0 plus 0 minus 0\nset footplace above\nfloat F 1 double !p 65536 par nobreak\nmargin m 1 0 2 0 vert nobreak\nend\n",
        err: b"",
    },
];
