use std::alloc::Global;
use std::test::Fail;
use tb_lines::{
    LinesCause, LinesFault, LinesRefusal, break_par, cause_text, check_lines, galleys_are_accepted,
    is_range_cause, line_text, lines_galley, put_refusal, read_lines, solutions_are_least,
};

// Two lines of two words each: 200 demerits.
const FOUR_WORDS: &[u8] =
    b"lines 1\nset hsize 100\nset baselineskip 12\npar p\nword 45 7 2\nspace 10 5 4\nword 45 7 2\nspace 10 5 4\nword 45 7 2\nspace 10 5 4\nword 45 7 2\nendpar\nend\n";

// The galley of its lines.
const TWO_LINES: &[u8] =
    b"galley 1\nbox p.1 7 2\npenalty 300\nglue 3 plus 0 minus 0\nbox p.2 7 2\nend\n";

// All eight parameters, and two paragraphs of four lines. Without any one of the values, or with two of them exchanged, the
// galley is another.
const ALL_PARAMETERS: &[u8] =
    b"lines 1\nset hsize 30\nset tolerance 2000\nset linepenalty 1500\nset clubpenalty 1\nset widowpenalty 20\nset baselineskip 12\nset lineskip 4\nset parskip 5\npar a\nword 11 7 2\nspace 6 3 3\nword 7 11 2\nspace 6 3 3\nword 6 11 2\nspace 6 3 3\nword 7 7 2\nspace 6 3 3\nword 7 7 2\nspace 6 3 3\nword 10 11 2\nspace 6 3 3\nword 7 7 2\nspace 6 3 3\nword 9 11 2\nspace 6 3 3\nword 12 7 2\nspace 6 3 3\nword 12 7 2\nendpar\npar b\nword 10 7 6\nspace 6 3 3\nword 12 7 2\nspace 6 3 3\nword 13 7 6\nspace 6 3 3\nword 12 7 2\nspace 6 3 3\nword 12 7 6\nspace 6 3 3\nword 10 7 2\nspace 6 3 3\nword 10 7 2\nspace 6 3 3\nword 11 7 6\nendpar\nend\n";

// The galley of its lines.
const EIGHT_LINES: &[u8] =
    b"galley 1\nbox a.1 11 2\npenalty 1\nglue 4 plus 0 minus 0\nbox a.2 11 2\nglue 4 plus 0 minus 0\nbox a.3 11 2\npenalty 20\nglue 3 plus 0 minus 0\nbox a.4 7 2\nglue 5 plus 0 minus 0\nglue 3 plus 0 minus 0\nbox b.1 7 6\npenalty 1\nglue 4 plus 0 minus 0\nbox b.2 7 6\nglue 4 plus 0 minus 0\nbox b.3 7 6\npenalty 20\nglue 4 plus 0 minus 0\nbox b.4 7 6\nend\n";

// What a text gives: the galley, or in one line why there is none.
fn answer(alloc: Global, text: &[u8]) -> Result<Vec<u8>, Fail> {
    Ok(match lines_galley(alloc, text) {
        Ok(galley) => galley,
        Err(LinesRefusal::At { line, field, cause }) => {
            format!(in alloc; "{line} {field} {cause:?}")?.into_bytes()
        }
        Err(LinesRefusal::NoBreaks { paragraph }) => {
            format!(in alloc; "no breaks {paragraph}")?.into_bytes()
        }
        Err(LinesRefusal::Memory) => Vec::from_slice(alloc, b"memory")?,
    })
}

// Galleys and refusals, worked by hand.
#[test]
fn answers_texts(rt: HostRuntime) -> Result<(), Fail> {
    let rows: [(&[u8], &[u8]); 23] = [
        (FOUR_WORDS, TWO_LINES),
        (ALL_PARAMETERS, EIGHT_LINES),
        (
            b"lines 1\nset hsize 100\npar q\nword 120 7 2\nendpar\nend",
            b"no breaks 1",
        ),
        (b"lines 1\npar p\npar q\nendpar\nend\n", b"3 1 NestedPar"),
        // paragraphs without items, and without paragraphs
        (
            b"lines 1\npar a\nendpar\npar b\nendpar\nend",
            b"galley 1\nbox a.1 0 0\nglue 0 plus 0 minus 0\nglue 786432 plus 0 minus 0\nbox b.1 0 0\nend\n",
        ),
        (b"lines 1\nend", b"galley 1\nend\n"),
        // an empty last line has no glue to fill it: its badness is 10000
        (
            b"lines 1\nset hsize 10\npar a\nword 10 1 1\nspace 1 1 1\nendpar\nend",
            b"galley 1\nbox a.1 1 1\nend\n",
        ),
        // the second paragraph is the first without feasible breaks
        (
            b"lines 1\nset hsize 9\npar a\nendpar\npar b\nword 10 1 1\nendpar\nend",
            b"no breaks 2",
        ),
        (b"", b"1 0 NoHeader"),
        (b"lines", b"1 2 NoHeader"),
        (b"lines 1\nset hsize 0\nend", b"2 3 Parameter"),
        (b"lines 1\nset size 1\nend", b"2 2 UnknownParameter"),
        (b"lines 1\nset tolerance 5.\nend", b"2 3 BadNumber"),
        (b"lines 1\npar p\nset hsize 1\nendpar\nend", b"3 1 NotInPar"),
        (
            b"lines 1\npar p\nendpar\nset hsize 1\nend",
            b"4 1 SetAfterItem",
        ),
        (b"lines 1\nword 1 1 1\nend", b"2 1 NotInPar"),
        (b"lines 1\nendpar\nend", b"2 1 StrayEndpar"),
        (b"lines 1\npar p\nend", b"3 1 UnclosedPar"),
        (
            b"lines 1\npar p\nword 1 -1 1\nendpar\nend",
            b"3 3 Dimension",
        ),
        (
            b"lines 1\npar p\nspace 1 1fil 1\nendpar\nend",
            b"3 3 BadUnit",
        ),
        (b"lines 1\npar p\npen 10001\nendpar\nend", b"3 2 Penalty"),
        (
            b"lines 1\npar abcdefghijabcdefghijabcdefghijabcdefghijabcdefghijabcdefghi\nendpar\nend",
            b"2 2 BadName",
        ),
        (b"lines 1\npar p\n", b"3 0 UnclosedPar"),
    ];
    for (text, wanted) in rows {
        let given = answer(rt.alloc(), text)?;
        assert!(rt; given.as_slice() == wanted);
    }
    Ok(())
}

// Each call once.
#[test]
fn reads_breaks_and_writes(rt: HostRuntime) -> Result<(), Fail> {
    let alloc = rt.alloc();
    let Ok(text) = read_lines(alloc, FOUR_WORDS) else {
        return Err(Fail::new("not read or not broken"));
    };
    assert!(rt; text.paragraphs() == 1);
    let paragraph = &text.paragraphs.as_slice()[0];
    assert!(rt; paragraph.name.as_bytes() == b"p".as_slice());
    assert!(rt; paragraph.items.len() == 7 && paragraph.items.as_slice().len() == 7);
    let Some(solution) = break_par(alloc, &text, 0)? else {
        return Err(Fail::new("not read or not broken"));
    };
    assert!(rt; solution.breaks() == [3, 9].as_slice());
    assert!(rt; solution.total() == 200);
    let fault = read_lines(alloc, b"lines 1\nfoo\n");
    assert!(rt;
        matches!(
            fault,
            Err(LinesFault::At {
                line: 2,
                field: 1,
                cause: LinesCause::UnknownWord
            })
        )
    );
    Ok(())
}

// The lines of a solution as they are written.
#[test]
fn writes_the_lines_of_a_solution(rt: HostRuntime) -> Result<(), Fail> {
    let alloc = rt.alloc();
    let Ok(text) = read_lines(alloc, FOUR_WORDS) else {
        return Err(Fail::new("not read"));
    };
    if text.paragraphs() != 1 {
        return Err(Fail::new("not one paragraph"));
    }
    let Some(solution) = break_par(alloc, &text, 0)? else {
        return Err(Fail::new("not broken"));
    };
    let mut solutions = Vec::new(alloc);
    solutions.push(solution)?;
    let galley = line_text(alloc, &text, solutions.as_slice())?;
    assert!(rt; galley.as_slice() == TWO_LINES);
    Ok(())
}

// What is said of refusals, and the kinds of their causes.
#[test]
fn says_why(rt: HostRuntime) -> Result<(), Fail> {
    let rows: [(LinesRefusal, &[u8]); 4] = [
        (
            LinesRefusal::At {
                line: 3,
                field: 1,
                cause: LinesCause::NestedPar,
            },
            b"refused: line 3 field 1: NestedPar",
        ),
        (
            LinesRefusal::At {
                line: 0,
                field: 0,
                cause: LinesCause::InputSize,
            },
            b"refused: line 0 field 0: InputSize",
        ),
        (
            LinesRefusal::NoBreaks { paragraph: 12 },
            b"refused: paragraph 12: no feasible breaks",
        ),
        (LinesRefusal::Memory, b"refused: out of memory"),
    ];
    for (refusal, wanted) in rows {
        let mut said = Vec::from_slice(rt.alloc(), b"refused: ")?;
        put_refusal(&mut said, &refusal)?;
        assert!(rt; said.as_slice() == wanted);
    }
    assert!(rt; cause_text(LinesCause::UnclosedPar) == b"UnclosedPar".as_slice());
    assert!(rt; is_range_cause(LinesCause::Items) && is_range_cause(LinesCause::Parameter));
    assert!(rt; !is_range_cause(LinesCause::NestedPar) && !is_range_cause(LinesCause::NoEnd));
    check_lines();
    solutions_are_least();
    galleys_are_accepted();
    Ok(())
}
