//! Texts that are cut into pieces.
ghost use Rattle.std.specs.Prelude.{◌<◌};

use std::alloc::Global;
use std::test::Fail;
use tb_galley::{Galley, GalleyFault, Reader, cause_text, new_reader, parse, print};

// An article page: boxes, two footnotes, two floats and a note.
const ARTICLE: &[u8] = b"galley 1
box p1 7pt 2pt
foot
box f1 6.65pt 2.85pt
endfoot
glue 0pt plus 1pt
glue 3pt
box p2 7pt 2pt
glue 0pt plus 1pt
glue 3pt
box p3 7pt 2pt
float figA 1 single tbp 100pt par
glue 0pt plus 1pt
glue 3pt
box p4 7pt 2pt
glue 0pt plus 1pt
glue 3pt
box p5 7pt 2pt
foot
box f2 6.65pt 2.85pt
endfoot
glue 0pt plus 1pt
glue 3pt
box p6 7pt 2pt
float tabA 2 single ht 60pt vert
glue 0pt plus 1pt
glue 3pt
box p7 7pt 2pt
glue 0pt plus 1pt
glue 3pt
box p8 7pt 2pt
glue 0pt plus 1pt
glue 3pt
box p9 7pt 2pt
note idx
glue 0pt plus 1pt
glue 3pt
box p10 7pt 2pt
glue 0pt plus 1pt
glue 3pt
box p11 7pt 2pt
glue 0pt plus 1pt
glue 3pt
box p12 7pt 2pt
end
";

// The last line and the canonical text of a galley, or the line, the field and the cause of a fault.
fn answer(alloc: Global, read: Result<Galley, GalleyFault>) -> Result<(u32, u32, Vec<u8>), Fail> {
    match read {
        Ok(galley) => Ok((galley.end_line, 0, print(alloc, &galley)?)),
        Err(GalleyFault::At(fault)) => Ok((
            fault.line,
            fault.field,
            Vec::from_slice(alloc, cause_text(fault.cause))?,
        )),
        Err(GalleyFault::Memory) => Ok((0, 0, Vec::from_slice(alloc, b"out of memory")?)),
    }
}

// A reader of a text in pieces of this size, each with an empty piece after it.
fn in_pieces(alloc: Global, text: &[u8], size: usize) -> Result<Reader, Fail>
    requires { 0 < size }
{
    let mut reader = new_reader(alloc);
    for piece in text.chunks(size) {
        reader.feed(piece)?;
        reader.feed(b"")?;
    }
    Ok(reader)
}

// Whether a text gives the same whole and cut into two pieces, wherever it is cut.
fn is_same_in_two(alloc: Global, text: &[u8]) -> Result<bool, Fail> {
    let whole = answer(alloc, parse(alloc, text))?;
    for place in 0..=text.len() {
        let (front, back) = text.split_at(place);
        let mut reader = new_reader(alloc);
        reader.feed(front)?;
        reader.feed(back)?;
        if reader.taken() != text.len() as u64 || answer(alloc, reader.finish())? != whole {
            return Ok(false);
        }
    }
    Ok(true)
}

#[test]
fn reads_an_article_in_pieces(rt: HostRuntime) -> Result<(), Fail> {
    assert!(rt; is_same_in_two(rt.alloc(), ARTICLE)?);
    let whole = answer(rt.alloc(), parse(rt.alloc(), ARTICLE))?;
    assert!(rt; whole.0 == 45);
    for size in [1, 2, 7, 255] {
        let reader = in_pieces(rt.alloc(), ARTICLE, size)?;
        assert!(rt; answer(rt.alloc(), reader.finish())? == whole);
    }
    Ok(())
}

// A comment of this many bytes and this end, after the first line of a galley.
fn with_comment(alloc: Global, length: usize, end: &[u8]) -> Result<Vec<u8>, Fail> {
    let mut text = Vec::from_slice(alloc, b"galley 1\n")?;
    for _ in 0..length {
        text.push(b'#')?;
    }
    text.extend_from_slice(end)?;
    Ok(text)
}

// Faults, carriage returns, and lines about as long as a line may be.
#[test]
fn reads_faults_in_pieces(rt: HostRuntime) -> Result<(), Fail> {
    let rows: [&[u8]; 7] = [
        b"galley 1\r\nbox a 1 0\r\nend\r\n",
        b"galley 1\nend\n\r",
        b"galley 1\nend\r\r\n",
        b"galley 1\nfoot\nbox f 1 0",
        b"galley 1\nbox a 1073741824 0\nkern x\nend",
        b"",
        b"\r\n# \xff\n\ngalley 2\nclass 7 1 2 3\nfoot 7\nendfoot\nend",
    ];
    for text in rows {
        assert!(rt; is_same_in_two(rt.alloc(), text)?);
    }
    let ends: [&[u8]; 4] = [b"\nend", b"\r\nend", b"\r#\nend", b""];
    for length in 254..259 {
        for end in ends {
            let text = with_comment(rt.alloc(), length, end)?;
            assert!(rt; is_same_in_two(rt.alloc(), &text)?);
        }
    }
    let long = with_comment(rt.alloc(), 256, b"\nend")?;
    let read = in_pieces(rt.alloc(), &long, 128)?;
    let (line, field, cause) = answer(rt.alloc(), read.finish())?;
    assert!(rt; (line, field, cause.as_slice()) == (2, 0, b"LineLength".as_slice()));
    Ok(())
}

// The first fault is kept, and the bytes are counted after it: an input that is too long has that fault before all others.
#[test]
fn counts_after_a_fault(rt: HostRuntime) -> Result<(), Fail> {
    let piece = [b'#'; 4096];
    for more in 0..2 {
        let mut reader = new_reader(rt.alloc());
        reader.feed(b"\n\ngalley\nx")?;
        for _ in 0..2047 {
            reader.feed(&piece)?;
        }
        reader.feed(&piece[..4085 + more])?;
        assert!(rt; reader.taken() == 8_388_607 + more as u64);
        reader.feed(b"y")?;
        let (line, field, cause) = answer(rt.alloc(), reader.finish())?;
        let want: (u32, u32, &[u8]) = if more == 0 {
            (3, 2, b"NoHeader")
        } else {
            (0, 0, b"InputSize")
        };
        assert!(rt; (line, field, cause.as_slice()) == want);
    }
    Ok(())
}
