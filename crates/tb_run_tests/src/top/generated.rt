//! Runs of generated galleys.
use super::*;

// Of a galley with so many items, how many boxes and floats it has. They were counted by the rule of the generator, in
// another language.
const COUNTS: [(&str, (u64, u64, u64)); 3] = [
    ("1", (1, 1, 0)),
    ("1000", (1000, 527, 32)),
    ("40000", (40_000, 21_227, 1310)),
];

// A number in decimal.
fn number(word: &str) -> Option<u64> {
    word.parse().ok()
}

// What is written is one line, with these numbers of items, boxes and floats.
fn check_line(
    rt: &impl Abort,
    alloc: Global,
    text: &[u8],
    wanted: (u64, u64, u64),
) -> Result<(), Fail> {
    let text = String::from_utf8(text.to_vec(alloc)?)?;
    assert!(rt; text.lines().count() == 1 && text.ends_with('\n'), "{text}");
    let words: Vec<&str> = text.split_whitespace().collect(alloc)?;
    match words.as_slice() {
        [
            "gen",
            n,
            "pages",
            pages,
            "boxes",
            boxes,
            "floats",
            floats,
            "warnings",
            warnings,
        ] => {
            assert_eq!(rt; number(n), Some(wanted.0), "{text}");
            assert_eq!(rt; number(boxes), Some(wanted.1), "{text}");
            assert_eq!(rt; number(floats), Some(wanted.2), "{text}");
            assert!(rt;
                number(pages).is_some() && number(warnings).is_some(),
                "{text}"
            );
        }
        _ => panic!(rt; "another line: {text}"),
    }
    Ok(())
}

// Each run is done, and gives the same line again.
#[test]
fn generated_galleys_are_run(rt: HostRuntime) -> Result<(), Fail> {
    let alloc = rt.alloc();
    for (count, wanted) in COUNTS {
        let words = vec![in alloc;
            String::from_str(alloc, "galley_pages")?,
            String::from_str(alloc, "--mode=gen")?,
            String::from_str(alloc, "--count")?,
            String::from_str(alloc, count)?,
        ]?;
        let left = run_with(alloc, &words, b"", &NONE)?;
        assert_eq!(rt; left.status, 0, "{count}");
        check_line(&rt, alloc, left.out.held(), wanted)?;
        let again = run_with(alloc, &words, b"", &NONE)?;
        assert!(rt; again.out.held() == left.out.held(), "{count}");
    }
    Ok(())
}
