//! Floats of all 26 classes, with each set of places, with and without `!`, of height 0 and as high as a page, in one
//! column and in two: 120 galleys with two floats of each class. Each run is done. Its report shows each float once, and
//! the first of a class before the second; no area has more than its number or its share, if the floats have no `!`, and
//! no column more than it has room for.

use super::*;
use std::alloc::AllocError;
use tb_text::put_number;

// The 15 sets of places.
const PLACES: [&[u8]; 15] = [
    b"h", b"t", b"ht", b"b", b"hb", b"tb", b"htb", b"p", b"hp", b"tp", b"htp", b"bp", b"hbp",
    b"tbp", b"htbp",
];

// The limits are two floats at the top and half the column for each area; at the bottom and above two columns it is the
// half that lets in no fourth float. Top and bottom together have room for four.
const SETS: &[u8] =
    b"galley 1\nset textheight 100\nset topskip 10\nset maxdepth 0\nset baselineskip 0\nset bottom flush\nset topnumber 2\nset bottomnumber 5\nset totalnumber 4\nset dbltopnumber 5\nset topfraction 0.5\nset bottomfraction 0.5\nset dbltopfraction 0.5\nset floatsep 15\nset textfloatsep 20\nset intextsep 2\nset dblfloatsep 15\nset dbltextfloatsep 20\nset pool 4096\nset maxdeadcycles 1000000\n";

// What the floats of a galley have alike.
#[derive(Clone, Copy)]
struct Sample {
    places: &'static [u8],
    bang: bool,
    height: u32,
    two_columns: bool,
}

// How many floats are in each area so far: above two columns, and in the column whose height this is.
#[derive(Clone, Copy)]
struct Areas {
    wide: u64,
    top: u64,
    bottom: u64,
    column: u64,
}

const NO_FLOATS: Areas = Areas {
    wide: 0,
    top: 0,
    bottom: 0,
    column: 0,
};

impl Areas {
    // With one float more, by the report's word for its area.
    fn with_float(self, place: &str) -> Areas {
        match place {
            "wide" => Areas {
                wide: self.wide.saturating_add(1),
                ..self
            },
            "top" => Areas {
                top: self.top.saturating_add(1),
                ..self
            },
            "bottom" => Areas {
                bottom: self.bottom.saturating_add(1),
                ..self
            },
            _ => self,
        }
    }

    // No area has too many floats, and the column has room for more than those at its top and bottom.
    fn is_within(self, sample: Sample) -> bool {
        let height = u64::from(sample.height);
        let half = self.column / 2;
        let fills = taken(self.top, height).saturating_add(taken(self.bottom, height));
        let is_limited = is_below(self.wide, 5, height, 50)
            && is_below(self.top, 2, height, half)
            && is_below(self.bottom, 5, height, half)
            && self.top.saturating_add(self.bottom) <= 4;
        (sample.bang || is_limited) && (fills == 0 || fills < self.column)
    }
}

// What so many floats of a height take of their area, with their separators: 20 for the first, 15 for each other.
fn taken(count: u64, height: u64) -> u64 {
    if count == 0 {
        return 0;
    }
    height
        .saturating_add(15)
        .saturating_mul(count)
        .saturating_add(5)
}

// No more than this number of floats are in an area, and before the last of them its share had room for one of this height.
fn is_below(count: u64, number: u64, height: u64, share: u64) -> bool {
    count == 0
        || count <= number && taken(count.saturating_sub(1), height).saturating_add(height) < share
}

// Appends a box and a float of each class. The float is double if its class is a multiple of `wide_each`.
fn put_floats(
    out: &mut Vec<u8>,
    letter: &[u8],
    wide_each: u32,
    sample: Sample,
) -> Result<(), AllocError> {
    for class in 1..27u32 {
        out.extend_from_slice(b"box b 10 0\nglue 0\nfloat ")?;
        out.extend_from_slice(letter)?;
        put_number(out, i128::from(class))?;
        out.push(b' ')?;
        put_number(out, i128::from(class))?;
        out.extend_from_slice(if class % wide_each.max(1) == 0 {
            b" double "
        } else {
            b" single "
        })?;
        out.extend_from_slice(if sample.bang { b"!" } else { b"" })?;
        out.extend_from_slice(sample.places)?;
        out.push(b' ')?;
        put_number(out, i128::from(sample.height))?;
        out.extend_from_slice(b" par\n")?;
    }
    Ok(())
}

// The galley of a sample: each class has a float x and, after those of all classes, a float y.
fn galley_of(alloc: Global, sample: Sample) -> Result<Vec<u8>, AllocError> {
    let mut out = Vec::from_slice(alloc, SETS)?;
    if sample.two_columns {
        out.extend_from_slice(b"twocolumn\n")?;
    }
    put_floats(&mut out, b"x", 2, sample)?;
    put_floats(&mut out, b"y", 3, sample)?;
    out.extend_from_slice(b"end\n")?;
    Ok(out)
}

// Reads a report: each float is there once, the one of its class named x before y, and the areas are within their limits.
fn check_floats(rt: &impl Abort, alloc: Global, report: &str, sample: Sample) -> Result<(), Fail> {
    let mut seen = [0u8; 27];
    let mut areas = NO_FLOATS;
    for line in report.lines() {
        let words: Vec<&str> = line.split_whitespace().collect(alloc)?;
        match words.as_slice() {
            ["page", ..] => areas = NO_FLOATS,
            ["column", _, _, _, height, ..] => {
                areas = Areas {
                    wide: areas.wide,
                    column: height.parse().unwrap_or(0),
                    ..NO_FLOATS
                };
            }
            ["float", name, class, place, ..] => {
                let Some(count) = seen.get_mut(class.parse().unwrap_or(27)) else {
                    panic!(rt; "no class: {line}");
                };
                let letter = if *count == 0 { "x" } else { "y" };
                assert_eq!(rt; name.strip_prefix(letter), Some(*class), "{line}");
                *count = count.saturating_add(1);
                areas = areas.with_float(place);
                assert!(rt; areas.is_within(sample), "{line}");
            }
            _ => {}
        }
    }
    assert!(rt;
        seen[1..].iter().all(|count| *count == 2),
        "a float is missing"
    );
    Ok(())
}

// Runs the galley of a sample.
fn check_sample(rt: &impl Abort, alloc: Global, sample: Sample) -> Result<(), Fail> {
    let left = run_on(alloc, &galley_of(alloc, sample)?, &NONE)?;
    assert_eq!(rt; left.status, 0);
    assert_eq!(rt; left.err.held(), b"".as_slice());
    let report = String::from_utf8(left.out.held().to_vec(alloc)?)?;
    check_floats(rt, alloc, &report, sample)
}

#[test]
fn floats_keep_their_order_and_limits(rt: HostRuntime) -> Result<(), Fail> {
    for places in PLACES {
        for bang in [false, true] {
            for height in [0, 100] {
                for two_columns in [false, true] {
                    let sample = Sample {
                        places,
                        bang,
                        height,
                        two_columns,
                    };
                    check_sample(&rt, rt.alloc(), sample)?;
                }
            }
        }
    }
    Ok(())
}
