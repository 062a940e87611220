//! Parameters, floats and marginal notes that are given to a scene.

ghost use Rattle.std.specs.Prelude.{IfOk, IsTrue};
ghost use Rattle.tb_node.specs.Fit.{IsExtent};
ghost use Rattle.tb_float.specs.Ranges.{IsSizedMargin};
ghost use Rattle.tb_param.specs.Ranges.{are_params};

use std::test::Fail;
use tb_node::{Float, Margin, Places, name_of};
use tb_param::{Choice, Params, Value, defaults};
use tb_scaled::fixed;

// Glue that the pages of the tests do not have.
const NO_GLUE: [&str; 11] = [
    "floatsep",
    "textfloatsep",
    "dblfloatsep",
    "dbltextfloatsep",
    "fptop",
    "fpsep",
    "fpbot",
    "dblfptop",
    "dblfpsep",
    "dblfpbot",
    "skipfootins",
];

// Pages of height 100 in one column.
const PAGE: [(&str, Value); 8] = [
    ("textheight", Value::Dim(100)),
    ("topskip", Value::Dim(10)),
    ("maxdepth", Value::Dim(2)),
    ("baselineskip", Value::Dim(20)),
    ("bottom", Value::Word(Choice::Flush)),
    ("interlinepenalty", Value::Int(7)),
    ("marginparpush", Value::Dim(2)),
    ("pool", Value::Int(3)),
];

// The parameters of these pages, with glue of width 3 around a float in the text and of width 4 between paragraphs.
pub(super) fn params() -> Result<Params, Fail>
    ensures { IfOk result (λ p. IsTrue (are_params p)) }
{
    let mut p = defaults();
    for name in NO_GLUE {
        set(&mut p, name, Value::Skip(fixed(0)))?;
    }
    for (name, value) in PAGE {
        set(&mut p, name, value)?;
    }
    set(&mut p, "intextsep", Value::Skip(fixed(3)))?;
    set(&mut p, "parskip", Value::Skip(fixed(4)))?;
    Ok(p)
}

// The same, but this one has another value.
pub(super) fn params_with(name: &str, value: Value) -> Result<Params, Fail>
    ensures { IfOk result (λ p. IsTrue (are_params p)) }
{
    let mut p = params()?;
    set(&mut p, name, value)?;
    Ok(p)
}

fn set(p: &mut Params, name: &str, value: Value) -> Result<(), Fail>
    requires { IsTrue (are_params p.old) }
    ensures { IsTrue (are_params p.new) }
{
    match p.set(name.as_bytes(), value) {
        Ok(()) => Ok(()),
        Err(_) => Err("no parameter")?,
    }
}

// A float of class 1 with the places of these letters, over the limits with `!`, and as wide as two columns with `w`.
pub(super) fn float(letters: &str, height: u8) -> Result<Float, Fail>
    ensures { IfOk result (λ f. IsExtent f.height) }
{
    let letters = letters.as_bytes();
    Ok(Float {
        line: 1,
        name: name_of(b"F").ok_or("name")?,
        class: 1,
        wide: letters.contains(&b'w'),
        places: Places {
            h: letters.contains(&b'h'),
            t: letters.contains(&b't'),
            b: letters.contains(&b'b'),
            p: letters.contains(&b'p'),
        },
        bang: letters.contains(&b'!'),
        height: i64::from(height),
        deep: false,
        nobreak: false,
    })
}

// A marginal note whose boxes have height 8 and depth 4.
pub(super) fn note() -> Result<Margin, Fail>
    ensures { IfOk result IsSizedMargin }
{
    Ok(Margin {
        line: 1,
        name: name_of(b"m").ok_or("name")?,
        left_height: 8,
        left_depth: 4,
        right_height: 8,
        right_depth: 4,
        nobreak: false,
    })
}
