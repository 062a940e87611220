use std::test::Fail;
use tb_param::{Change, Choice, Field, ParamFault, Params, Rule, Value, defaults};
use tb_scaled::{Glue, Order};

const WIDE_GLUE: Glue = Glue {
    width: -1_073_741_823,
    stretch: 1_073_741_823,
    order: Order::Filll,
    shrink: 0,
};

const TOO_WIDE_GLUE: Glue = Glue {
    width: 1_073_741_824,
    stretch: 0,
    order: Order::Normal,
    shrink: 0,
};

// A rule between two kerns.
fn ruled(above: i64, height: i64, below: i64) -> Value {
    Value::Rule(Some(Rule {
        above,
        height,
        below,
    }))
}

// The height of a rule; -1 of none.
fn height_of(rule: Option<Rule>) -> i64 {
    match rule {
        Some(rule) => rule.height,
        None => -1,
    }
}

// Of each form of parameter an amount.
fn amounts(p: &Params) -> [i64; 10] {
    [
        p.textheight,
        p.topfraction,
        p.fptop.width,
        p.floatingpenalty,
        p.interlinepenalty,
        p.pool,
        p.maxdeadcycles,
        p.maxnodes,
        p.texttop.width,
        height_of(p.footrule),
    ]
}

// Each range at its ends, and each refusal, after which nothing has changed.
#[test]
fn keeps_to_the_ranges(rt: HostRuntime) -> Result<(), Fail> {
    let refused = Err(ParamFault::Range);
    let wrong = Err(ParamFault::WrongForm);
    let rows: [(&[u8], Value, Result<(), ParamFault>); 36] = [
        (b"textheight", Value::Dim(1), Ok(())),
        (b"textheight", Value::Dim(0), refused),
        (b"topskip", Value::Dim(1_073_741_824), refused),
        (b"maxdepth", Value::Dim(0), Ok(())),
        (b"maxdepth", Value::Int(0), wrong),
        (b"bottom", Value::Word(Choice::Flush), Ok(())),
        (b"bottom", Value::Word(Choice::On), refused),
        (b"topnumber", Value::Int(1000), Ok(())),
        (b"topnumber", Value::Int(1001), refused),
        (b"dbltopnumber", Value::Int(-1), refused),
        (b"topfraction", Value::Frac(65_536), Ok(())),
        (b"topfraction", Value::Frac(65_537), refused),
        (b"topfraction", Value::Dim(0), wrong),
        (b"fptop", Value::Skip(WIDE_GLUE), Ok(())),
        (b"fptop", Value::Skip(TOO_WIDE_GLUE), refused),
        (b"footfloating", Value::Int(-100_000), Ok(())),
        (b"floatingpenalty", Value::Int(100_001), refused),
        (b"interlinepenalty", Value::Int(-9999), Ok(())),
        (b"interlinepenalty", Value::Int(-10_000), refused),
        (b"mparswitch", Value::Word(Choice::Flush), refused),
        (b"pool", Value::Int(1), refused),
        (b"pool", Value::Int(4096), Ok(())),
        (b"maxdeadcycles", Value::Int(0), refused),
        (b"maxnodes", Value::Int(99), refused),
        (b"maxnodes", Value::Int(4_194_304), Ok(())),
        (b"footrule", Value::Rule(None), Ok(())),
        (
            b"footrule",
            ruled(-1_073_741_823, 1_073_741_823, -1_073_741_823),
            Ok(()),
        ),
        (b"footrule", ruled(0, -1, 0), refused),
        (b"toprule", ruled(1_073_741_824, 0, 0), refused),
        (b"dblrule", ruled(0, 0, -1_073_741_824), refused),
        (b"bottomrule", Value::Dim(0), wrong),
        (b"footdepth", Value::Word(Choice::Drop), Ok(())),
        (b"footdepth", Value::Word(Choice::Below), refused),
        (b"footplace", Value::Word(Choice::Below), Ok(())),
        (b"footplace", Value::Word(Choice::Keep), refused),
        (
            b"Pool",
            Value::Word(Choice::On),
            Err(ParamFault::UnknownParameter),
        ),
    ];
    for (name, value, want) in rows {
        let mut params = defaults();
        assert!(rt; params.set(name, value) == want);
        if want.is_err() {
            assert_eq!(rt; amounts(&params), amounts(&defaults()));
        }
    }
    Ok(())
}

// A value that was set is there, and the others stay.
#[test]
fn keeps_what_is_set(rt: HostRuntime) -> Result<(), Fail> {
    let mut params = defaults();
    assert!(rt; params.set(b"topskip", Value::Dim(7)).is_ok());
    assert!(rt; params.set(b"parskip", Value::Skip(WIDE_GLUE)).is_ok());
    assert_eq!(rt; params.topskip, 7);
    assert!(rt; params.parskip == WIDE_GLUE);
    assert_eq!(rt;
        (params.textheight, params.footlimit),
        (36_044_800, 37_890_293)
    );
    assert_eq!(rt;
        (params.footsplittop, params.footsplitdepth),
        (435_814, 186_778)
    );
    assert_eq!(rt;
        (params.bottomfraction, params.textfraction),
        (19_661, 13_107)
    );
    assert_eq!(rt;
        (params.topnumber, params.bottomnumber, params.totalnumber),
        (2, 1, 3)
    );
    assert!(rt; params.set(b"toprule", ruled(1, 2, 3)).is_ok());
    assert_eq!(rt;
        (height_of(params.toprule), height_of(params.footrule)),
        (2, 26_214)
    );
    assert_eq!(rt;
        (
            height_of(params.bottomrule),
            height_of(params.dblrule),
            params.footfill.width
        ),
        (-1, -1, 0)
    );
    Ok(())
}

// A parameter that is set among the items: what it is set to, what it is then, and whether it is as before. Then it alone is
// not.
#[test]
fn changes_among_the_items(rt: HostRuntime) -> Result<(), Fail> {
    let rows: [(Field, Value, Value, bool); 17] = [
        (Field::Topskip, Value::Dim(7), Value::Dim(7), false),
        (
            Field::Topskip,
            Value::Dim(655_360),
            Value::Dim(655_360),
            true,
        ),
        (Field::Topskip, Value::Dim(0), Value::Dim(655_360), true),
        (Field::Topskip, Value::Int(7), Value::Dim(655_360), true),
        (Field::Textheight, Value::Dim(1), Value::Dim(1), false),
        (Field::Totalnumber, Value::Int(0), Value::Int(0), false),
        (
            Field::Topfraction,
            Value::Frac(65_536),
            Value::Frac(65_536),
            false,
        ),
        (
            Field::Bottom,
            Value::Word(Choice::Flush),
            Value::Word(Choice::Flush),
            false,
        ),
        (
            Field::Parskip,
            Value::Skip(WIDE_GLUE),
            Value::Skip(WIDE_GLUE),
            false,
        ),
        (Field::Footrule, Value::Rule(None), Value::Rule(None), false),
        (Field::Pool, Value::Int(9), Value::Int(18), true),
        (Field::Maxdeadcycles, Value::Int(9), Value::Int(100), true),
        (Field::Maxpages, Value::Int(9), Value::Int(1_000_000), true),
        (
            Field::Maxnodes,
            Value::Int(100),
            Value::Int(4_194_304),
            true,
        ),
        (
            Field::Release,
            Value::Word(Choice::R2014),
            Value::Word(Choice::R2015),
            true,
        ),
        (
            Field::Skipfootins,
            Value::Skip(WIDE_GLUE),
            Value::Skip(WIDE_GLUE),
            false,
        ),
        (Field::Footlimit, Value::Dim(9), Value::Dim(9), false),
    ];
    for (field, value, want, same) in rows {
        let before = defaults();
        let mut params = defaults();
        params.change(Change { field, value });
        assert!(rt; params.value(field).is_same(&want));
        assert_eq!(rt; params.value(field).is_same(&before.value(field)), same);
        assert_eq!(rt; params.is_same(&before), same);
        params.put(field, before.value(field));
        assert!(rt; params.is_same(&before));
    }
    Ok(())
}
