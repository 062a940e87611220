//! Worked values of the arithmetic.

use tb_scaled::{Glue, Order, badness, fixed, frac, negate, round_decimals, x_over_n};

#[test]
fn computes_the_worked_values(rt: HostRuntime) {
    assert_eq!(rt; round_decimals(&[7]), 45875);
    assert_eq!(rt; round_decimals(&[5]), 32768);
    assert_eq!(rt; round_decimals(&[3]), 19661);
    assert_eq!(rt; round_decimals(&[2]), 13107);
    assert_eq!(rt; round_decimals(&[0, 0, 0, 1]), 7);
    assert_eq!(rt; badness(10, 5), 800);
    assert_eq!(rt; x_over_n(-7, 2), -3);
    assert_eq!(rt; frac(45875, 100), 69);
    assert_eq!(rt;
        fixed(10),
        Glue {
            width: 10,
            stretch: 0,
            order: Order::Normal,
            shrink: 0
        }
    );
    let fills = Glue {
        width: 1,
        stretch: 65536,
        order: Order::Fil,
        shrink: 2,
    };
    assert_eq!(rt;
        negate(fills),
        Glue {
            width: -1,
            stretch: -65536,
            order: Order::Fil,
            shrink: -2
        }
    );
}
