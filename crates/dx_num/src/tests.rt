//! Each public call once, on numbers that were worked out by hand.

use crate::{
    ceil_div, difference, floor_div, magnitude, mul_pow10_floor, negative, ppm_up, product, total,
    trunc_div,
};

#[test]
fn numbers_are_rounded(rt: HostRuntime) {
    assert_eq!(rt;
        (floor_div(-7, 2), ceil_div(-7, 2), trunc_div(-7, 2)),
        (-4, -3, -3)
    );
    assert_eq!(rt;
        (mul_pow10_floor(-12_345, -2), mul_pow10_floor(-7, 6)),
        (-124, -7_000_000)
    );
    assert_eq!(rt; ppm_up(5_000_100, 500), 2_501);
    assert_eq!(rt;
        (product(-2, 3), total(-2, 3), difference(-2, 3)),
        (-6, 1, -5)
    );
    assert_eq!(rt; (negative(-2), magnitude(-2)), (2, 2));
}
