//! Fees that were worked out by hand, each public call once, and the texts of the faults.

ghost use Rattle.std.specs.Prelude.{◌≤◌, ◌^◌, unsigned_abs};

use crate::{FundFault, charge, insure, pay};
use dx_types::{Charge, Funds};
use std::test::Fail;

/// Funds with a fee fund of this many quote quantums.
fn funds(fees: i64) -> Funds
    ensures charged { unsigned_abs result.charged ≤ 2 ^ 101 }
    ensures fee_dust { unsigned_abs result.fee_dust ≤ 2 ^ 101 }
{
    Funds {
        paid_in: 7,
        paid_out: 5,
        fees,
        charged: 3,
        fee_dust: 2,
        insurance: 11,
    }
}

#[test]
fn fees_and_funds(rt: HostRuntime) -> Result<(), Fail> {
    // a quote, a rate in ppm, and the fee with its exact part and its dust
    let rows: [(i64, u32, i64, i128, i128); 3] = [
        (5_000_100, 500, 2_501, 2_500_050_000, 950_000),
        (1_000_000, 1, 1, 1_000_000, 0),
        (
            72_057_594_037_927_935,
            100_000,
            7_205_759_403_792_794,
            7_205_759_403_792_793_500_000,
            500_000,
        ),
    ];
    for (quote, ppm, fee, charged, dust) in rows {
        assert!(rt; 0 <= quote && quote < 1 << 56);
        assert!(rt; ppm <= 100_000);
        let want = Charge { fee, charged, dust };
        assert_eq!(rt; charge(quote, ppm), want, "{ppm} parts of {quote}");
    }
    let fee = Charge {
        fee: 2_501,
        charged: 2_500_050_000,
        dust: 950_000,
    };
    let paid = Funds {
        fees: 2_601,
        charged: 2_500_050_003,
        fee_dust: 950_002,
        ..funds(100)
    };
    assert_eq!(rt; pay(&funds(100), &fee), Ok(paid));
    let insured = Funds {
        insurance: 16,
        ..funds(100)
    };
    assert_eq!(rt; insure(&funds(100), 5), Ok(insured));
    let bound = format!(in rt.alloc(); "{}", FundFault::Bound)?;
    assert_eq!(rt; bound.as_str(), "the fund would leave its bound");
    let short = FundFault::Short { has: 5, needs: 7 };
    let short = format!(in rt.alloc(); "{short}")?;
    assert_eq!(rt; short.as_str(), "the fund has 5 and is to pay 7");
    Ok(())
}
