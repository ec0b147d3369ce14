//! Numbers and ratios beyond the sums of any script.
use std::test::Fail;
use ts_num::{Datum, Frac, lowest, put_datum, put_int};

const LEAST: i128 = i128::MIN;

const MOST: i128 = i128::MAX;

#[test]
fn numbers_at_every_edge(rt: HostRuntime) -> Result<(), Fail> {
    let cases: [(i128, &[u8]); 4] = [
        (9223372036854775808, b"9223372036854775808"),
        (-9223372036854775809, b"-9223372036854775809"),
        (MOST, b"170141183460469231731687303715884105727"),
        (LEAST, b"-170141183460469231731687303715884105728"),
    ];
    for (n, text) in cases {
        let mut out = Vec::new(rt.alloc());
        put_int(n, &mut out)?;
        assert_eq!(rt; out.as_slice(), text);
        put_datum(&Datum::Int(n), &mut out)?;
        assert_eq!(rt; out.len(), text.len() * 2);
        assert_eq!(rt; &out[text.len()..], text);
    }
    Ok(())
}

#[test]
fn ratios_in_lowest_terms(rt: HostRuntime) -> Result<(), Fail> {
    let cases: [(i128, u64, i128, u64, &[u8]); 3] = [
        (
            -9223372036854775808,
            18446744073709551615,
            -9223372036854775808,
            18446744073709551615,
            b"-9223372036854775808/18446744073709551615",
        ),
        (
            MOST,
            1,
            MOST,
            1,
            b"170141183460469231731687303715884105727/1",
        ),
        (
            LEAST,
            9223372036854775808,
            -18446744073709551616,
            1,
            b"-18446744073709551616/1",
        ),
    ];
    for (sum, count, num, den, text) in cases {
        assert!(rt; 0 < count);
        let ratio = lowest(sum, count);
        assert!(rt; ratio == Frac { num, den });
        let mut out = Vec::new(rt.alloc());
        put_datum(&Datum::Ratio(ratio), &mut out)?;
        assert_eq!(rt; out.as_slice(), text);
    }
    Ok(())
}
