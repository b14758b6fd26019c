//! What no clause says: that the calls give these numbers, at every length.
use cu_lane::{
    lane_least, lane_load, lane_prod, lane_save, lane_select, lane_sum, lane_swap, lane1, lane2,
};
use cu_num::{Dtype, Fn1, Fn2, accepts2, greatest, least, number, scalar2, word, wrap};
use std::process::Abort;
use std::test::Fail;

const TYPES: [Dtype; 9] = [
    Dtype::Bool,
    Dtype::Int8,
    Dtype::Int16,
    Dtype::Int32,
    Dtype::Int64,
    Dtype::Uint8,
    Dtype::Uint16,
    Dtype::Uint32,
    Dtype::Uint64,
];

/// Both ends of the type, and numbers between them.
fn sample(t: Dtype, k: usize) -> u64 {
    match k % 5 {
        0 => word(least(t)),
        1 => word(greatest(t)),
        2 => word(wrap(t, k as i128)),
        3 => word(wrap(t, 0)),
        _ => word(wrap(t, -1)),
    }
}

/// Compares a call with the scalar one at every length.
fn compare_with_scalars(rt: &impl Abort, f: Fn2, t: Dtype) -> Result<(), Fail> {
    let mut x = [0u64; 130];
    let mut y = [0u64; 130];
    for k in 0..130usize {
        x[k] = sample(t, k);
        y[k] = sample(t, k / 5);
    }
    for count in 0..131usize {
        let mut out = [0u64; 130];
        lane2(f, t, &x[..count], &y[..count], &mut out[..count]);
        for k in 0..count {
            let want = word(scalar2(f, t, number(t, x[k]), number(t, y[k])));
            assert_eq!(rt; out[k], want, "{f:?} of {t:?}: word {k} of {count}");
        }
    }
    Ok(())
}

#[test]
fn words_of_two_arguments_at_every_length(rt: HostRuntime) -> Result<(), Fail> {
    for f in [Fn2::Add, Fn2::Less, Fn2::RightShift] {
        for t in TYPES {
            if accepts2(f, t) {
                compare_with_scalars(&rt, f, t)?;
            }
        }
    }
    Ok(())
}

#[test]
fn each_call_once(rt: HostRuntime) -> Result<(), Fail> {
    let t = Dtype::Int32;
    assert_eq!(rt; lane_least(t, true, &[3, 1, 1, 2]), Some(1));
    assert_eq!(rt; lane_least(t, false, &[3, 1, 1, 2]), Some(0));
    assert_eq!(rt; lane_least(t, true, &[]), None);
    assert_eq!(rt; lane_least(t, true, &[3, word(-1), word(-1)]), Some(1));
    assert_eq!(rt; lane_least(Dtype::Uint64, true, &[3, u64::MAX]), Some(0));
    assert_eq!(rt; lane_sum(&[1, 2, 3, 4, 5, 6, 7, 8, 9, u64::MAX]), 44);
    assert_eq!(rt; lane_prod(&[3, 5, 1 << 63]), 1 << 63);
    let mut out = [0u64; 2];
    lane1(Fn1::Negative, t, &[1, word(-2)], &mut out);
    assert_eq!(rt; out, [word(-1), 2]);
    lane_select(&[1, 0], &[5, 6], &[7, 8], &mut out);
    assert_eq!(rt; out, [5, 8]);
    lane_load(Dtype::Int16, &[0xFE, 0xFF, 1, 2], &mut out);
    assert_eq!(rt; out, [word(-2), 513]);
    let mut bytes = [0u8; 4];
    lane_save(Dtype::Int16, &out, &mut bytes);
    assert_eq!(rt; bytes, [0xFE, 0xFF, 1, 2]);
    lane_swap(2, &mut bytes);
    assert_eq!(rt; bytes, [0xFF, 0xFE, 2, 1]);
    Ok(())
}
