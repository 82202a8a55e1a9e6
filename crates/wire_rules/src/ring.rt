//! Worked values of ring_poly.

use ring_poly::{
    CoefficientTooLarge, Poly, Ternary, add, is_ternary, mul, pack, sub, unpack, unpack_short,
};
use std::test::Fail;

// A first coefficient of 12289.
const TOO_LARGE: CoefficientTooLarge = CoefficientTooLarge {
    place: 0,
    value: 12289,
};

#[test]
fn packs_four_coefficients_in_seven_bytes(rt: HostRuntime) {
    let mut coefficients = [0; 1024];
    coefficients[0] = 12288;
    coefficients[2] = 1;
    coefficients[3] = 12288;
    let bytes = pack(&Poly::of(coefficients));
    let expected = [0x00, 0x30, 0x00, 0x10, 0x00, 0x00, 0xc0];
    for place in 0..1792 {
        let byte = if place < 7 { expected[place] } else { 0 };
        assert_eq!(rt; bytes[place], byte, "at {place}");
    }
}

#[test]
fn refuses_12289(rt: HostRuntime) {
    let mut bytes = [0; 1792];
    bytes[0] = 0x01;
    bytes[1] = 0x30;
    assert_eq!(rt; unpack(&bytes).err(), Some(TOO_LARGE));
    let mut short = [0; 448];
    short[0] = 0x01;
    short[1] = 0x30;
    assert_eq!(rt; unpack_short(&short).err(), Some(TOO_LARGE));
}

#[test]
fn turns_the_sign_past_the_top(rt: HostRuntime) -> Result<(), Fail> {
    let mut bytes = [0; 1792];
    bytes[1790] = 0x04;
    let high = unpack(&bytes)?;
    assert_eq!(rt; high.get(1023), 1);
    let mut x = [0; 1024];
    x[1] = 1;
    assert!(rt; is_ternary(&x));
    let product = mul(&high, &Ternary::of(x));
    for place in 0..1024 {
        let coefficient = if place == 0 { 12288 } else { 0 };
        assert_eq!(rt; product.get(place), coefficient, "at {place}");
    }
    Ok(())
}

#[test]
fn sums_and_differences_are_reduced(rt: HostRuntime) {
    let one = Poly::of([1; 1024]);
    let greatest = Poly::of([12288; 1024]);
    let results = [
        (add(&one, &greatest), 0),
        (add(&greatest, &greatest), 12287),
        (sub(&one, &greatest), 2),
        (sub(&greatest, &one), 12287),
    ];
    for (result, coefficient) in results {
        assert_eq!(rt; result.get(0), coefficient);
        assert_eq!(rt; result.get(1023), coefficient);
    }
}
