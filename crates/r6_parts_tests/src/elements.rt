//! Worked values of the field, and the calls at their edges.

use crate::must::must;
use r6_field::{ConstMul, Gf};

/// What is asked of the field.
#[derive(Clone, Copy)]
enum Ask {
    Sum(u8, u8),
    Product(u8, u8),
    /// By a table for the first element.
    ProductBy(u8, u8),
    Quotient(u8, u8),
    Inverse(u8),
    Twice(u8),
    Power(u32),
    Exponent(u8),
}

fn answer(ask: &Ask) -> Option<u8> {
    match ask {
        Ask::Sum(a, b) => Some((Gf(*a) + Gf(*b)).0),
        Ask::Product(a, b) => Some((Gf(*a) * Gf(*b)).0),
        Ask::ProductBy(constant, element) => Some(ConstMul::new(Gf(*constant)).mul(*element)),
        Ask::Quotient(a, b) => Some(Gf(*a).div(Gf(*b))?.0),
        Ask::Inverse(element) => Some(Gf(*element).inv()?.0),
        Ask::Twice(element) => Some(Gf(*element).doubled().0),
        Ask::Power(exponent) => Some(Gf::exp(*exponent).0),
        Ask::Exponent(element) => Gf(*element).log(),
    }
}

const VALUES: &[(Ask, Option<u8>)] = &[
    (Ask::Sum(0x01, 0x80), Some(0x81)),
    (Ask::Product(0x02, 0x80), Some(0x1d)),
    (Ask::Product(0x04, 0xa7), Some(0xa6)),
    (Ask::Product(0x8e, 0xa7), Some(0xdd)),
    (Ask::Product(0xf4, 0x9d), Some(0x80)),
    (Ask::ProductBy(0x02, 0x80), Some(0x1d)),
    (Ask::ProductBy(0x04, 0xa7), Some(0xa6)),
    (Ask::Quotient(0x1d, 0x80), Some(0x02)),
    (Ask::Quotient(0x1d, 0x00), None),
    (Ask::Inverse(0x02), Some(0x8e)),
    (Ask::Inverse(0x03), Some(0xf4)),
    (Ask::Inverse(0x05), Some(0xa7)),
    (Ask::Inverse(0x00), None),
    (Ask::Twice(0x40), Some(0x80)),
    (Ask::Twice(0x80), Some(0x1d)),
    (Ask::Power(0), Some(0x01)),
    (Ask::Power(1), Some(0x02)),
    (Ask::Power(2), Some(0x04)),
    (Ask::Power(3), Some(0x08)),
    (Ask::Power(4), Some(0x10)),
    (Ask::Power(5), Some(0x20)),
    (Ask::Power(6), Some(0x40)),
    (Ask::Power(7), Some(0x80)),
    (Ask::Power(8), Some(0x1d)),
    (Ask::Power(9), Some(0x3a)),
    (Ask::Power(10), Some(0x74)),
    (Ask::Power(11), Some(0xe8)),
    (Ask::Power(12), Some(0xcd)),
    (Ask::Power(13), Some(0x87)),
    (Ask::Power(14), Some(0x13)),
    (Ask::Power(15), Some(0x26)),
    (Ask::Power(255), Some(0x01)),
    (Ask::Exponent(0x00), None),
    (Ask::Exponent(0x01), Some(0)),
    (Ask::Exponent(0x1d), Some(8)),
];

#[test]
fn the_field_has_its_worked_values(rt: HostRuntime) {
    for (row, (ask, value)) in VALUES.iter().enumerate() {
        must(&rt, answer(ask) == *value, "a value", row, 0);
    }
}
