// Decimals, by arithmetic by hand.
use crate::seen::{Seen, first_misread, first_not_refused};
use crate::value::{BadValue, ColType};
use std::test::Fail;

/// Texts, what they are read as, and what is written of it.
static READ: [(ColType, &str, Seen, &str); 10] = [
    (ColType::Decimal(5, 2), "-1.50", Seen::Dec(-150), "-1.5"),
    (ColType::Decimal(5, 2), "+007", Seen::Dec(700), "7"),
    (
        ColType::Decimal(5, 2),
        "999.999",
        Seen::Dec(99999),
        "999.99",
    ),
    (
        ColType::Decimal(5, 2),
        "-999.99",
        Seen::Dec(-99999),
        "-999.99",
    ),
    (ColType::Decimal(5, 2), "-0.001", Seen::Dec(0), "0"),
    (ColType::Decimal(5, 2), "0.05", Seen::Dec(5), "0.05"),
    (ColType::Decimal(3, 0), "999.9", Seen::Dec(999), "999"),
    (
        ColType::Decimal(38, 38),
        "0.00000000000000000000000000000000000001",
        Seen::Dec(1),
        "0.00000000000000000000000000000000000001",
    ),
    (
        ColType::Decimal(38, 38),
        "0.5",
        Seen::Dec(50000000000000000000000000000000000000),
        "0.5",
    ),
    (
        ColType::Decimal(38, 0),
        "99999999999999999999999999999999999999",
        Seen::Dec(99999999999999999999999999999999999999),
        "99999999999999999999999999999999999999",
    ),
];

/// Texts without a reading, and why.
static REFUSED: [(ColType, &str, BadValue); 9] = [
    (ColType::Decimal(5, 2), ".5", BadValue::BadDecimal),
    (ColType::Decimal(5, 2), "1.", BadValue::BadDecimal),
    (ColType::Decimal(5, 2), "-", BadValue::BadDecimal),
    (ColType::Decimal(5, 2), "1.2.3", BadValue::BadDecimal),
    (ColType::Decimal(5, 2), "1000", BadValue::OutOfRange),
    (ColType::Decimal(5, 2), "-1000", BadValue::OutOfRange),
    (ColType::Decimal(3, 0), "1000", BadValue::OutOfRange),
    (ColType::Decimal(38, 38), "1", BadValue::OutOfRange),
    (
        ColType::Decimal(38, 0),
        "-100000000000000000000000000000000000000",
        BadValue::OutOfRange,
    ),
];

#[test]
fn decimals(rt: HostRuntime) -> Result<(), Fail> {
    assert_eq!(rt; first_misread(rt.alloc(), &READ)?, None);
    assert_eq!(rt; first_not_refused(rt.alloc(), &REFUSED)?, None);
    Ok(())
}
