// Whole numbers, by arithmetic by hand.
use crate::seen::{Seen, first_misread, first_not_refused};
use crate::value::{BadValue, ColType};
use std::test::Fail;

/// Texts, what they are read as, and what is written of it.
static READ: [(ColType, &str, Seen, &str); 17] = [
    (ColType::UInt8, "0", Seen::U(0), "0"),
    (ColType::UInt8, "255", Seen::U(255), "255"),
    (ColType::UInt8, "+5", Seen::U(5), "5"),
    (
        ColType::UInt8,
        "0000000000000000000000000000000000000000000007",
        Seen::U(7),
        "7",
    ),
    (ColType::UInt16, "65535", Seen::U(65535), "65535"),
    (
        ColType::UInt32,
        "4294967295",
        Seen::U(4294967295),
        "4294967295",
    ),
    (
        ColType::UInt64,
        "18446744073709551615",
        Seen::U(u64::MAX),
        "18446744073709551615",
    ),
    (ColType::Int8, "-128", Seen::I(-128), "-128"),
    (ColType::Int8, "127", Seen::I(127), "127"),
    (ColType::Int8, "-0", Seen::I(0), "0"),
    (ColType::Int8, "+005", Seen::I(5), "5"),
    (ColType::Int16, "-32768", Seen::I(-32768), "-32768"),
    (ColType::Int16, "32767", Seen::I(32767), "32767"),
    (
        ColType::Int32,
        "-2147483648",
        Seen::I(-2147483648),
        "-2147483648",
    ),
    (
        ColType::Int32,
        "2147483647",
        Seen::I(2147483647),
        "2147483647",
    ),
    (
        ColType::Int64,
        "-9223372036854775808",
        Seen::I(i64::MIN),
        "-9223372036854775808",
    ),
    (
        ColType::Int64,
        "9223372036854775807",
        Seen::I(i64::MAX),
        "9223372036854775807",
    ),
];

/// Texts without a reading, and why.
static REFUSED: [(ColType, &str, BadValue); 18] = [
    (ColType::UInt8, "256", BadValue::OutOfRange),
    (ColType::UInt8, "-0", BadValue::NotANumber),
    (ColType::UInt8, "", BadValue::NotANumber),
    (ColType::UInt8, "+", BadValue::NotANumber),
    (ColType::UInt8, "1 ", BadValue::NotANumber),
    (ColType::UInt16, "65536", BadValue::OutOfRange),
    (ColType::UInt32, "4294967296", BadValue::OutOfRange),
    (
        ColType::UInt64,
        "18446744073709551616",
        BadValue::OutOfRange,
    ),
    (
        ColType::UInt64,
        "340282366920938463463374607431768211456",
        BadValue::OutOfRange,
    ),
    (ColType::Int8, "-129", BadValue::OutOfRange),
    (ColType::Int8, "128", BadValue::OutOfRange),
    (ColType::Int8, "--5", BadValue::NotANumber),
    (ColType::Int16, "-32769", BadValue::OutOfRange),
    (ColType::Int16, "32768", BadValue::OutOfRange),
    (ColType::Int32, "-2147483649", BadValue::OutOfRange),
    (ColType::Int32, "2147483648", BadValue::OutOfRange),
    (ColType::Int64, "-9223372036854775809", BadValue::OutOfRange),
    (ColType::Int64, "9223372036854775808", BadValue::OutOfRange),
];

#[test]
fn whole_numbers(rt: HostRuntime) -> Result<(), Fail> {
    assert_eq!(rt; first_misread(rt.alloc(), &READ)?, None);
    assert_eq!(rt; first_not_refused(rt.alloc(), &REFUSED)?, None);
    Ok(())
}
