// Dates and seconds, by the calendar.
use crate::seen::{Seen, first_misread, first_not_refused};
use crate::value::{AttrType, BadValue, ColType, Field, Value};
use crate::{Bytes, read_value, write_value};
use std::alloc::Global;
use std::test::Fail;

/// Texts, what they are read as, and what is written of it.
static READ: [(ColType, &str, Seen, &str); 9] = [
    (ColType::Date, "1970-01-01", Seen::Day(0), "1970-01-01"),
    (ColType::Date, "2149-06-06", Seen::Day(65535), "2149-06-06"),
    (ColType::Date, "2000-02-29", Seen::Day(11016), "2000-02-29"),
    (
        ColType::DateTime,
        "1970-01-01 00:00:00",
        Seen::Second(0),
        "1970-01-01 00:00:00",
    ),
    (
        ColType::DateTime,
        "2106-02-07 06:28:15",
        Seen::Second(u32::MAX),
        "2106-02-07 06:28:15",
    ),
    (
        ColType::DateTime,
        "2000-02-29 23:59:59",
        Seen::Second(951868799),
        "2000-02-29 23:59:59",
    ),
    (
        ColType::DateTime,
        "12345",
        Seen::Second(12345),
        "1970-01-01 03:25:45",
    ),
    (
        ColType::DateTime,
        "1234567890",
        Seen::Second(1234567890),
        "2009-02-13 23:31:30",
    ),
    (
        ColType::DateTime,
        "4294967295",
        Seen::Second(u32::MAX),
        "2106-02-07 06:28:15",
    ),
];

/// Texts without a reading, and why.
static REFUSED: [(ColType, &str, BadValue); 18] = [
    (ColType::Date, "2149-06-07", BadValue::OutOfRange),
    (ColType::Date, "1969-12-31", BadValue::OutOfRange),
    (ColType::Date, "0000-01-01", BadValue::OutOfRange),
    (ColType::Date, "9999-12-31", BadValue::OutOfRange),
    (ColType::Date, "1900-02-29", BadValue::BadDate),
    (ColType::Date, "2024-02-30", BadValue::BadDate),
    (ColType::Date, "2024-13-01", BadValue::BadDate),
    (ColType::Date, "2024-00-10", BadValue::BadDate),
    (ColType::Date, "2024-2-10", BadValue::BadDate),
    (ColType::Date, "2024/02/10", BadValue::BadDate),
    (
        ColType::DateTime,
        "2106-02-07 06:28:16",
        BadValue::OutOfRange,
    ),
    (
        ColType::DateTime,
        "1969-12-31 23:59:59",
        BadValue::OutOfRange,
    ),
    (ColType::DateTime, "2000-02-29 24:00:00", BadValue::BadDate),
    (ColType::DateTime, "2000-02-29 23:60:00", BadValue::BadDate),
    (ColType::DateTime, "2000-02-29T23:59:59", BadValue::BadDate),
    (ColType::DateTime, "4294967296", BadValue::OutOfRange),
    (ColType::DateTime, "1234", BadValue::BadDate),
    (ColType::DateTime, "01234567890", BadValue::BadDate),
];

#[test]
fn dates_and_seconds(rt: HostRuntime) -> Result<(), Fail> {
    assert_eq!(rt; first_misread(rt.alloc(), &READ)?, None);
    assert_eq!(rt; first_not_refused(rt.alloc(), &REFUSED)?, None);
    Ok(())
}

/// The first number of a Date whose text isn't read as that Date, where there is one.
fn first_lost_date(alloc: Global) -> Result<Option<u16>, Fail> {
    let t = AttrType {
        base: ColType::Date,
        nullable: false,
    };
    for day in 0..=u16::MAX {
        let mut text = Bytes::new(alloc);
        write_value(&t, &Value::Day(day), &mut text)?;
        if !matches!(read_value(alloc, &t, &Field::Text(text)), Ok(Value::Day(again)) if again == day)
        {
            return Ok(Some(day));
        }
    }
    Ok(None)
}

#[test]
fn every_date(rt: HostRuntime) -> Result<(), Fail> {
    assert_eq!(rt; first_lost_date(rt.alloc())?, None);
    Ok(())
}
