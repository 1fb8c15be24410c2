// Strings, NULL, defaults and copies.
use crate::seen::{Seen, seen_of};
use crate::value::{AttrType, BadValue, ColType, Field, Value, copy_value, same_value};
use crate::{
    Bytes, addresses_by_grammar, default_of, each_field_is_read, one_place_is_found, read_is_typed,
    read_text, read_value, write_value, written_is_read,
};
use std::alloc::Global;
use std::test::Fail;

#[test]
fn nulls_and_defaults(rt: HostRuntime) {
    let alloc = rt.alloc();
    for base in [ColType::UInt8, ColType::Str, ColType::Date] {
        let plain = AttrType {
            base,
            nullable: false,
        };
        let nullable = AttrType {
            base,
            nullable: true,
        };
        let none = read_value(alloc, &plain, &Field::Null);
        assert!(rt; matches!(none, Err(BadValue::NullNotAllowed)));
        assert!(rt; matches!(read_value(alloc, &nullable, &Field::Null), Ok(Value::Null)));
        assert_eq!(rt; seen_of(&default_of(alloc, &nullable)), Seen::Null);
        assert!(rt; !same_value(&default_of(alloc, &nullable), &default_of(alloc, &plain)));
    }
    for (base, want) in [
        (ColType::UInt64, Seen::U(0)),
        (ColType::Int64, Seen::I(0)),
        (ColType::Str, Seen::Str),
        (ColType::Date, Seen::Day(0)),
        (ColType::DateTime, Seen::Second(0)),
        (ColType::Uuid, Seen::Id(0)),
        (ColType::Ipv4, Seen::V4(0)),
        (ColType::Ipv6, Seen::V6(0)),
        (ColType::Decimal(9, 4), Seen::Dec(0)),
    ] {
        let t = AttrType {
            base,
            nullable: false,
        };
        assert_eq!(rt; seen_of(&default_of(alloc, &t)), want);
    }
}

#[test]
fn copies_and_texts(rt: HostRuntime) -> Result<(), Fail> {
    let alloc = rt.alloc();
    let text = Bytes::copy_of(alloc, b"a\0b")?;
    let values = [
        Value::Null,
        Value::U(7),
        Value::I(-7),
        Value::S(text),
        Value::Day(3),
        Value::Second(4),
        Value::Id(5),
        Value::V4(6),
        Value::V6(8),
        Value::Dec(-9),
    ];
    for value in &values {
        assert!(rt; same_value(&copy_value(alloc, value)?, value));
    }
    let read = read_text(alloc, ColType::Str, b" x\t");
    assert!(rt; matches!(&read, Ok(Value::S(text)) if text.as_slice() == b" x\t".as_slice()));
    assert!(rt; matches!(read_text(alloc, ColType::Int8, b"-128"), Ok(Value::I(-128))));
    assert!(rt;
        matches!(
            read_text(alloc, ColType::Int8, b"128"),
            Err(BadValue::OutOfRange)
        )
    );
    addresses_by_grammar();
    each_field_is_read();
    one_place_is_found::<u64>();
    read_is_typed();
    written_is_read();
    Ok(())
}

/// Whether a String of this many bytes is read, copied and written.
fn is_carried(alloc: Global, size: usize) -> Result<bool, Fail> {
    let t = AttrType {
        base: ColType::Str,
        nullable: false,
    };
    let mut text = Bytes::zeros(alloc, size)?;
    if size > 2 {
        text.store(1, b"\t");
    }
    let Ok(value) = read_value(
        alloc,
        &t,
        &Field::Text(Bytes::copy_of(alloc, text.as_slice())?),
    ) else {
        return Ok(false);
    };
    let copy = copy_value(alloc, &value)?;
    if !matches!(copy, Value::S(_)) || !same_value(&copy, &value) {
        return Ok(false);
    }
    let mut out = Bytes::new(alloc);
    write_value(&t, &copy, &mut out)?;
    Ok(out.is_same(&text))
}

#[test]
fn strings_of_each_size(rt: HostRuntime) -> Result<(), Fail> {
    for size in [0, 1, 1_001, 65_536, 16_777_216] {
        assert!(rt; is_carried(rt.alloc(), size)?, "at {size}");
    }
    Ok(())
}
