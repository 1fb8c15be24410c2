// What is read of whole texts, and the place and kind of each fault.
use crate::{read_arguments, read_columns, read_key, read_type};
use ddl_tokens::{ReadFault, Reader, SyntaxFault};
use dict_schema::Column;
use dict_value::{
    AttrType, Bytes, ColType, NoMemory, Value, fits_column, split_at_byte, write_value,
};
use std::alloc::Global;
use std::test::Fail;

/// Each row has the call by its first letter, a text with `^` where the reader stands in the end or
/// where the fault is, and behind `|` what is read or the kind of the fault. `!` is a default that fits
/// no type, and letters behind a column are its marks.
const ROWS: &[u8] = br#"
t UInt8^|UInt8
t UInt16^|UInt16
t UInt32^|UInt32
t UInt64^|UInt64
t Int8^|Int8
t Int16^|Int16
t Int32^|Int32
t Int64^|Int64
t String^|String
t Date^|Date
t DateTime^|DateTime
t UUID^|UUID
t IPv4^|IPv4
t IPv6^|IPv6
t DateTime('UTC')^|DateTime
t DateTime ( 'U\TC' ) ^,|DateTime
t Decimal(9, 2)^|Decimal 9 2
t Decimal(9)^|Decimal 9 0
t Decimal(38,38)^|Decimal 38 38
t Decimal(+01,+001)^|Decimal 1 1
t Decimal32(9)^|Decimal 9 9
t Decimal64(0)^|Decimal 18 0
t Decimal128(38)^|Decimal 38 38
t Nullable(UInt8)^|Nullable UInt8
t Nullable(DateTime('UTC')) ^;|Nullable DateTime
t `Nullable` ( "Decimal32" ( 4 ) ) ^SOURCE|Nullable Decimal 9 4
t UInt8 ^DEFAULT|UInt8
t ^Float64|unsupported
t ^uint8|unsupported
t ^`UInt8 `|unsupported
t ^EXPRESSION|unsupported
t ^'UInt8'|unexpected
t ^8|unexpected
t ^(|unexpected
t ^|unexpected
t ^$|unexpected
t UInt8 ^(|unexpected
t DateTime('UTC')^(|unexpected
t Nullable(UInt8)^(|unexpected
t Decimal(9)^(2)|unexpected
t DateTime(^)|unexpected
t DateTime(^'utc')|unsupported
t DateTime(^UTC)|unsupported
t DateTime(^`UTC`)|unsupported
t DateTime(^0)|unsupported
t DateTime(^,|unexpected
t DateTime('UTC'^,|unexpected
t Nullable^|unexpected
t Nullable(^)|unexpected
t Nullable(^Nullable(UInt8))|unsupported
t Nullable(^Bool)|unsupported
t Nullable(UInt8^,|unexpected
t Decimal^,|unexpected
t Decimal(^)|unexpected
t Decimal(^P)|unexpected
t Decimal(^-9)|unexpected
t Decimal(^9.0)|unexpected
t Decimal(^18446744073709551616)|unexpected
t Decimal(9,^)|unexpected
t Decimal(9,2^,|unexpected
t Decimal(9,^-2)|unexpected
t Decimal32(^)|unexpected
t Decimal32(4^,2)|unexpected
t ^Decimal(0)|unsupported
t ^Decimal(39, 2)|unsupported
t ^Decimal(9, 10)|unsupported
t ^Decimal(18446744073709551615)|unsupported
t ^Decimal32(10)|unsupported
t ^Decimal64(19) (|unsupported
t ^Decimal128(39)|unsupported
t Nullable(Decimal(9, 10^|unexpected
c (id UInt64)^|id:UInt64=0
c (id UInt64, x String, y Nullable(Date)) ^PRIMARY|id:UInt64=0 x:String= y:Nullable Date=NULL
c (`a b` UInt8, "c" Int8, `d``e` IPv4)^|a b:UInt8=0 c:Int8=0 d`e:IPv4=0.0.0.0
c (DEFAULT Date DEFAULT '1970-01-02', NULL DateTime)^|DEFAULT:Date=1970-01-02 NULL:DateTime=1970-01-01 00:00:00
c (a String DEFAULT '\b\f\r\n\t\0\a\v')^|a:String=~H~L~M~J~I~@~G~K
c (a String DEFAULT 'it''s \'\\\x41\x0a\q')^|a:String=it's '\A~Jq
c (a String DEFAULT '', b String DEFAULT -04.50)^|a:String= b:String=-04.50
c (a UInt8 DEFAULT 255, b UInt8 default '+7')^|a:UInt8=255 b:UInt8=7
c (a Int8 DEFAULT -128, b Decimal(5, 2) DEFAULT -1.509)^|a:Int8=-128 b:Decimal 5 2=-1.5
c (a UInt64 DEFAULT 18446744073709551615)^|a:UInt64=18446744073709551615
c (a Nullable(UInt8) DEFAULT NULL, b Nullable(UInt8) DEFAULT 5)^|a:Nullable UInt8=NULL b:Nullable UInt8=5
c (a UInt8 DEFAULT 256)^|a:UInt8=!
c (a UInt8 DEFAULT -1, b Int8 DEFAULT '1.5')^|a:UInt8=! b:Int8=!
c (a UInt64 DEFAULT 18446744073709551616)^|a:UInt64=!
c (a UInt8 DEFAULT null, b String DEFAULT Null)^|a:UInt8=! b:String=!
c (a Nullable(Date) DEFAULT '1969-12-31', b Nullable(UUID) DEFAULT '')^|a:Nullable Date=! b:Nullable UUID=!
c (a Decimal(3, 1) DEFAULT 100, b IPv6 DEFAULT ':::')^|a:Decimal 3 1=! b:IPv6=!
c (a UInt64 HIERARCHICAL)^|a:UInt64=0 H
c (a UInt64 IS_OBJECT_ID, b UInt64 INJECTIVE)^|a:UInt64=0 O b:UInt64=0 I
c (a UInt64 DEFAULT 1 injective Is_Object_Id hierarchical)^|a:UInt64=1 HOI
c (a UInt64 INJECTIVE HIERARCHICAL, b UInt64)^|a:UInt64=0 HI b:UInt64=0
c (a UInt64 HIERARCHICAL ^HIERARCHICAL)|twice
c (a UInt64 INJECTIVE HIERARCHICAL ^injective)|twice
c (a UInt64 HIERARCHICAL ^DEFAULT 1)|unexpected
c (a UInt64 DEFAULT 1 ^DEFAULT 2)|unexpected
c (a UInt64 ^EXPRESSION 1)|unsupported
c (a UInt64 DEFAULT 1 ^expression 1)|unsupported
c (a UInt64 INJECTIVE ^EXPRESSION 1)|unsupported
c (a UInt64 ^`HIERARCHICAL`)|unexpected
c (a UInt64 DEFAULT ^)|unexpected
c (a UInt64 DEFAULT ^nil)|unexpected
c (a UInt64 DEFAULT ^`NULL`)|unexpected
c (a UInt64 DEFAULT ^'1)|unexpected
c (a UInt64 DEFAULT 1 ^2)|unexpected
c (a UInt64^(8))|unexpected
c ^a UInt64)|unexpected
c (^)|unexpected
c (a UInt64,^)|unexpected
c (^'a' UInt64)|unexpected
c (^1 UInt64)|unexpected
c (a^, b UInt64)|unexpected
c (a UInt64^;|unexpected
c (a UInt64 ^b UInt64)|unexpected
c (a UInt64, b ^Float64, c ^|unsupported
c (a ^Decimal(39), b Float64)|unsupported
c (a Decimal(38), b Nullable(^Decimal32(10)), c Decimal(0))|unsupported
c (a UInt64, b ^Decimal(3, 4) HIERARCHICAL HIERARCHICAL)|unsupported
k PRIMARY KEY id^|id
k primary key id, `a b` ,"c" ^SOURCE|id a b c
k PRIMARY KEY (id)^|id
k PRIMARY KEY (id , "a b",c) ^;|id a b c
k PRIMARY KEY KEY, PRIMARY^|KEY PRIMARY
k ^KEY id|unexpected
k ^`PRIMARY` KEY id|unexpected
k PRIMARY ^id|unexpected
k PRIMARY KEY ^|unexpected
k PRIMARY KEY ^'id'|unexpected
k PRIMARY KEY id,^|unexpected
k PRIMARY KEY id, ^1|unexpected
k PRIMARY KEY (^)|unexpected
k PRIMARY KEY (id,^)|unexpected
k PRIMARY KEY (id ^|unexpected
k PRIMARY KEY (id)^, a|unexpected
k PRIMARY KEY (^(id))|unexpected
a ()^|
a ( ) ^RETURNS|
a (a UInt64)^|a:UInt64
a (a UInt64, `b c` Nullable(Decimal(3))) ^RETURNS|a:UInt64 b c:Nullable Decimal 3 0
a ^RETURNS|unexpected
a (^,|unexpected
a (a^)|unexpected
a (a UInt64,^)|unexpected
a (a UInt64 ^DEFAULT 1)|unexpected
a (a UInt64^(|unexpected
a (a ^Float32)|unsupported
a (a UInt64, b ^Decimal(99)|unsupported
a (a Decimal(99 , ^b|unexpected
"#;

fn push_number(number: u8, out: &mut Bytes) -> Result<(), NoMemory> {
    if number >= 10 {
        out.push(b'0' + number / 10 % 10)?;
    }
    out.push(b'0' + number % 10)
}

fn name_of(base: ColType) -> &'static [u8] {
    match base {
        ColType::UInt8 => b"UInt8",
        ColType::UInt16 => b"UInt16",
        ColType::UInt32 => b"UInt32",
        ColType::UInt64 => b"UInt64",
        ColType::Int8 => b"Int8",
        ColType::Int16 => b"Int16",
        ColType::Int32 => b"Int32",
        ColType::Int64 => b"Int64",
        ColType::Str => b"String",
        ColType::Date => b"Date",
        ColType::DateTime => b"DateTime",
        ColType::Uuid => b"UUID",
        ColType::Ipv4 => b"IPv4",
        ColType::Ipv6 => b"IPv6",
        ColType::Decimal(_, _) => b"Decimal ",
    }
}

fn push_type(ty: &AttrType, out: &mut Bytes) -> Result<(), NoMemory> {
    if ty.nullable {
        out.extend(b"Nullable ")?;
    }
    out.extend(name_of(ty.base))?;
    if let ColType::Decimal(digits, scale) = ty.base {
        push_number(digits, out)?;
        out.push(b' ')?;
        push_number(scale, out)?;
    }
    Ok(())
}

fn push_named(name: &Bytes, ty: &AttrType, out: &mut Bytes) -> Result<(), NoMemory> {
    if !out.is_empty() {
        out.push(b' ')?;
    }
    out.extend(name.as_slice())?;
    out.push(b':')?;
    push_type(ty, out)
}

/// Bytes below 32 are written as `~` and a letter.
fn push_text(text: &Bytes, out: &mut Bytes) -> Result<(), NoMemory> {
    for byte in text.as_slice() {
        if *byte < 32 {
            out.push(b'~')?;
            out.push(*byte + 64)?;
        } else {
            out.push(*byte)?;
        }
    }
    Ok(())
}

fn push_default(column: &Column, out: &mut Bytes) -> Result<(), NoMemory> {
    if !fits_column(&column.ty, &column.default) {
        return out.push(b'!');
    }
    match &column.default {
        Value::Null => out.extend(b"NULL"),
        Value::S(text) => push_text(text, out),
        _ => write_value(&column.ty, &column.default, out),
    }
}

fn push_marks(column: &Column, out: &mut Bytes) -> Result<(), NoMemory> {
    if column.hierarchical || column.object_id || column.injective {
        out.push(b' ')?;
    }
    for (is_there, letter) in [
        (column.hierarchical, b'H'),
        (column.object_id, b'O'),
        (column.injective, b'I'),
    ] {
        if is_there {
            out.push(letter)?;
        }
    }
    Ok(())
}

fn push_columns(alloc: Global, r: &mut Reader<'_>, out: &mut Bytes) -> Result<(), ReadFault> {
    let columns = read_columns(alloc, r)?;
    for column in columns.as_slice() {
        push_named(&column.name, &column.ty, out)?;
        out.push(b'=')?;
        push_default(column, out)?;
        push_marks(column, out)?;
    }
    Ok(())
}

fn push_key(alloc: Global, r: &mut Reader<'_>, out: &mut Bytes) -> Result<(), ReadFault> {
    let names = read_key(alloc, r)?;
    for name in names.as_slice() {
        if !out.is_empty() {
            out.push(b' ')?;
        }
        out.extend(name.as_slice())?;
    }
    Ok(())
}

fn push_arguments(alloc: Global, r: &mut Reader<'_>, out: &mut Bytes) -> Result<(), ReadFault> {
    let arguments = read_arguments(alloc, r)?;
    for argument in arguments.as_slice() {
        push_named(&argument.name, &argument.ty, out)?;
    }
    Ok(())
}

fn push_read(
    alloc: Global,
    call: u8,
    r: &mut Reader<'_>,
    out: &mut Bytes,
) -> Result<(), ReadFault> {
    match call {
        b'c' => push_columns(alloc, r, out),
        b'k' => push_key(alloc, r, out),
        b'a' => push_arguments(alloc, r, out),
        _ => {
            let ty = read_type(alloc, r)?;
            Ok(push_type(&ty, out)?)
        }
    }
}

/// What is read of a text or the kind of its fault, and the place where the reader stands then or
/// where the fault is.
fn seen(alloc: Global, call: u8, text: &[u8], out: &mut Bytes) -> Result<u32, NoMemory> {
    if text.len() > 1000 {
        return Ok(0);
    }
    let mut reader = Reader::new(text);
    let fault = match push_read(alloc, call, &mut reader, out) {
        Ok(()) => return Ok(reader.place()),
        Err(ReadFault::NoMemory) => return Err(NoMemory),
        Err(ReadFault::Syntax(fault)) => fault,
    };
    out.clear();
    let (kind, place): (&[u8], u32) = match fault {
        SyntaxFault::Unexpected(place) => (b"unexpected", place),
        SyntaxFault::UnknownSetting(place) => (b"unknown setting", place),
        SyntaxFault::Twice(place) => (b"twice", place),
        SyntaxFault::Unsupported(place) => (b"unsupported", place),
    };
    out.extend(kind)?;
    Ok(place)
}

/// Whether a row is read as it says.
fn holds(alloc: Global, row: &[u8]) -> Result<bool, NoMemory> {
    let [call, b' ', marked @ ..] = row else {
        return Ok(row.is_empty());
    };
    let Some((marked, wanted)) = split_at_byte(marked, b'|') else {
        return Ok(false);
    };
    let Some((front, back)) = split_at_byte(marked, b'^') else {
        return Ok(false);
    };
    let mut text = Bytes::copy_of(alloc, front)?;
    text.extend(back)?;
    let mut out = Bytes::new(alloc);
    let place = seen(alloc, *call, text.as_slice(), &mut out)?;
    Ok(out.as_slice() == wanted && place as usize == front.len())
}

#[test]
fn texts_and_faults(rt: HostRuntime) -> Result<(), Fail> {
    let mut rest = ROWS;
    for number in 0..ROWS.len() {
        let Some((row, others)) = split_at_byte(rest, b'\n') else {
            assert_eq!(rt; number, 149);
            return Ok(());
        };
        assert!(rt; holds(rt.alloc(), row)?, "row {number}");
        rest = others;
    }
    assert!(rt; false);
    Ok(())
}
