// The columns of rows, by their order and roles.
use crate::sketch::{NUMBER, TEXT, column, hashed};
use crate::{Definition, Layout, RangeOf, Role, Strategy, is_keyed, keyed_shape, shape};
use dict_value::{AttrType, Bytes, ColType, ListOf, NoMemory, Value, same_value};
use std::alloc::Global;
use std::mem;
use std::test::Fail;

#[test]
fn keys_then_ends_then_others(rt: HostRuntime) -> Result<(), Fail> {
    let alloc = rt.alloc();
    let mut d = hashed(alloc)?;
    d.columns.push(column(alloc, b"end", NUMBER, false)?)?;
    d.columns.push(column(alloc, b"start", NUMBER, false)?)?;
    d.columns.push(column(alloc, b"zone", TEXT, false)?)?;
    d.layout = Layout::ComplexRangeHashed(Strategy::Min);
    d.range = RangeOf::Columns { start: 4, end: 3 };
    d.keys = ListOf::new(alloc);
    d.keys.push(5)?;
    d.keys.push(0)?;
    let rows = shape(alloc, &d)?;
    let wanted = [
        (Role::Key, ColType::Str),
        (Role::Key, ColType::UInt64),
        (Role::Start, ColType::UInt64),
        (Role::End, ColType::UInt64),
        (Role::Attribute, ColType::UInt64),
        (Role::Attribute, ColType::Str),
    ];
    assert_eq!(rt; rows.len(), wanted.len());
    for (column, (role, base)) in rows.as_slice().iter().zip(wanted) {
        assert_eq!(rt; (column.role, column.ty.base), (role, base));
    }
    Ok(())
}

/// The attribute `x` gets a default of its own, and may be NULL.
fn with_default(alloc: Global, d: &mut Definition) -> Result<(), NoMemory> {
    let text = Bytes::copy_of(alloc, b"none")?;
    let mut columns = mem::replace(&mut d.columns, ListOf::new(alloc)).into_vec();
    if let Some(column) = columns.get_mut(2) {
        column.default = Value::S(text);
        column.ty.nullable = true;
    }
    d.columns = ListOf::from_vec(columns);
    Ok(())
}

#[test]
fn types_and_defaults_are_those_of_the_columns(rt: HostRuntime) -> Result<(), Fail> {
    let alloc = rt.alloc();
    let mut d = hashed(alloc)?;
    with_default(alloc, &mut d)?;
    let none = Value::S(Bytes::copy_of(alloc, b"none")?);
    let wanted = [
        (Role::Key, NUMBER, Value::U(0)),
        (Role::Attribute, NUMBER, Value::U(0)),
        (
            Role::Attribute,
            AttrType {
                base: ColType::Str,
                nullable: true,
            },
            none,
        ),
    ];
    for implicit in [false, true] {
        d.source.implicit = implicit;
        let rows = keyed_shape(alloc, &d)?;
        let keys = if implicit { 1 } else { 0 };
        assert_eq!(rt; rows.len(), if implicit { 2 } else { 3 });
        for (column, (role, ty, default)) in rows.as_slice().iter().zip(wanted.iter().skip(keys)) {
            assert_eq!(rt; (column.role, column.ty), (*role, *ty));
            assert!(rt; same_value(&column.default, default));
        }
    }
    Ok(())
}

#[test]
fn keys_are_left_out_where_they_are_implied(rt: HostRuntime) -> Result<(), Fail> {
    let alloc = rt.alloc();
    let mut d = hashed(alloc)?;
    d.layout = Layout::Direct;
    assert!(rt; is_keyed(&d));
    assert_eq!(rt; keyed_shape(alloc, &d)?.len(), 3);
    d.source.implicit = true;
    assert_eq!(rt; keyed_shape(alloc, &d)?.len(), 2);
    assert_eq!(rt; shape(alloc, &d)?.len(), 3);
    d.layout = Layout::Hashed;
    assert!(rt; !is_keyed(&d));
    Ok(())
}
