use crate::{Clause, Order, first_order};
use ddl_tokens::{ReadFault, SyntaxFault};
use dict_value::{Bytes, NoMemory};
use std::alloc::Global;
use std::test::Fail;

fn push_optional(times: &Option<Bytes>, out: &mut Bytes) -> Result<(), NoMemory> {
    if let Some(times) = times {
        out.push(b'*')?;
        out.extend(times.as_slice())?;
    }
    Ok(())
}

fn push_clause(clause: &Clause, out: &mut Bytes) -> Result<(), NoMemory> {
    let (letter, value) = match clause {
        Clause::Price(value) => (b'P', value),
        Clause::Note(value) => (b'N', value),
        Clause::Due(value) => (b'D', value),
    };
    out.push(letter)?;
    out.extend(value.as_slice())
}

fn push_order(order: &Order, out: &mut Bytes) -> Result<(), NoMemory> {
    out.extend(order.name.as_slice())?;
    for item in order.items.as_slice() {
        out.push(b' ')?;
        out.extend(item.name.as_slice())?;
        push_optional(&item.times, out)?;
    }
    for clause in order.clauses.as_slice() {
        out.push(b' ')?;
        push_clause(clause, out)?;
    }
    Ok(())
}

fn push_fault(letter: u8, place: u32, out: &mut Bytes) -> Result<(), NoMemory> {
    out.push(letter)?;
    out.push(b'0' + (place / 10 % 10) as u8)?;
    out.push(b'0' + (place % 10) as u8)
}

/// The order that was read, or the fault and its place.
fn show(alloc: Global, text: &[u8], out: &mut Bytes) -> Result<(), NoMemory> {
    if text.len() > 100 {
        return Ok(());
    }
    match first_order(alloc, text) {
        Ok(order) => push_order(&order, out),
        Err(ReadFault::Syntax(SyntaxFault::Unexpected(place))) => push_fault(b'!', place, out),
        Err(ReadFault::Syntax(SyntaxFault::Twice(place))) => push_fault(b'2', place, out),
        Err(_) => out.extend(b"another"),
    }
}

#[test]
fn orders(rt: HostRuntime) -> Result<(), Fail> {
    let cases: [(&[u8], &[u8]); 16] = [
        (b"ORDER a(b)PRICE 1", b"a b P1"),
        (
            b"order `a b`(c TIMES 2, d) note 'e' Price 3;",
            b"a b c*2 d Ne P3",
        ),
        (b"ORDER a(b) DUE 1 PRICE 2 NOTE ''", b"a b D1 P2 N"),
        (b"ORDER a(times TIMES 2) PRICE 1", b"a times*2 P1"),
        (b"ORDER a(b) PRICE 1 ORDER", b"a b P1"),
        // a clause that is there, and one that is wanted
        (b"ORDER a(b) PRICE 1 PRICE 2", b"219"),
        (b"ORDER a(b) NOTE 'c' PRICE 1 NOTE 'd'", b"228"),
        (b"ORDER a(b) NOTE 'c'", b"!19"),
        (b"ORDER a(b) NOTE 'c';", b"!19"),
        // what can't stand where it is
        (b"", b"!00"),
        (b"`ORDER` a(b) PRICE 1", b"!00"),
        (b"ORDER a() PRICE 1", b"!08"),
        (b"ORDER a(b,) PRICE 1", b"!10"),
        (b"ORDER a(b TIMES) PRICE 1", b"!15"),
        (b"ORDER a(b c) PRICE 1", b"!10"),
        (b"ORDER a(b) PRICE 'c", b"!17"),
    ];
    for (text, wanted) in cases {
        let mut out = Bytes::new(rt.alloc());
        show(rt.alloc(), text, &mut out)?;
        assert_eq!(rt; out.as_slice(), wanted);
    }
    Ok(())
}
