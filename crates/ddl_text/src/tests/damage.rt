// A realistic file, whole and with each of its tokens damaged.
use super::show::{Look, MOST, place_of, show};
use crate::{DdlRefusal, parse_definitions};
use ddl_tokens::Reader;
use dict_value::{Bytes, NoMemory};
use std::alloc::Global;
use std::test::Fail;

pub(super) const SHOP: &[u8] = b"-- lookups of the shop
CREATE DICTIONARY geo.country (
  id UInt64,
  name String DEFAULT 'unknown'
)
PRIMARY KEY id
SOURCE(EXECUTABLE(command 'cat country.tsv' format 'TabSeparated'))
LAYOUT(HASHED())
LIFETIME(MIN 300 MAX 360);

CREATE DICTIONARY tariff (
  zone String, weight UInt8,
  valid_from Date, valid_to Nullable(Date),
  price Decimal(9, 2)
)
PRIMARY KEY zone, weight
SOURCE(EXECUTABLE(command 'cat tariff.csv' format CSV))
LAYOUT(COMPLEX_KEY_RANGE_HASHED(range_lookup_strategy 'max'))
RANGE(MIN valid_from MAX valid_to)
LIFETIME(3600);

CREATE DICTIONARY net (prefix String, asn UInt32, cc String DEFAULT '??')
PRIMARY KEY prefix
SOURCE(EXECUTABLE(command 'cat net.tsv' format TSV))
LAYOUT(IP_TRIE)
LIFETIME(0);

CREATE DICTIONARY echo (id UInt64, v UInt64)
PRIMARY KEY id
SOURCE(EXECUTABLE_POOL(command 'cat' format 'TabSeparated' implicit_key true pool_size 2))
LAYOUT(DIRECT());

EXECUTABLE FUNCTION same(a UInt64) RETURNS UInt64
SOURCE(EXECUTABLE_POOL(command 'cat' format 'TabSeparated' execute_direct 0));
";

static SHOWN: [(Look, &[u8]); 4] = [
    (Look::Names, b" geo.country tariff net echo same()"),
    (
        Look::Columns,
        b" id UInt64 0, name String 'unknown' by 0 zone String '', weight UInt8 0, valid_from Date 0, valid_to \
            Date nullable NULL, price Decimal 9 2 0 by 0 1 prefix String '', asn UInt32 0, cc String '??' by 0 \
            id UInt64 0, v UInt64 0 by 0 a UInt64 gives UInt64 67108864",
    ),
    (
        Look::Source,
        b" cat country.tsv 10000 10000 10 16 10 cat tariff.csv csv 10000 10000 10 16 10 cat net.tsv 10000 10000 \
            10 16 10 pool cat implicit 10000 10000 10 2 10 pool cat 10000 10000 10 16 10",
    ),
    (
        Look::Clauses,
        b" hashed 300 360 complex range max 3600 3600 from 2 3 trie 0 0 direct 0 0 a UInt64 gives UInt64 67108864",
    ),
];

#[test]
fn a_realistic_file(rt: HostRuntime) -> Result<(), Fail> {
    for (look, wanted) in &SHOWN {
        let shown = show(rt.alloc(), *look, 0, SHOP)?;
        assert_eq!(rt; shown.as_slice(), *wanted);
    }
    Ok(())
}

/// What stands in place of a token: nothing, the token twice, or one of each other kind.
static DAMAGES: [&[u8]; 13] = [
    b"", b"", b" w ", b" `q` ", b" 7 ", b" 's' ", b" ( ", b" ) ", b" , ", b" ; ", b" . ", b" = ",
    b" $ ",
];

/// How many tokens a fault lies behind the damage: 0 where it is there, before it, or nowhere.
fn tokens_behind(alloc: Global, text: &[u8], damage: usize) -> Result<u32, NoMemory> {
    if text.len() > MOST {
        return Ok(u32::MAX);
    }
    let place = match parse_definitions(alloc, text) {
        Ok(_) => return Ok(0),
        Err(DdlRefusal::NoMemory) => return Err(NoMemory),
        Err(DdlRefusal::Refused { fault, .. }) => place_of(&fault),
    };
    let mut reader = Reader::new(text);
    let mut behind: u32 = 0;
    for _ in 0..MOST {
        if reader.place() >= place || !reader.goes_on() {
            break;
        }
        if reader.place() as usize >= damage {
            behind = behind.saturating_add(1);
        }
        reader.skip();
    }
    Ok(behind)
}

/// A text with a token that is damaged.
fn damaged(
    alloc: Global,
    number: usize,
    damage: &[u8],
    start: usize,
    end: usize,
) -> Result<Bytes, NoMemory> {
    let mut text = Bytes::with_room(alloc, SHOP.len() + 100)?;
    let (front, behind) = SHOP.split_at(start.min(SHOP.len()));
    let (own, back) = behind.split_at(end.saturating_sub(start).min(behind.len()));
    text.extend(front)?;
    if number == 1 {
        text.extend(own)?;
        text.push(b' ')?;
        text.extend(own)?;
    } else {
        text.extend(damage)?;
    }
    text.extend(back)?;
    Ok(text)
}

/// How many damages of a token tell a fault behind it, and how many tokens behind at most.
fn behind_damages(
    alloc: Global,
    start: usize,
    end: usize,
    most: &mut u32,
) -> Result<u32, NoMemory> {
    let mut count: u32 = 0;
    for (number, damage) in DAMAGES.iter().enumerate() {
        let text = damaged(alloc, number, damage, start, end)?;
        let place = if number == 1 {
            end.saturating_add(1)
        } else {
            start
        };
        let behind = tokens_behind(alloc, text.as_slice(), place)?;
        if behind > 0 {
            count = count.saturating_add(1);
        }
        if behind > *most {
            *most = behind;
        }
    }
    Ok(count)
}

#[test]
fn a_damaged_token_is_told_near_it(rt: HostRuntime) -> Result<(), Fail> {
    let mut reader = Reader::new(SHOP);
    let mut tokens: u32 = 0;
    let mut count: u32 = 0;
    let mut most = 0;
    for _ in 0..SHOP.len() {
        if !reader.goes_on() {
            break;
        }
        let start = reader.place() as usize;
        reader.skip();
        let end = reader.place() as usize;
        count = count.saturating_add(behind_damages(rt.alloc(), start, end, &mut most)?);
        tokens = tokens.saturating_add(1);
    }
    assert_eq!(rt; tokens, 196);
    assert_eq!(rt; count, 94);
    // `a UInt64, RETURNS UInt64` are two arguments, so the bracket that became a comma is missed behind them.
    assert_eq!(rt; most, 3);
    Ok(())
}
