// The dictionaries of a shop: a hashed one, ranges of dates, and networks, with blocks at their bound.
use super::{Ends, clock, run_told, shelf, source, spawner};
use crate::once::Outside;
use crate::status::Status;
use dict_value::{Bytes, NoMemory};
use std::alloc::Global;
use std::test::Fail;

const FILE: &[u8] = b"-- lookups of the shop\n\
CREATE DICTIONARY geo.country (\n\
  id UInt64,\n\
  name String DEFAULT 'unknown'\n\
)\n\
PRIMARY KEY id\n\
SOURCE(EXECUTABLE(command 'cat country.tsv' format 'TabSeparated'))\n\
LAYOUT(HASHED())\n\
LIFETIME(MIN 300 MAX 360);\n\
\n\
CREATE DICTIONARY tariff (\n\
  zone String, weight UInt8,\n\
  valid_from Date, valid_to Nullable(Date),\n\
  price Decimal(9, 2)\n\
)\n\
PRIMARY KEY zone, weight\n\
SOURCE(EXECUTABLE(command 'cat tariff.csv' format CSV))\n\
LAYOUT(COMPLEX_KEY_RANGE_HASHED(range_lookup_strategy 'max'))\n\
RANGE(MIN valid_from MAX valid_to)\n\
LIFETIME(3600);\n\
\n\
CREATE DICTIONARY net (prefix String, asn UInt32, cc String DEFAULT '??')\n\
PRIMARY KEY prefix\n\
SOURCE(EXECUTABLE(command 'cat net.tsv' format TSV))\n\
LAYOUT(IP_TRIE)\n\
LIFETIME(0);\n";

const REQUESTS: &[u8] = b"dictGet\tgeo.country\tname\t40\ndictGet\tgeo.country\tname\t41\n\
dictGet\ttariff\tprice\teu\t1\t2024-06-30\ndictGet\ttariff\tprice\teu\t1\t2030-01-01\n\
dictGet\ttariff\tprice\tus\t1\t2030-01-01\ndictHas\ttariff\teu\t1\t2023-12-31\n\
dictGet\tnet\tcc\t202.79.40.7\ndictGet\tnet\tcc\t203.0.113.1\n";

const REPLIES: &[u8] =
    b"OK\tv1\tAustria\nOK\tv1\tunknown\nOK\tv1\t4.5\nOK\tv1\t5\nOK\tv1\t0\nOK\tv1\t0\nOK\tv1\tNP\n\
OK\tv1\t??\n";

/// Adds a line so often.
fn add_lines(bytes: &mut Bytes, count: u32, line: &[u8]) -> Result<(), NoMemory> {
    for _ in 0..count {
        bytes.extend(line)?;
    }
    Ok(())
}

/// The requests, a block at its bound and one above it.
fn requests(alloc: Global) -> Result<Bytes, NoMemory> {
    let mut input = Bytes::copy_of(alloc, REQUESTS)?;
    input.extend(b"many\t4096\tdictGet\tgeo.country\tname\n")?;
    add_lines(&mut input, 4096, b"36\n")?;
    input.extend(b"many\t4097\tdictGet\tgeo.country\tname\n")?;
    add_lines(&mut input, 4097, b"36\n")?;
    input.extend(b"quit\n")?;
    Ok(input)
}

fn replies(alloc: Global) -> Result<Bytes, NoMemory> {
    let mut out = Bytes::copy_of(alloc, REPLIES)?;
    out.extend(b"OK\tv1\t4096\n")?;
    add_lines(&mut out, 4096, b"Australia\n")?;
    out.extend(b"ERR\t14\nOK\tbye\n")?;
    Ok(out)
}

#[test]
fn the_shop_is_served(rt: HostRuntime) -> Result<(), Fail> {
    let alloc = rt.alloc();
    let children = &[
        (b"36\tAustralia\n40\tAustria\n".as_slice(), Ends::With(0)),
        (
            b"\"eu\",1,2024-01-01,2024-06-30,4.50\n\"eu\",1,2024-07-01,\\N,5.00\n",
            Ends::With(0),
        ),
        (b"202.79.32.0/20\t17501\tNP\n", Ends::With(0)),
    ];
    let outside = Outside {
        shelf: shelf(alloc, FILE, &[])?,
        spawner: spawner(alloc, children)?,
        clock: clock(alloc, &[1000])?,
    };
    let input = source(alloc, requests(alloc)?.as_slice(), &[])?;
    let told = run_told(alloc, &["once", "d.sql", "1"], outside, input, 100_000, 100)?;
    assert_eq!(rt; told.status, Status::Done);
    assert!(rt; told.out.as_slice() == replies(alloc)?.as_slice());
    assert!(rt; told.err.is_empty());
    assert_eq!(rt; told.spawner.starts().len(), 3);
    Ok(())
}
