// Prefixes of both families.
use crate::{Trie, TrieFault};
use dict_value::{Address, Bytes, MOST_ROWS, Tally, Uncounted, read_address};
use std::alloc::Global;
use std::test::Fail;

static TEXTS: [&str; 14] = [
    "202.79.32.0/20",
    "202.79.32.2/32",
    "0.0.0.0/0",
    "2001:db8::/32",
    "10.0.0.0/8",
    "10.1.2.3/8",
    "10.128.0.0/9",
    "255.255.255.255",
    "::/0",
    "::ffff:1.2.3.4/128",
    "ffff:ffff:ffff:ffff:ffff:ffff:ffff:ffff/127",
    "2001:db8::ff/124",
    "192.0.2.128/25",
    "2001:db8:5::/48",
];

/// Addresses, each with its row.
static ASKED: [(&str, u32); 21] = [
    ("202.79.32.2", 1),
    ("202.79.32.10", 0),
    ("202.79.47.255", 0),
    ("202.79.48.0", 2),
    ("1.1.1.1", 2),
    ("10.9.9.9", 4),
    ("10.127.255.255", 4),
    ("10.128.0.0", 6),
    ("255.255.255.255", 7),
    ("255.255.255.254", 2),
    ("2001:db8::1", 3),
    ("2001:db8::fe", 11),
    ("2001:db9::1", 8),
    ("::ffff:1.2.3.4", 9),
    ("::ffff:1.2.3.5", 8),
    ("ffff:ffff:ffff:ffff:ffff:ffff:ffff:fffe", 10),
    ("192.0.2.128", 12),
    ("192.0.2.127", 2),
    ("192.0.3.128", 2),
    ("2001:db8:5:ffff::1", 13),
    ("2001:db8:6::1", 3),
];

/// Texts that are refused, each with its row.
static BAD: [(&[&str], u32); 5] = [
    (&["1.2.3.4/33"], 1),
    (&["1.2.3.4", "x", ""], 2),
    (&["10.0.0.0/08"], 1),
    (&["10.0.0.0/8", "::/0", "::/129"], 3),
    (&["1.1.1/8", "1.1.1"], 1),
];

/// A family alone, an address, its row and how many bits a prefix has in common with it.
static STEPS: [(&[&str], &str, Option<u32>, u64); 12] = [
    (&[], "0.0.0.0", None, 0),
    (&["::/0"], "1.2.3.4", None, 0),
    (&["::/0"], "::1", Some(0), 0),
    (&["0.0.0.0/0"], "::ffff:1.2.3.4", None, 0),
    (&["202.79.32.0/20"], "202.79.32.2", Some(0), 20),
    (&["202.79.32.0/20"], "0.0.0.1", None, 0),
    (&["202.79.32.2/32"], "202.79.32.3", None, 31),
    (&["2001:db8::1"], "2001:db8::1", Some(0), 128),
    (&["2001:db8::1"], "2001::", None, 20),
    (&["2001:db8::/48"], "2001:db8::7", Some(0), 48),
    (&["2001:db8::/48"], "2001:db9::7", None, 31),
    (&["10.0.0.0/8", "10.0.1.0/24"], "10.0.0.1", Some(0), 23),
];

fn copies(alloc: Global, texts: &[&str]) -> Result<Vec<Bytes>, Fail> {
    let mut all = Vec::new(alloc);
    for text in texts {
        all.push(Bytes::copy_of(alloc, text.as_bytes())?)?;
    }
    if all.len() > MOST_ROWS {
        return Err("too many".into());
    }
    Ok(all)
}

#[test]
fn rows(rt: HostRuntime) -> Result<(), Fail> {
    let texts = copies(rt.alloc(), &TEXTS)?;
    assert!(rt; texts.len() <= MOST_ROWS);
    let trie = Trie::<Uncounted>::build(rt.alloc(), texts.as_slice())?;
    for (text, want) in ASKED {
        let address = read_address(text.as_bytes())?;
        assert_eq!(rt;
            trie.find(&address, &mut Uncounted),
            Some(want),
            "at {text}"
        );
    }
    for (texts, row) in BAD {
        let texts = copies(rt.alloc(), texts)?;
        assert!(rt; texts.len() <= MOST_ROWS);
        let built = Trie::<Uncounted>::build(rt.alloc(), texts.as_slice());
        assert_eq!(rt; built.err(), Some(TrieFault::BadPrefix(row)));
    }
    Ok(())
}

#[test]
fn steps(rt: HostRuntime) -> Result<(), Fail> {
    for (texts, text, want, common) in STEPS {
        let texts = copies(rt.alloc(), texts)?;
        assert!(rt; texts.len() <= MOST_ROWS);
        let trie = Trie::<Tally>::build(rt.alloc(), texts.as_slice())?;
        let address = read_address(text.as_bytes())?;
        let mut steps = Tally::new();
        assert_eq!(rt; trie.find(&address, &mut steps), want, "at {text}");
        assert!(rt; steps.steps() <= common + 1);
    }
    Ok(())
}

/// Whether each of so many scattered addresses is found by its own prefix.
fn finds_each(alloc: Global, count: u32) -> Result<bool, Fail> {
    let mut texts = Vec::with_capacity(alloc, count as usize)?;
    for row in 0..count {
        let [a, b, c, d] = row.wrapping_mul(2_654_435_761).to_be_bytes();
        let text = format!(in alloc; "{a}.{b}.{c}.{d}/32")?;
        texts.push(Bytes::copy_of(alloc, text.as_bytes())?)?;
    }
    if texts.len() > MOST_ROWS {
        return Ok(false);
    }
    let trie = Trie::<Uncounted>::build(alloc, texts.as_slice())?;
    for row in 0..count {
        let address = Address::V4(row.wrapping_mul(2_654_435_761));
        if trie.find(&address, &mut Uncounted) != Some(row) {
            return Ok(false);
        }
    }
    Ok(true)
}

#[test]
fn many(rt: HostRuntime) -> Result<(), Fail> {
    assert!(rt; finds_each(rt.alloc(), 200_000)?);
    Ok(())
}
