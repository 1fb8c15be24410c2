// Addresses and prefixes, by RFC 5952.
use crate::seen::{Seen, first_misread, first_not_refused};
use crate::value::{BadValue, ColType};
use crate::{Address, Prefix, read_address, read_prefix};
use std::test::Fail;

/// Texts, what they are read as, and what is written of it.
static READ: [(ColType, &str, Seen, &str); 15] = [
    (ColType::Ipv4, "10.1.2.3", Seen::V4(167838211), "10.1.2.3"),
    (
        ColType::Ipv4,
        "255.255.255.255",
        Seen::V4(u32::MAX),
        "255.255.255.255",
    ),
    (ColType::Ipv6, "::", Seen::V6(0), "::"),
    (ColType::Ipv6, "::1", Seen::V6(1), "::1"),
    (ColType::Ipv6, "1::", Seen::V6(1 << 112), "1::"),
    (
        ColType::Ipv6,
        "2001:DB8:0:0:0:0:0:1",
        Seen::V6(0x20010db8000000000000000000000001),
        "2001:db8::1",
    ),
    (
        ColType::Ipv6,
        "1:0:0:2:0:0:3:4",
        Seen::V6(0x10000000000020000000000030004),
        "1::2:0:0:3:4",
    ),
    (
        ColType::Ipv6,
        "1:0:2:3:4:5:6:7",
        Seen::V6(0x10000000200030004000500060007),
        "1:0:2:3:4:5:6:7",
    ),
    (
        ColType::Ipv6,
        "::ffff:1.2.3.4",
        Seen::V6(0xffff01020304),
        "::ffff:1.2.3.4",
    ),
    (
        ColType::Ipv6,
        "1:2:3:4:5:6:7::",
        Seen::V6(0x10002000300040005000600070000),
        "1:2:3:4:5:6:7:0",
    ),
    (
        ColType::Ipv6,
        "ffff:ffff:ffff:ffff:ffff:ffff:ffff:ffff",
        Seen::V6(u128::MAX),
        "ffff:ffff:ffff:ffff:ffff:ffff:ffff:ffff",
    ),
    (
        ColType::Ipv6,
        "FEDC:BA98:7654:3210:1234:5678:9abc:def0",
        Seen::V6(0xfedcba9876543210123456789abcdef0),
        "fedc:ba98:7654:3210:1234:5678:9abc:def0",
    ),
    (
        ColType::Ipv6,
        "1:0:0:1:0:0:1:1",
        Seen::V6(0x0001_0000_0000_0001_0000_0000_0001_0001),
        "1::1:0:0:1:1",
    ),
    (
        ColType::Ipv6,
        "1::a:bc:def:0:0",
        Seen::V6(0x0001_0000_0000_000a_00bc_0def_0000_0000),
        "1::a:bc:def:0:0",
    ),
    (
        ColType::Ipv6,
        "::ffff:255.255.255.255",
        Seen::V6(0xffffffffffff),
        "::ffff:255.255.255.255",
    ),
];

/// Texts without a reading, and why.
static REFUSED: [(ColType, &str, BadValue); 8] = [
    (ColType::Ipv4, "01.2.3.4", BadValue::BadAddress),
    (ColType::Ipv4, "1.2.3.256", BadValue::BadAddress),
    (ColType::Ipv4, "1.2.3", BadValue::BadAddress),
    (ColType::Ipv4, "::1", BadValue::BadAddress),
    (ColType::Ipv6, "1:2:3:4:5:6:7:8:9", BadValue::BadAddress),
    (ColType::Ipv6, ":::", BadValue::BadAddress),
    (ColType::Ipv6, "1::2::3", BadValue::BadAddress),
    (ColType::Ipv6, "1.2.3.4", BadValue::BadAddress),
];

#[test]
fn addresses(rt: HostRuntime) -> Result<(), Fail> {
    assert_eq!(rt; first_misread(rt.alloc(), &READ)?, None);
    assert_eq!(rt; first_not_refused(rt.alloc(), &REFUSED)?, None);
    Ok(())
}

#[test]
fn prefixes(rt: HostRuntime) {
    for (text, want) in [
        ("10.1.2.3/8", Some((false, 0x0a000000, 8))),
        ("10.1.2.3", Some((false, 0x0a010203, 32))),
        ("10.1.2.3/0", Some((false, 0, 0))),
        ("10.1.2.3/32", Some((false, 0x0a010203, 32))),
        ("10.1.2.3/33", None),
        ("10.1.2.3/08", None),
        ("10.1.2.3/", None),
        ("10.1.2/8", None),
        ("::/0", Some((true, 0, 0))),
        ("ffff::1/127", Some((true, 0xffff << 112, 127))),
        (
            "2001:db8::1",
            Some((true, 0x20010db8000000000000000000000001, 128)),
        ),
        ("::/129", None),
    ] {
        let got = match read_prefix(text.as_bytes()) {
            Ok(Prefix { v6, bits, len }) => Some((v6, bits, len)),
            Err(_) => None,
        };
        assert_eq!(rt; got, want, "at {text}");
    }
    assert!(rt; read_address(b"1.2.3.4") == Ok(Address::V4(0x01020304)));
    assert!(rt; read_address(b"::2") == Ok(Address::V6(2)));
    assert!(rt; read_address(b"1.2.3.4/8") == Err(BadValue::BadAddress));
}
