// Identifiers, in the forms of RFC 4122.
use crate::seen::{Seen, first_misread, first_not_refused};
use crate::value::{BadValue, ColType};
use std::test::Fail;

/// Texts, what they are read as, and what is written of it.
static READ: [(ColType, &str, Seen, &str); 5] = [
    (
        ColType::Uuid,
        "67e55044-10b1-426f-9247-bb680e5fe0c8",
        Seen::Id(0x67e5504410b1426f9247bb680e5fe0c8),
        "67e55044-10b1-426f-9247-bb680e5fe0c8",
    ),
    (
        ColType::Uuid,
        "67E5504410B1426F9247BB680E5FE0C8",
        Seen::Id(0x67e5504410b1426f9247bb680e5fe0c8),
        "67e55044-10b1-426f-9247-bb680e5fe0c8",
    ),
    (
        ColType::Uuid,
        "{67e55044-10b1-426f-9247-bb680e5fe0c8}",
        Seen::Id(0x67e5504410b1426f9247bb680e5fe0c8),
        "67e55044-10b1-426f-9247-bb680e5fe0c8",
    ),
    (
        ColType::Uuid,
        "urn:uuid:67e55044-10b1-426f-9247-bb680e5fe0c8",
        Seen::Id(0x67e5504410b1426f9247bb680e5fe0c8),
        "67e55044-10b1-426f-9247-bb680e5fe0c8",
    ),
    (
        ColType::Uuid,
        "URN:UUID:67E55044-10b1-426f-9247-bb680e5fe0c8",
        Seen::Id(0x67e5504410b1426f9247bb680e5fe0c8),
        "67e55044-10b1-426f-9247-bb680e5fe0c8",
    ),
];

/// Texts without a reading, and why.
static REFUSED: [(ColType, &str, BadValue); 1] = [(
    ColType::Uuid,
    "67e55044-10b1-426f-9247-bb680e5fe0c",
    BadValue::BadUuid,
)];

#[test]
fn identifiers(rt: HostRuntime) -> Result<(), Fail> {
    assert_eq!(rt; first_misread(rt.alloc(), &READ)?, None);
    assert_eq!(rt; first_not_refused(rt.alloc(), &REFUSED)?, None);
    Ok(())
}
