// Readings that are counted.
use crate::{Counted, ListOf, Tally, Uncounted};
use std::test::Fail;

#[test]
fn counted(rt: HostRuntime) -> Result<(), Fail> {
    let items = Counted::<u64, Tally>::from_list(ListOf::from_vec(vec![in rt.alloc();
        3u64, 5, 8,
    ]?));
    let mut steps = Tally::new();
    if items.len() == 3 && !items.is_empty() {
        assert_eq!(rt; items.at(2, &mut steps), 8);
        assert_eq!(rt; items.at(0, &mut steps), 3);
    }
    assert_eq!(rt; steps.steps(), 2);
    let plain = Counted::<u64, Uncounted>::from_list(ListOf::from_vec(vec![in rt.alloc(); 7u64]?));
    if plain.len() == 1 {
        assert_eq!(rt; plain.at(0, &mut Uncounted), 7);
    }
    Ok(())
}
