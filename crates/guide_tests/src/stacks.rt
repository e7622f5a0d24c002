// The stack: the newest entry, none, and no room.
use guide::stack::{pop, push, top};

#[test]
fn the_newest_entry_is_on_top(rt: HostRuntime) {
    let mut slots = [0u8; 3];
    let mut len = 0;
    assert!(rt; push(&mut slots, &mut len, 7).is_ok());
    assert!(rt; push(&mut slots, &mut len, 9).is_ok());
    assert_eq!(rt; len, 2);
    assert_eq!(rt; top(&slots, len).copied(), Some(9));
    assert_eq!(rt; pop(&slots, &mut len), Some(9));
    assert_eq!(rt; pop(&slots, &mut len), Some(7));
    assert_eq!(rt; len, 0);
}

#[test]
fn an_empty_stack_has_no_entry(rt: HostRuntime) {
    let slots = [5u8; 3];
    let mut len = 0;
    assert_eq!(rt; top(&slots, len).copied(), None);
    assert_eq!(rt; pop(&slots, &mut len), None);
    assert_eq!(rt; len, 0);
}

#[test]
fn a_full_stack_takes_no_entry(rt: HostRuntime) {
    let mut slots = [1u8, 2];
    let mut len = 2;
    assert!(rt; push(&mut slots, &mut len, 3).is_err());
    assert_eq!(rt; len, 2);
    assert_eq!(rt; slots[0], 1);
    assert_eq!(rt; slots[1], 2);
}

// Only the slots that there are can be held.
#[test]
fn a_length_beyond_the_slots_counts_as_full(rt: HostRuntime) {
    let mut slots = [1u8, 2];
    let mut len = 9;
    assert!(rt; push(&mut slots, &mut len, 3).is_err());
    assert_eq!(rt; len, 9);
    assert_eq!(rt; top(&slots, len).copied(), Some(2));
    assert_eq!(rt; pop(&slots, &mut len), Some(2));
    assert_eq!(rt; len, 1);
}
