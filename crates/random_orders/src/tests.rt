use crate::{Orders, rotated};
use std::process::Abort;
use std::test::Fail;

/// The first words of the generator with state 42 and stream 54. Below the greatest number a turn is a word less one.
#[test]
fn first_words(rt: HostRuntime) -> Result<(), Fail> {
    let mut orders = Orders::new(42, 54);
    for word in [
        2_707_161_783,
        2_068_313_097,
        3_122_475_824,
        2_211_639_955u32,
    ] {
        assert_eq!(rt; orders.turn(u32::MAX), word - 1);
    }
    Ok(())
}

#[test]
fn first_turns(rt: HostRuntime) -> Result<(), Fail> {
    let mut orders = Orders::new(42, 54);
    for (bound, turn) in [(4, 2), (4, 1), (4, 2), (10, 5u32)] {
        assert!(rt; 0 < bound);
        assert_eq!(rt; orders.turn(bound), turn);
    }
    Ok(())
}

#[test]
fn rotation_at_the_greatest_number(rt: HostRuntime) -> Result<(), Fail> {
    assert_eq!(rt; rotated(u32::MAX - 1, u32::MAX, u32::MAX - 1), u32::MAX - 2);
    assert_eq!(rt; rotated(3, 5, 1), 4);
    assert_eq!(rt; rotated(3, 5, 2), 0);
    Ok(())
}
