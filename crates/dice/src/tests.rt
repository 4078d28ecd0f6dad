use crate::{LongDice, ShortDice};

#[test]
fn short_dice_from_two_seeds(rt: HostRuntime) {
    let mut dice = ShortDice::new(1);
    let first = [dice.roll(1000), dice.roll(1000), dice.roll(1000)];
    let mut other = ShortDice::new(2);
    let second = [other.roll(1000), other.roll(1000), other.roll(1000)];
    assert_eq!(rt; first, [496, 200, 46]);
    assert_eq!(rt; second, [521, 144, 383]);
}

#[test]
fn long_dice_from_two_seeds(rt: HostRuntime) {
    let mut dice = LongDice::new(1);
    let first = [dice.roll(1000), dice.roll(1000), dice.roll(1000)];
    let mut other = LongDice::new(2);
    let second = [other.roll(1000), other.roll(1000), other.roll(1000)];
    assert_eq!(rt; first, [735, 384, 490]);
    assert_eq!(rt; second, [345, 104, 311]);
}

#[test]
fn no_sides_give_0(rt: HostRuntime) {
    assert_eq!(rt; LongDice::new(1).roll(0), 0);
}
