ghost use Rattle.wires.specs.Picks.{unordered_pick};
ghost use Rattle.wires.specs.Within.{unordered_within};

use crate::wire::{Choice, Wire};

// Shows the message whose number is the pick modulo the count that waits, the oldest being 0.
pub type Unordered<T> = Wire<T, ByNumber>;

#[derive(Drop)]
pub struct ByNumber;

impl<T> Choice<T> for ByNumber {
    ghost choice = { unordered_pick };

    ghost within = { unordered_within };

    fn choose(waiting: &[T], pick: u8) -> usize {
        (pick as usize).checked_rem(waiting.len()).unwrap_or(0)
    }
}
