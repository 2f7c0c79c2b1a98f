ghost use Rattle.wires.specs.Picks.{single_file_pick};
ghost use Rattle.wires.specs.Within.{single_file_within};

use crate::wire::{Choice, Wire};

// Shows the oldest message, whatever the pick.
pub type SingleFile<T> = Wire<T, Oldest>;

#[derive(Drop)]
pub struct Oldest;

impl<T> Choice<T> for Oldest {
    ghost choice = { single_file_pick };

    ghost within = { single_file_within };

    fn choose(_waiting: &[T], _pick: u8) -> usize {
        0
    }
}
