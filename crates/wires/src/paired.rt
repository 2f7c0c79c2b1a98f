ghost use Rattle.std.specs.Prelude.{◌≡◌};
ghost use Rattle.wires.specs.Picks.{same_pair, first_by, paired_pick};
ghost use Rattle.wires.specs.Within.{paired_within};

use crate::unordered::ByNumber;
use crate::wire::{Choice, Wire};
use bedrock::party::Routed;

// Finds the message whose number is the pick modulo the count that waits, and shows the oldest that has
// the same sender and the same receiver. So two messages between one pair of parties never overtake each other.
pub type Paired<T> = Wire<T, OldestOfPair>;

#[derive(Drop)]
pub struct OldestOfPair;

// Do two messages have the same sender and the same receiver?
fn same_pair<T: Routed>(a: &T, b: &T) -> bool
    ensures { result ≡ same_pair T.Routed.from T.Routed.to a.now b.now }
{
    a.sender() == b.sender() && a.receiver() == b.receiver()
}

// The index of the oldest message with the same sender and receiver as `message`, or the count that waits where there is none.
fn oldest<T: Routed>(waiting: &[T], message: &T) -> usize
    ensures { result ≡ first_by (same_pair T.Routed.from T.Routed.to message.now) waiting.now }
{
    waiting
        .iter()
        .position(|other| same_pair(message, other))
        .unwrap_or(waiting.len())
}

impl<T: Routed> Choice<T> for OldestOfPair {
    ghost choice = { paired_pick T.Routed.from T.Routed.to };

    ghost within = { paired_within T.Routed.from T.Routed.to };

    fn choose(waiting: &[T], pick: u8) -> usize {
        waiting
            .get(ByNumber::choose(waiting, pick))
            .map_or(0, |message| oldest(waiting, message))
    }
}
