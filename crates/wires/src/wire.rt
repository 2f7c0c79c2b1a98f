ghost use Rattle.std.specs.Prelude.{◌≡◌, ℕ, ◌<◌, List, length};
ghost use Rattle.wires.specs.Lines.{waits};

use crate::channel::Channel;
use arrayvec::ArrayVec;
use bedrock::refusal::Refusal;
use std::marker::PhantomData;

// Which of the waiting messages a pick shows: what tells one kind of wire from another.
pub trait Choice<T> {
    // The index that a pick shows, the oldest being 0.
    ghost choice: { List T → ℕ → ℕ };

    fn choose(waiting: &[T], pick: u8) -> usize
        ensures { result ≡ choice waiting.now pick };

    // Where messages wait, the pick shows one of them.
    ghost within: { (xs : List T) (p : ℕ) → 0 < length xs → choice xs p < length xs };
}

// A channel with room for 128 messages, which lie in it oldest first. Its kind says which of them a pick shows.
#[derive(Drop)]
pub struct Wire<T, K> {
    messages: ArrayVec<T, 128>,
    kind: PhantomData<K>,
}

impl<T: Copy + Default, K: Choice<T>> Channel<T> for Wire<T, K> {
    ghost waiting = { λ c. waits c.messages };

    ghost chosen = { λ c. K.choice (waits c.messages) };

    fn new() -> Wire<T, K> {
        Wire {
            messages: ArrayVec::new(),
            kind: PhantomData,
        }
    }

    fn len(&self) -> usize {
        self.messages.len()
    }

    fn add(&mut self, message: T) -> Result<(), Refusal> {
        self.messages.try_push(message).map_err(|_| Refusal::NoRoom)
    }

    fn look(&self, pick: u8) -> Option<T> {
        self.messages.get(K::choose(&self.messages, pick)).copied()
    }

    fn take(&mut self, pick: u8) -> Option<T> {
        let index = K::choose(&self.messages, pick);
        self.messages.pop_at(index)
    }
}
