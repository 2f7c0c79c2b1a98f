ghost use Rattle.std.specs.Prelude.{◌≡◌, ◌-◌, length, if◌then◌else◌};
ghost use Rattle.wires.specs.Lines.{waits};

use crate::channel::Channel;
use arrayvec::ArrayVec;
use bedrock::refusal::Refusal;

// A channel of another make, which remembers something besides the list: it shows the oldest message and the newest
// in turn, changing over with each message taken.
#[derive(Drop)]
pub struct Alternating<T> {
    messages: ArrayVec<T, 128>,
    newest: bool,
}

impl<T: Copy> Alternating<T> {
    fn index(&self) -> usize
        ensures { result ≡ (if self.now.newest then length (waits self.now.messages) - 1 else 0) }
    {
        if self.newest {
            self.messages.len().saturating_sub(1)
        } else {
            0
        }
    }
}

impl<T: Copy + Default> Channel<T> for Alternating<T> {
    ghost waiting = { λ c. waits c.messages };

    ghost chosen = { λ c _. (if c.newest then length (waits c.messages) - 1 else 0) };

    fn new() -> Alternating<T> {
        Alternating {
            messages: ArrayVec::new(),
            newest: false,
        }
    }

    fn len(&self) -> usize {
        self.messages.len()
    }

    fn add(&mut self, message: T) -> Result<(), Refusal> {
        self.messages.try_push(message).map_err(|_| Refusal::NoRoom)
    }

    fn look(&self, _pick: u8) -> Option<T> {
        self.messages.get(self.index()).copied()
    }

    fn take(&mut self, _pick: u8) -> Option<T> {
        let index = self.index();
        let message = self.messages.pop_at(index);
        if message.is_some() {
            self.newest = !self.newest;
        }
        message
    }
}
