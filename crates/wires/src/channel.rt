ghost use Rattle.std.specs.Prelude.{◌≡◌, ℕ, ◌<◌, ◌≤◌, false, List, [], length};
ghost use Rattle.std.specs.List.{slice_get};
ghost use Rattle.bedrock.specs.Refusals.{outcome};
ghost use Rattle.wires.specs.Waiting.{has_room, judged_add, added, without};

use bedrock::refusal::Refusal;

// A channel holds the messages that wait on it, at most 128.
//
// Which of them a pick shows is the channel's own choice, and may depend on all that the channel is, not on the list alone. It
// stays the same until the list changes: looking and telling the length only read, and a refused add and a take that
// finds nothing leave the whole channel as it was.
pub trait Channel<T>: Sized {
    // The messages that wait, oldest first.
    ghost waiting: { Self → List T };

    // The index of the waiting message that a pick shows, the oldest being 0.
    ghost chosen: { Self → ℕ → ℕ };

    // A channel on which none waits.
    fn new() -> Self
        ensures { waiting result ≡ [] };

    // How many wait.
    fn len(&self) -> usize
        ensures value { result ≡ length (waiting self.now) }
        ensures few { length (waiting self.now) ≤ 128 };

    // Puts a message last. It is refused exactly when 128 wait.
    fn add(&mut self, message: T) -> Result<(), Refusal>
        ensures value { outcome (λ u. u) result ≡ judged_add (waiting self.old) }
        ensures after { waiting self.new ≡ added (waiting self.old) message }
        ensures kept { has_room (waiting self.old) ≡ false → self.new ≡ self.old };

    // The waiting message that the pick shows, or none where none waits.
    fn look(&self, pick: u8) -> Option<T>
        ensures value { result ≡ slice_get (waiting self.now) (chosen self.now pick) }
        ensures within { 0 < length (waiting self.now) → chosen self.now pick < length (waiting self.now) };

    // Removes the message that looking with this pick shows; the rest keep their order.
    fn take(&mut self, pick: u8) -> Option<T>
        ensures value { result ≡ slice_get (waiting self.old) (chosen self.old pick) }
        ensures after { waiting self.new ≡ without (waiting self.old) (chosen self.old pick) }
        ensures kept { waiting self.old ≡ [] → self.new ≡ self.old };
}
