ghost use Rattle.std.specs.Prelude.{◌≡◌};
ghost use Rattle.machine.specs.Machines.{home};

use crate::board::Board;
use crate::shown::Shown;
use crate::state::Parts;

impl<B: Board> Parts<B> {
    // The set that a block belongs to.
    pub fn home(&self, block: u16) -> u8
        ensures { result ≡ home (⟦<Parts<B> as Shown>⟧.machine self.now) block }
    {
        self.directory.geometry.set_of(block)
    }
}
