ghost use Rattle.machine.specs.Machines.{Machine};
ghost use Rattle.parts.specs.Views.{view};

use crate::board::Board;
use crate::state::Parts;

// What the state of a fabric is to the machine.
pub trait Shown {
    ghost machine: { Self → Machine };
}

impl<B: Board> Shown for Parts<B> {
    ghost machine = { view B.Protocol.Protocol.row B.Requests.waiting B.Commands.waiting B.Responses.waiting B.MemoryCommands.waiting B.Memory.blocks };
}
