ghost use Rattle.machine.specs.declared.fabric_call.FabricCall.{FabricCall};
ghost use Rattle.machine.specs.Runs.{Call};
ghost use Rattle.fabric.specs.Arrivals.{call_at};
ghost use Rattle.fabric.specs.Views.{view};

use crate::state::Fabric;
use parts::board::Board;
use parts::shown::Shown;

impl<B: Board> Shown for Fabric<B> {
    ghost machine = { view B.Protocol.Protocol.row B.Requests.waiting B.Commands.waiting B.Responses.waiting B.MemoryCommands.waiting B.Memory.blocks };
}

// Which message a call lets arrive, where the channels choose.
pub trait Arriving {
    ghost arriving: { Self → FabricCall → Call };
}

impl<B: Board> Arriving for Fabric<B> {
    ghost arriving = { call_at B.Requests.chosen B.Commands.chosen B.Responses.chosen B.MemoryCommands.chosen };
}
