ghost use Rattle.std.specs.Prelude.{◌≡◌};
ghost use Rattle.protocols.specs.Rows.{write_row};

use crate::state::State;

// What a request for a block does where the directory shows the block in some state: the owner's next state, the requestor's
// next state, and whether the owner writes back. Where there is no owner its next is I, and nothing is written back.
#[derive(Clone, Copy)]
pub struct Row {
    pub owner: State,
    pub requestor: State,
    pub writeback: bool,
}

impl Row {
    // The row of a Write, from every state and under every protocol.
    pub fn of_write() -> Row
        ensures { result ≡ write_row }
    {
        Row {
            owner: State::I,
            requestor: State::M,
            writeback: false,
        }
    }
}
