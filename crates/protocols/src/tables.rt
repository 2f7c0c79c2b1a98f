ghost use Rattle.std.specs.Prelude.{◌≡◌};
ghost use Rattle.protocols.specs.Tables.{read_row};
ghost use Rattle.protocols.specs.Laws.{unowned_kept, handover_kept, exclusive_kept, dirty_kept};

use crate::protocol::Protocol;
use crate::protocol_kind::ProtocolKind;
use crate::row::Row;
use crate::state::State;

// The rows that occur, by owner's next and requestor's next; W where the owner writes back. In the rows of I and S there is no
// owner, and its next is I.
const I_M: Row = Row {
    owner: State::I,
    requestor: State::M,
    writeback: false,
};

const I_E: Row = Row {
    owner: State::I,
    requestor: State::E,
    writeback: false,
};

const I_S: Row = Row {
    owner: State::I,
    requestor: State::S,
    writeback: false,
};

const I_F: Row = Row {
    owner: State::I,
    requestor: State::F,
    writeback: false,
};

const O_S: Row = Row {
    owner: State::O,
    requestor: State::S,
    writeback: false,
};

const F_S: Row = Row {
    owner: State::F,
    requestor: State::S,
    writeback: false,
};

const S_S_W: Row = Row {
    owner: State::S,
    requestor: State::S,
    writeback: true,
};

const F_S_W: Row = Row {
    owner: State::F,
    requestor: State::S,
    writeback: true,
};

// One constant table for each protocol, two of them alike: a table is read beside the protocol's published one.
// The rows at I, S, E, M, O and F. At a state that a protocol never meets it has MOESIF's row.
const MI: [Row; 6] = [I_M, I_S, F_S_W, I_M, O_S, F_S];

const MSI: [Row; 6] = [I_S, I_S, F_S_W, S_S_W, O_S, F_S];

const MESI: [Row; 6] = [I_E, I_S, S_S_W, S_S_W, O_S, F_S];

const MESIF: [Row; 6] = [I_E, I_S, S_S_W, S_S_W, O_S, F_S];

const MOSI: [Row; 6] = [I_S, I_S, F_S_W, O_S, O_S, F_S];

const MOSIF: [Row; 6] = [I_F, I_S, F_S_W, O_S, O_S, F_S];

const MOESI: [Row; 6] = [I_E, I_S, S_S_W, O_S, O_S, F_S];

const MOESIF: [Row; 6] = [I_E, I_S, F_S_W, O_S, O_S, F_S];

impl Protocol for ProtocolKind {
    ghost row = { read_row };

    ghost unowned = { unowned_kept };

    ghost handover = { handover_kept };

    ghost exclusive = { exclusive_kept };

    ghost dirty = { dirty_kept };

    fn read_row(&self, state: State) -> Row {
        let rows = match *self {
            ProtocolKind::Mi => MI,
            ProtocolKind::Msi => MSI,
            ProtocolKind::Mesi => MESI,
            ProtocolKind::Mesif => MESIF,
            ProtocolKind::Mosi => MOSI,
            ProtocolKind::Mosif => MOSIF,
            ProtocolKind::Moesi => MOESI,
            ProtocolKind::Moesif => MOESIF,
        };
        rows[state as usize]
    }
}
