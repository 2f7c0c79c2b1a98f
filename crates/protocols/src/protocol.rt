ghost use Rattle.std.specs.Prelude.{◌≡◌, true};
ghost use Rattle.protocols.specs.declared.state.State.{State};
ghost use Rattle.protocols.specs.declared.row.Row.{Row};
ghost use Rattle.protocols.specs.Rows.{unowned_law, handover_law, exclusive_law, dirty_law};

use crate::row::Row;
use crate::state::State;

// What a read does, for each state in which the directory shows a block. Four laws of each row are what coherence needs of a
// protocol; nothing else about it is assumed.
pub trait Protocol {
    // The row of a read.
    ghost row: { Self → State → Row };

    // The row of a read of a block that the directory shows in this state.
    fn read_row(&self, state: State) -> Row
        ensures { result ≡ row self.now state };

    // From I or S the requestor gets S or F; from I it may also get E or M.
    ghost unowned: { (p : Self) (s : State) → unowned_law s (row p s) ≡ true };

    // From E, M, O or F the owner's next is I, S, O or F, and the requestor's is not I. At most one of the two lies outside I and S.
    ghost handover: { (p : Self) (s : State) → handover_law s (row p s) ≡ true };

    // Such a requestor gets E or M only if the old state was E or M and the owner's next is I.
    ghost exclusive: { (p : Self) (s : State) → exclusive_law s (row p s) ≡ true };

    // From E, M or O without write back, the owner's next is O, or the requestor's is O or M.
    ghost dirty: { (p : Self) (s : State) → dirty_law s (row p s) ≡ true };
}
