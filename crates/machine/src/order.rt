ghost use Rattle.std.specs.Prelude.{◌≡◌};
ghost use Rattle.machine.specs.Holdings.{block_of, word_asked, access_of, hits};

use messages::request::Access;
use protocols::state::State;

// What a core asks of its cache: the value of a word, or a new one for it.
#[derive(Clone, Copy)]
pub enum Order {
    Load { block: u16, word: u8 },
    Store { block: u16, word: u8, value: u64 },
}

impl Order {
    pub fn block(self) -> u16
        ensures { result ≡ block_of self }
    {
        match self {
            Order::Load { block, .. } | Order::Store { block, .. } => block,
        }
    }

    pub fn word(self) -> u8
        ensures { result ≡ word_asked self }
    {
        match self {
            Order::Load { word, .. } | Order::Store { word, .. } => word,
        }
    }

    // What a request for it asks: a copy for a load, the right to store for a store.
    pub fn access(self) -> Access
        ensures { result ≡ access_of self }
    {
        match self {
            Order::Load { .. } => Access::Read,
            Order::Store { .. } => Access::Write,
        }
    }

    // Whether it hits in a way that holds its block in this state.
    pub fn hits(self, state: State) -> bool
        ensures { result ≡ hits self state }
    {
        match self {
            Order::Load { .. } => state.held(),
            Order::Store { .. } => state.writable(),
        }
    }
}
