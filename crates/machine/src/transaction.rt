use messages::request::Access;
use protocols::state::State;

// Where the words that a requestor waits for come from.
#[derive(Clone, Copy)]
pub enum Source {
    // No cache owns the block: the memory has the words.
    Memory,
    // The requestor holds the block, and only gets the right to store.
    OwnCopy,
    // Another cache owns the block: its number and way, the state that the directory showed, its next state, and whether it
    // writes back.
    Owner {
        cache: u8,
        way: u8,
        shown: State,
        next: State,
        writeback: bool,
    },
}

// What accepting a request decided, kept until the set's count is 0 again: each field by the name that the definitions give it, the four of a
// `Request` among them.
#[derive(Clone, Copy)]
pub struct Job {
    pub access: Access,
    pub requestor: u8,
    pub block: u16,
    pub way: u8,
    pub next: State,
    pub upgrade: bool,
    pub source: Source,
}

// Round one lasts until its answers are in: `left` are still awaited. Round two brings the words.
#[derive(Clone, Copy)]
pub enum Round {
    One { left: u8 },
    Two,
}

// The transaction of a set: at most one at a time.
#[derive(Clone, Copy)]
pub struct Transaction {
    pub job: Job,
    pub round: Round,
}
