use crate::board::Board;
use directory::state::Directory;
use machine::holding::Way;
use machine::order::Order;
use machine::transaction::Transaction;
use tables::by_set_cache::BySetCache;
use tables::by_way::ByWay;
use tables::column::{ByCache, BySet};

// What a fabric is made of: a table for each of the machine's, so that a step that changes one leaves the others.
#[derive(Drop)]
pub struct Parts<B: Board> {
    pub directory: Directory,
    pub protocol: B::Protocol,
    pub ways: ByWay<Way>,
    pub kept: ByCache<Option<Order>>,
    pub turns: BySetCache<u8>,
    pub serving: BySet<Option<Transaction>>,
    pub counts: BySet<u16>,
    pub memory: B::Memory,
    pub requests: B::Requests,
    pub commands: B::Commands,
    pub responses: B::Responses,
    pub memory_commands: B::MemoryCommands,
}
