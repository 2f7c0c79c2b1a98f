ghost use Rattle.std.specs.Prelude.{◌≡◌};
ghost use Rattle.messages.specs.Messages.{command_cache, command_block, blank_command};
ghost use Rattle.messages.specs.Routes.{command_from, command_to};

use bedrock::party::{Party, Routed};
use bedrock::words::Words;
use protocols::state::State;

// What a cache is told to do, each kind with all its fields by name, as the definitions and docs/RULES.md write them. `cache`, `block` and `way` say where: the cache that gets the command, and which of its ways.
#[derive(Clone, Copy)]
pub enum Command {
    // Let go of the block; answered by an Invalidate Ack.
    Invalidate {
        cache: u8,
        block: u16,
        way: u8,
    },
    // Let go of the block; answered by a Writeback from M or O, else by a Null Writeback.
    SetStateWriteback {
        cache: u8,
        block: u16,
        way: u8,
    },
    // To the owner: send the words on to the requestor, take the owner's next state, and write back if told to.
    Transfer {
        cache: u8,
        block: u16,
        way: u8,
        requestor: u8,
        requestor_way: u8,
        owner_next: State,
        requestor_next: State,
        writeback: bool,
    },
    // To the requestor: the words of the block and the state to hold it in. The sender is the owner, or the directory where the
    // words are the memory's.
    SetTagData {
        cache: u8,
        block: u16,
        way: u8,
        next: State,
        words: Words,
        sender: Party,
    },
    // To a requestor that holds the block already: take M.
    SetStateWakeup {
        cache: u8,
        block: u16,
        way: u8,
    },
}

impl Command {
    // The cache that gets the command.
    pub fn cache(self) -> u8
        ensures { result ≡ command_cache self }
    {
        match self {
            Command::Invalidate { cache, .. }
            | Command::SetStateWriteback { cache, .. }
            | Command::Transfer { cache, .. }
            | Command::SetTagData { cache, .. }
            | Command::SetStateWakeup { cache, .. } => cache,
        }
    }

    // The block that the command is about.
    pub fn block(self) -> u16
        ensures { result ≡ command_block self }
    {
        match self {
            Command::Invalidate { block, .. }
            | Command::SetStateWriteback { block, .. }
            | Command::Transfer { block, .. }
            | Command::SetTagData { block, .. }
            | Command::SetStateWakeup { block, .. } => block,
        }
    }
}

// Fills the free room of a channel. By hand: a derive makes only a variant without fields the default.
impl Default for Command {
    ghost is_default = { λ c. c ≡ blank_command };

    fn default() -> Command {
        Command::Invalidate {
            cache: 0,
            block: 0,
            way: 0,
        }
    }
}

impl Routed for Command {
    ghost from = { command_from };

    ghost to = { command_to };

    fn sender(&self) -> Party {
        match *self {
            Command::SetTagData { sender, .. } => sender,
            _ => Party::Directory,
        }
    }

    fn receiver(&self) -> Party {
        Party::Cache(self.cache())
    }
}
