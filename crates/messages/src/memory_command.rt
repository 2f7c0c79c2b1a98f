ghost use Rattle.std.specs.Prelude.{◌≡◌};
ghost use Rattle.messages.specs.Messages.{memory_command_block, blank_memory_command};
ghost use Rattle.messages.specs.Routes.{memory_command_from, memory_command_to};

use bedrock::party::{Party, Routed};
use bedrock::words::Words;
use protocols::state::State;

// What the directory asks of the memory.
#[derive(Clone, Copy)]
pub enum MemoryCommand {
    // The words of the block, for the requestor's way, which is to hold it in the next state.
    Read {
        block: u16,
        requestor: u8,
        way: u8,
        next: State,
    },
    // New words for the block.
    Write {
        block: u16,
        words: Words,
    },
}

impl MemoryCommand {
    // The block that is read or written.
    pub fn block(self) -> u16
        ensures { result ≡ memory_command_block self }
    {
        match self {
            MemoryCommand::Read { block, .. } | MemoryCommand::Write { block, .. } => block,
        }
    }
}

// Fills the free room of a channel. By hand: a derive makes only a variant without fields the default.
impl Default for MemoryCommand {
    ghost is_default = { λ m. m ≡ blank_memory_command };

    fn default() -> MemoryCommand {
        MemoryCommand::Read {
            block: 0,
            requestor: 0,
            way: 0,
            next: State::I,
        }
    }
}

impl Routed for MemoryCommand {
    ghost from = { memory_command_from };

    ghost to = { memory_command_to };

    fn sender(&self) -> Party {
        Party::Directory
    }

    fn receiver(&self) -> Party {
        Party::Memory
    }
}
