ghost use Rattle.std.specs.Prelude.{◌≡◌, length};
ghost use Rattle.memory.specs.Blocks.{table_blocks};
ghost use Rattle.memory.specs.Beyond.{table_beyond};

use crate::Memory;
use bedrock::words::Words;

// A memory as a table of words.
#[derive(Drop)]
pub struct WordTable {
    rows: [Words; 1024],
    ghost sized: { length rows ≡ 1024 },
}

impl Memory for WordTable {
    ghost blocks = { λ m. table_blocks m.rows };

    ghost beyond = { λ m b le. table_beyond m.rows m.sized b le };

    fn new() -> WordTable {
        WordTable {
            rows: [Words::default(); 1024],
        }
    }

    fn read(&self, block: u16) -> Words {
        self.rows.get(block as usize).copied().unwrap_or_default()
    }

    fn write(&mut self, block: u16, words: Words) {
        // By hand: of an array after `get_mut` no element is known, so the proof does not close.
        if block < 1024 {
            self.rows[block as usize] = words;
        }
    }
}
