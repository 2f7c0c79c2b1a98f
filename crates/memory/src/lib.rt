// The memory of the fabric: what a memory is, and two kinds of it.
#![tactic(auto)]

ghost use Rattle.std.specs.Prelude.{◌≡◌, ℕ, ◌≤◌};
ghost use Rattle.bedrock.specs.declared.words.Words.{Words};
ghost use Rattle.bedrock.specs.BlockWords.{no_words};
ghost use Rattle.memory.specs.Blocks.{empty_blocks, written};

use bedrock::words::Words;

pub mod byte_image;
#[cfg(test)]
mod tests;
pub mod word_table;

// A memory holds two words for each of the blocks 0 to 1,023.
pub trait Memory: Sized {
    // The words of each block.
    ghost blocks: { Self → ℕ → Words };

    // A memory of zeros.
    fn new() -> Self
        ensures { blocks result ≡ empty_blocks };

    // The words of a block.
    fn read(&self, block: u16) -> Words
        ensures { result ≡ blocks self.now block };

    // Replaces the words of a block and of no other. Past block 1,023 it changes nothing.
    fn write(&mut self, block: u16, words: Words)
        ensures { blocks self.new ≡ written (blocks self.old) block words };

    // Higher blocks show zeros.
    ghost beyond: { (m : Self) (b : ℕ) → 1024 ≤ b → blocks m b ≡ no_words };
}
