ghost use Rattle.std.specs.Prelude.{◌≡◌, ℕ, ◌+◌, ◌<◌, ◌≤◌, length, slice_index};
ghost use Rattle.memory.specs.Blocks.{word_at, start_of, image_blocks};
ghost use Rattle.memory.specs.Beyond.{image_beyond};

use crate::Memory;
use bedrock::words::Words;

// A memory as an image of 16,384 bytes. Each word takes eight bytes, low byte first.
//
// Word by word, by hand: chunks and one copy of a block prove too, but an edit of them that moves one byte of a word, or writes one word
// into another block, is refused for its form and not for what it does.
#[derive(Drop)]
pub struct ByteImage {
    bytes: [u8; 16384],
    ghost sized: { length bytes ≡ 16384 },
}

// The byte at which a word of a block starts.
fn start(block: u16, word: u8) -> usize
    ensures { result ≡ start_of block word }
{
    16 * block as usize + 8 * word as usize
}

impl ByteImage {
    // The word that starts at a byte.
    fn word(&self, at: usize) -> u64
        requires { at + 8 ≤ 16384 }
        ensures { result ≡ word_at self.now.bytes at }
    {
        u64::from_le_bytes([
            self.bytes[at],
            self.bytes[at + 1],
            self.bytes[at + 2],
            self.bytes[at + 3],
            self.bytes[at + 4],
            self.bytes[at + 5],
            self.bytes[at + 6],
            self.bytes[at + 7],
        ])
    }

    // Writes a word from a byte on; the bytes before and after it stay.
    fn put(&mut self, at: usize, value: u64)
        requires { at + 8 ≤ 16384 }
        ensures here { word_at self.new.bytes at ≡ value }
        ensures below { (k : ℕ) → k < at → slice_index self.new.bytes k ≡ slice_index self.old.bytes k }
        ensures above { (k : ℕ) → at + 8 ≤ k → slice_index self.new.bytes k ≡ slice_index self.old.bytes k }
    {
        self.bytes[at..at + 8].copy_from_slice(&value.to_le_bytes());
    }
}

impl Memory for ByteImage {
    ghost blocks = { λ m. image_blocks m.bytes };

    ghost beyond = { λ m b le. image_beyond m.bytes m.sized b le };

    fn new() -> ByteImage {
        ByteImage { bytes: [0; 16384] }
    }

    fn read(&self, block: u16) -> Words {
        if block < 1024 {
            return Words {
                first: self.word(start(block, 0)),
                second: self.word(start(block, 1)),
            };
        }
        Words::default()
    }

    fn write(&mut self, block: u16, words: Words) {
        // By hand: of an array after `get_mut` no element is known, so the proof does not close.
        if block < 1024 {
            self.put(start(block, 0), words.first);
            self.put(start(block, 1), words.second);
        }
    }
}

#[cfg(test)]
mod tests {
    use super::*;

    #[test]
    fn a_word_starts_with_its_low_byte(rt: HostRuntime) {
        let mut memory: ByteImage = Memory::new();
        memory.write(
            3,
            Words {
                first: 0x0102_0304_0506_0708,
                second: 9,
            },
        );
        let (before, low, high) = (memory.bytes[47], memory.bytes[48], memory.bytes[55]);
        let (next, last) = (memory.bytes[56], memory.bytes[57]);
        assert_eq!(rt; before, 0);
        assert_eq!(rt; low, 8);
        assert_eq!(rt; high, 1);
        assert_eq!(rt; next, 9);
        assert_eq!(rt; last, 0);
    }
}
