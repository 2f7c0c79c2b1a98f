ghost use Rattle.std.specs.Prelude.{◌≡◌, ◌+◌, ◌/◌, ◌≤◌, length};
ghost use Rattle.sheet.specs.Records.{item};
ghost use Rattle.player.specs.Contents.{after_record, filled, fits as fits_in};

use bedrock::words::Words;
use memory::Memory;
use sheet::records::Record;

// Whether a content lies within the blocks: its first block exists, even where it has none, and so does its last.
pub(crate) fn fits(blocks: u16, block: u16, bytes: &[u8]) -> bool
    ensures { result ≡ fits_in blocks block bytes.now }
{
    block < blocks && block as usize + bytes.len() / 16 <= blocks as usize
}

// Writes the blocks of a content, which do not run past the last number that a block can have.
fn fill_blocks<M: Memory>(memory: &mut M, block: u16, bytes: &[u8])
    requires { block + length bytes.now / 16 ≤ 65535 }
    ensures { M.Memory.blocks memory.new ≡ filled (M.Memory.blocks memory.old) block bytes.now }
{
    let (chunks, _) = bytes.as_chunks::<16>();
    for (i, chunk) in chunks.iter().enumerate() {
        let words = Words::from_le_bytes(*chunk);
        memory.write(block + i as u16, words);
    }
}

// What one record leaves in the memory: a content that fits is taken where no call came before it; any other changes nothing.
pub(crate) fn take_record<M: Memory>(memory: &mut M, blocks: u16, early: bool, rec: &Record<'_>)
    ensures { M.Memory.blocks memory.new ≡ after_record blocks early (M.Memory.blocks memory.old) (item rec.now) }
{
    if let Record::Content { block, bytes } = rec
        && early
        && fits(blocks, *block, bytes)
    {
        fill_blocks(memory, *block, bytes);
    }
}
