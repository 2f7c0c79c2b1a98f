ghost use Rattle.std.specs.Prelude.{◌≡◌, ◌+◌, ◌≤◌, true, length};
ghost use Rattle.bedrock.specs.Refusals.{outcome};
ghost use Rattle.sheet.specs.Format.{encode, size, proper};
ghost use Rattle.sheet.specs.Heads.{head_bytes};
ghost use Rattle.sheet.specs.Records.{item};
ghost use Rattle.writer.specs.RoundTrips.{InFields};
ghost use Rattle.writer.specs.Writes.{pasted, head_end, record_end};

use bedrock::refusal::Refusal;
use sheet::head::{Head, HeadCodes};
use sheet::records::Record;

// Writes `bytes` over `out` from `at` on.
#[tactic(auto, unfolding(crate::specs::Writes::pasted))]
fn paste(out: &mut [u8], at: usize, bytes: &[u8])
    requires { at + length bytes.now ≤ length out.old }
    ensures { out.new ≡ pasted out.old at bytes.now }
{
    out[at..at + bytes.len()].copy_from_slice(bytes);
}

fn record_size(rec: &Record<'_>) -> usize
    ensures { result ≡ size (item rec.now) }
{
    match rec {
        Record::Load { .. } => 5,
        Record::Store { .. } => 13,
        Record::Deliver { .. } => 3,
        Record::MemoryTurn { .. } => 2,
        Record::Content { bytes, .. } => 4 + bytes.len(),
        Record::Note { text } => 2 + text.len(),
    }
}

// A note has at most 255 bytes, a content 0 to 255 whole blocks.
fn is_proper(rec: &Record<'_>) -> bool
    ensures { result ≡ proper (item rec.now) }
{
    match rec {
        Record::Content { bytes, .. } => bytes.len() % 16 == 0 && bytes.len() / 16 < 256,
        Record::Note { text } => text.len() < 256,
        _ => true,
    }
}

// Where a head ends in a buffer of `room` bytes.
pub(crate) fn head_end(room: usize, codes: HeadCodes) -> Result<usize, Refusal>
    ensures { outcome (λ end. end) result ≡ head_end room codes }
{
    Head::try_from(codes)?;
    if room < 13 {
        return Err(Refusal::BufferTooShort);
    }
    Ok(13)
}

// Where a record that begins at `at` ends in a buffer of `room` bytes.
pub(crate) fn record_end(at: usize, room: usize, rec: &Record<'_>) -> Result<usize, Refusal>
    ensures { outcome (λ end. end) result ≡ record_end at room (item rec.now) }
{
    let end = at
        .checked_add(record_size(rec))
        .filter(|end| *end <= 32768)
        .ok_or(Refusal::SheetTooLong)?;
    if !is_proper(rec) {
        return Err(Refusal::OutOfBounds);
    }
    if end > room {
        return Err(Refusal::BufferTooShort);
    }
    Ok(end)
}

// The mark, version 1 and the codes, at the front of `out`.
pub(crate) fn write_head(out: &mut [u8], codes: HeadCodes)
    requires { 13 ≤ length out.old }
    ensures { out.new ≡ pasted out.old 0 (head_bytes codes) }
{
    let [lo, hi] = codes.blocks.to_le_bytes();
    let head = [
        b'M',
        b'O',
        b'S',
        1,
        0,
        codes.protocol,
        codes.channels,
        codes.memory,
        codes.caches,
        codes.sets,
        codes.ways,
        lo,
        hi,
    ];
    paste(out, 0, &head);
}

// The bytes of a record, from `at` on.
pub(crate) fn write_record(out: &mut [u8], at: usize, rec: &Record<'_>)
    requires rec_in_bounds { at + size (item rec.now) ≤ length out.old }
    requires rec_value { proper (item rec.now) ≡ true }
    ensures bytes { out.new ≡ pasted out.old at (encode (item rec.now)) }
    ensures fields { InFields (item rec.now) }
{
    match *rec {
        Record::Load { cache, block, word } => {
            let [lo, hi] = block.to_le_bytes();
            paste(out, at, &[b'L', cache, lo, hi, word]);
        }
        Record::Store {
            cache,
            block,
            word,
            value,
        } => {
            let [lo, hi] = block.to_le_bytes();
            paste(out, at, &[b'S', cache, lo, hi, word]);
            paste(out, at + 5, &value.to_le_bytes());
        }
        Record::Deliver { channel, pick } => {
            paste(out, at, &[b'D', channel, pick]);
        }
        Record::MemoryTurn { pick } => {
            paste(out, at, &[b'M', pick]);
        }
        Record::Content { block, bytes } => {
            let [lo, hi] = block.to_le_bytes();
            paste(out, at, &[b'C', lo, hi, (bytes.len() / 16) as u8]);
            paste(out, at + 4, bytes);
        }
        Record::Note { text } => {
            paste(out, at, &[b'N', text.len() as u8]);
            paste(out, at + 2, text);
        }
    }
}
