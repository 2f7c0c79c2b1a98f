ghost use Rattle.std.specs.Prelude.{◌≡◌};
ghost use Rattle.sheet.specs.Format.{front, load_in, store_in, deliver_in, turn_in, content_in, note_in};
ghost use Rattle.sheet.specs.Splits.{part, split};

use crate::records::Record;
use bedrock::refusal::Refusal;

// A record, and the bytes that follow it.
type Part<'a> = (Record<'a>, &'a [u8]);

fn load(fields: &[u8]) -> Result<Part<'_>, Refusal>
    ensures { part result ≡ load_in fields.now }
{
    let [cache, lo, hi, word, rest @ ..] = fields else {
        return Err(Refusal::CutShort);
    };
    let block = u16::from_le_bytes([*lo, *hi]);
    Ok((
        Record::Load {
            cache: *cache,
            block,
            word: *word,
        },
        rest,
    ))
}

fn store(fields: &[u8]) -> Result<Part<'_>, Refusal>
    ensures { part result ≡ store_in fields.now }
{
    let [cache, lo, hi, word, a, b, c, d, e, f, g, h, rest @ ..] = fields else {
        return Err(Refusal::CutShort);
    };
    let block = u16::from_le_bytes([*lo, *hi]);
    let value = u64::from_le_bytes([*a, *b, *c, *d, *e, *f, *g, *h]);
    Ok((
        Record::Store {
            cache: *cache,
            block,
            word: *word,
            value,
        },
        rest,
    ))
}

fn deliver(fields: &[u8]) -> Result<Part<'_>, Refusal>
    ensures { part result ≡ deliver_in fields.now }
{
    let [channel, pick, rest @ ..] = fields else {
        return Err(Refusal::CutShort);
    };
    Ok((
        Record::Deliver {
            channel: *channel,
            pick: *pick,
        },
        rest,
    ))
}

fn memory_turn(fields: &[u8]) -> Result<Part<'_>, Refusal>
    ensures { part result ≡ turn_in fields.now }
{
    let [pick, rest @ ..] = fields else {
        return Err(Refusal::CutShort);
    };
    Ok((Record::MemoryTurn { pick: *pick }, rest))
}

fn content(fields: &[u8]) -> Result<Part<'_>, Refusal>
    ensures { part result ≡ content_in fields.now }
{
    let [lo, hi, count, rest @ ..] = fields else {
        return Err(Refusal::CutShort);
    };
    let size = 16 * usize::from(*count);
    let (bytes, rest) = rest.split_at_checked(size).ok_or(Refusal::CutShort)?;
    let block = u16::from_le_bytes([*lo, *hi]);
    Ok((Record::Content { block, bytes }, rest))
}

fn note(fields: &[u8]) -> Result<Part<'_>, Refusal>
    ensures { part result ≡ note_in fields.now }
{
    let [len, rest @ ..] = fields else {
        return Err(Refusal::CutShort);
    };
    let (text, rest) = rest
        .split_at_checked(usize::from(*len))
        .ok_or(Refusal::CutShort)?;
    Ok((Record::Note { text }, rest))
}

// The record at the front of `bytes`, with what follows it, or none where the sheet ends.
// The letter says how many bytes belong to it.
#[tactic(auto, unfolding(crate::specs::Format::front))]
pub(crate) fn split_record(bytes: &[u8]) -> Result<Option<Part<'_>>, Refusal>
    ensures { split result ≡ front bytes.now }
{
    match bytes {
        [] => Ok(None),
        [b'L', fields @ ..] => Ok(Some(load(fields)?)),
        [b'S', fields @ ..] => Ok(Some(store(fields)?)),
        [b'D', fields @ ..] => Ok(Some(deliver(fields)?)),
        [b'M', fields @ ..] => Ok(Some(memory_turn(fields)?)),
        [b'C', fields @ ..] => Ok(Some(content(fields)?)),
        [b'N', fields @ ..] => Ok(Some(note(fields)?)),
        [_, ..] => Err(Refusal::UnknownLetter),
    }
}
