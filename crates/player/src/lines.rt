ghost use Rattle.std.specs.Prelude.{◌≡◌, IfOk, Some};
ghost use Rattle.bedrock.specs.Refusals.{number};
ghost use Rattle.machine.specs.Outcomes.{said};
ghost use Rattle.player.specs.Lines.{content_says, line as line_of, note_text, refusal_line, say_text};

use crate::contents::fits;
use bedrock::refusal::Refusal;
use machine::answer::Answer;
use std::alloc::{AllocError, Global};
use std::fmt;

// What a call answered, in words.
#[derive(Clone, Copy)]
struct Said(Result<Answer, Refusal>);

impl fmt::Display for Said {
    ghost output = { λ s. Some (say_text (said s.0)) };

    fn fmt<W: fmt::Write>(&self, f: &mut fmt::Formatter<W>) -> fmt::Result {
        match self.0 {
            Ok(Answer::MovedOn) => f.write_str("ok"),
            Ok(Answer::Loaded { cache, value }) => write!(f, "load {cache} {value}"),
            Ok(Answer::Stored { cache, value }) => write!(f, "store {cache} {value}"),
            Err(why) => {
                let code = why.number();
                write!(f, "no {code}")
            }
        }
    }
}

// The line of a call: the number of its record, a space, and what it answered.
pub(crate) fn answer_line(
    heap: Global,
    place: usize,
    answer: Result<Answer, Refusal>,
) -> Result<Vec<u8>, AllocError>
    ensures { IfOk result (λ v. v.items ≡ line_of place (say_text (said answer))) }
{
    let said = Said(answer);
    let line = format!(in heap; "{place} {said}\n")?;
    Ok(line.into_bytes())
}

// The line of a record that is refused, or, with number 0, of a head.
pub(crate) fn refusal_line(heap: Global, place: usize, why: Refusal) -> Result<Vec<u8>, AllocError>
    ensures { IfOk result (λ v. v.items ≡ refusal_line place (number why)) }
{
    answer_line(heap, place, Err(why))
}

// The line of a note: its bytes as they are, which may be no text.
pub(crate) fn note_line(heap: Global, place: usize, text: &[u8]) -> Result<Vec<u8>, AllocError>
    ensures { IfOk result (λ v. v.items ≡ line_of place (note_text text.now)) }
{
    let mut line = format!(in heap; "{place} note ")?.into_bytes();
    line.extend_from_slice(text)?;
    line.push(b'\n')?;
    Ok(line)
}

// Whether a content is taken; `early` says that no call came before it.
pub(crate) fn content_answer(
    blocks: u16,
    early: bool,
    block: u16,
    bytes: &[u8],
) -> Result<Answer, Refusal>
    ensures { said result ≡ content_says blocks early block bytes.now }
{
    if !fits(blocks, block, bytes) {
        return Err(Refusal::NoSuchBlock);
    }
    if !early {
        return Err(Refusal::LateContent);
    }
    Ok(Answer::MovedOn)
}
