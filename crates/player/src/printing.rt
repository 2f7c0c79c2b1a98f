ghost use Rattle.std.specs.Prelude.{◌≡◌, ◌≤◌, true, map, length, drop, IfOk};
ghost use Rattle.std.specs.Slice.Iter.{iter_rest};
ghost use Rattle.machine.specs.Outcomes.{said};
ghost use Rattle.sheet.specs.Records.{item};
ghost use Rattle.sheet.specs.Readings.{reading};
ghost use Rattle.sheet.specs.Reads.{left};
ghost use Rattle.player.specs.Calls.{call_count};
ghost use Rattle.player.specs.Lines.{call_line, reading_lines, record_line};

use crate::calls::call_in;
use crate::lines::{answer_line, content_answer, note_line, refusal_line};
use bedrock::refusal::Refusal;
use machine::answer::Answer;
use sheet::reader::Reader;
use sheet::records::Record;
use std::alloc::{AllocError, Global};
use std::slice::Iter;

// The line of a call, which has the next answer. There is an answer for every call; past them nothing is printed.
fn call_line(
    heap: Global,
    place: usize,
    answers: &mut Iter<'_, Result<Answer, Refusal>>,
) -> Result<Vec<u8>, AllocError>
    ensures line { IfOk result (λ v. v.items ≡ call_line place (map said (iter_rest answers.old))) }
    ensures taken { iter_rest answers.new ≡ drop 1 (iter_rest answers.old) }
{
    match answers.next() {
        Some(answer) => answer_line(heap, place, *answer),
        None => Ok(Vec::new(heap)),
    }
}

// The line of a record; `early` says that no call came before it.
fn record_line(
    heap: Global,
    blocks: u16,
    place: usize,
    early: bool,
    answers: &mut Iter<'_, Result<Answer, Refusal>>,
    rec: &Record<'_>,
) -> Result<Vec<u8>, AllocError>
    ensures line { IfOk result (λ v. v.items ≡ record_line blocks place early (map said (iter_rest answers.old)) (item rec.now)) }
    ensures taken { iter_rest answers.new ≡ drop (call_count (item rec.now)) (iter_rest answers.old) }
{
    match rec {
        Record::Content { block, bytes } => {
            let answer = content_answer(blocks, early, *block, bytes);
            answer_line(heap, place, answer)
        }
        Record::Note { text } => note_line(heap, place, text),
        _ => call_line(heap, place, answers),
    }
}

// The lines of all records that are left, numbered from 1. Each call has the next of the answers. The listing has a loop of this form: the lines
// are all that a shared one would leave to a closure, and these need the answers too.
pub(crate) fn record_lines(
    heap: Global,
    reader: &mut Reader<'_>,
    blocks: u16,
    answers: &[Result<Answer, Refusal>],
) -> Result<Vec<u8>, AllocError>
    requires { length (left reader.old) ≤ 32768 }
    ensures { IfOk result (λ v. v.items ≡ reading_lines blocks 1 true (reading (left reader.old)) (map said answers.now)) }
{
    let mut out = Vec::new(heap);
    let mut early = true;
    let mut answers = answers.iter();
    for place in 1.. {
        match reader.next_record() {
            Ok(Some(rec)) => {
                let line = record_line(heap, blocks, place, early, &mut answers, &rec)?;
                out.extend_from_slice(&line)?;
                early &= call_in(&rec).is_none();
            }
            Ok(None) => break,
            Err(why) => {
                let line = refusal_line(heap, place, why)?;
                out.extend_from_slice(&line)?;
                break;
            }
        }
    }
    Ok(out)
}
