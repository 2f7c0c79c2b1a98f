ghost use Rattle.std.specs.Prelude.{◌≡◌, IfOk, string_bytes};
ghost use Rattle.bedrock.specs.Refusals.{number};
ghost use Rattle.sheet.specs.Heads.{head_codes};
ghost use Rattle.sheet.specs.Records.{item};
ghost use Rattle.listing.specs.Lines.{head_line, record_line, refusal_line};

use crate::details::Said;
use bedrock::refusal::Refusal;
use sheet::head::{Head, HeadCodes};
use sheet::records::Record;
use std::alloc::{AllocError, Global};

// The line of a head: protocol, kinds and geometry.
pub fn head_line(heap: Global, head: &Head) -> Result<String, AllocError>
    ensures { IfOk result (λ s. string_bytes s ≡ head_line (head_codes head.now)) }
{
    let Head {
        protocol,
        channels,
        memory,
        ..
    } = head;
    let HeadCodes {
        caches,
        sets,
        ways,
        blocks,
        ..
    } = HeadCodes::from(*head);
    format!(in heap;
        "protocol {protocol} channels {channels} memory {memory} caches {caches} sets {sets} ways {ways} blocks {blocks}\n"
    )
}

// The line of a record that is refused, or, with number 0, of a head.
pub fn refusal_line(heap: Global, place: usize, why: Refusal) -> Result<String, AllocError>
    ensures { IfOk result (λ s. string_bytes s ≡ refusal_line place (number why)) }
{
    let code = why.number();
    format!(in heap; "{place} no {code} {why}\n")
}

// The line of the record that stands at this place, the first being 1.
pub fn record_line(heap: Global, place: usize, rec: &Record<'_>) -> Result<String, AllocError>
    ensures { IfOk result (λ s. string_bytes s ≡ record_line place (item rec.now)) }
{
    let said = Said(rec);
    format!(in heap; "{place}{said}\n")
}
