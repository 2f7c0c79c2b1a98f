ghost use Rattle.std.specs.Prelude.{◌≡◌, IfOk};
ghost use Rattle.sheet.specs.Heads.{head_codes};
ghost use Rattle.machine.specs.Picking.{Picks};
ghost use Rattle.player.specs.Plays.{picks_of, lines_by, reading_of, playing_of};
ghost use Rattle.player.specs.PickedAs.{PickedAs};
ghost use Rattle.player.specs.Coherently.{PlayedCoherently};

use crate::calls::load_records;
use crate::coherence::played_coherently;
use crate::lines::refusal_line;
use crate::printing::record_lines;
use memory::Memory;
use memory::byte_image::ByteImage;
use memory::word_table::WordTable;
use parts::board::{Board, Uniform};
use protocols::protocol_kind::ProtocolKind;
use runs::run::run;
use sheet::head::Head;
use sheet::kinds::{ChannelKind, MemoryKind};
use sheet::sheets::{CheckedSheet, UncheckedSheet};
use std::alloc::{AllocError, Global};
use wires::channel::Channel;
use wires::paired::OldestOfPair;
use wires::single_file::Oldest;
use wires::unordered::ByNumber;

// The lines of a sheet whose head is good, played over channels and a memory of these kinds: the records are read once to make the
// run, and once more to print what each gave.
fn play_on<B: Board<Protocol = ProtocolKind>>(
    heap: Global,
    head: &Head,
    sheet: &CheckedSheet,
) -> Result<Vec<u8>, AllocError>
where
    B::Requests: Drop,
    B::Commands: Drop,
    B::Responses: Drop,
    B::MemoryCommands: Drop,
    B::Memory: Drop,
    ensures { IfOk result (λ v. (k : Picks) → PickedAs k (record { waiting = B.Requests.waiting; chosen = B.Requests.chosen }) (record { waiting = B.Commands.waiting; chosen = B.Commands.chosen }) (record { waiting = B.Responses.waiting; chosen = B.Responses.chosen }) (record { waiting = B.MemoryCommands.waiting; chosen = B.MemoryCommands.chosen }) → v.items ≡ lines_by k (head_codes head.now) (reading_of sheet.now.bytes.items)) }
{
    let blocks = head.geometry.blocks();
    let mut memory = B::Memory::new();
    let mut reader = sheet.records();
    let calls = load_records(heap, &mut reader, blocks, &mut memory)?;
    let done = run::<B>(heap, head.geometry, head.protocol, memory, calls.as_slice())?;
    let mut again = sheet.records();
    record_lines(heap, &mut again, blocks, done.answers.as_slice())
}

// The same over the kind of channels that the head names: a kind chooses types, so that each has its arm.
fn play_over<M: Memory + Drop>(
    heap: Global,
    head: &Head,
    sheet: &CheckedSheet,
) -> Result<Vec<u8>, AllocError>
    ensures { IfOk result (λ v. v.items ≡ lines_by (picks_of (head_codes head.now).channels) (head_codes head.now) (reading_of sheet.now.bytes.items)) }
{
    match head.channels {
        ChannelKind::Unordered => play_on::<Uniform<ProtocolKind, ByNumber, M>>(heap, head, sheet),
        ChannelKind::Paired => play_on::<Uniform<ProtocolKind, OldestOfPair, M>>(heap, head, sheet),
        ChannelKind::SingleFile => play_on::<Uniform<ProtocolKind, Oldest, M>>(heap, head, sheet),
    }
}

// The lines of a sheet whose head is good.
fn play_checked(heap: Global, sheet: &CheckedSheet) -> Result<Vec<u8>, AllocError>
    ensures { IfOk result (λ v. v.items ≡ playing_of sheet.now.bytes.items) }
{
    let head = sheet.head();
    match head.memory {
        MemoryKind::Words => play_over::<WordTable>(heap, &head, sheet),
        MemoryKind::Image => play_over::<ByteImage>(heap, &head, sheet),
    }
}

// Plays a sheet: the lines that are printed. The run that it makes is coherent, and its answers are those of the lines.
pub fn play_sheet(heap: Global, sheet: UncheckedSheet) -> Result<Vec<u8>, AllocError>
    ensures lines { IfOk result (λ v. v.items ≡ playing_of sheet.bytes.items) }
    ensures coherent { PlayedCoherently sheet.bytes.items }
{
    played_coherently();
    match sheet.check() {
        Ok(good) => play_checked(heap, &good),
        Err((_, why)) => refusal_line(heap, 0, why),
    }
}
