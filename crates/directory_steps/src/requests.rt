ghost use Rattle.std.specs.Prelude.{◌≡◌, ◌+◌, ◌≤◌, not, [], ◌++◌, length, if◌then◌else◌, nat_le};
ghost use Rattle.machine.specs.Acceptance.{record_job, from_memory, accept as accept_step, deliver_request};
ghost use Rattle.machine.specs.Outcomes.{answered};

use crate::round_two::{begin_two, from_memory};
use bedrock::refusal::Refusal;
use directory::batch::Batch;
use machine::answer::Answer;
use machine::transaction::{Job, Round, Source, Transaction};
use messages::command::Command;
use messages::request::Request;
use parts::board::Board;
use parts::shown::Shown;
use parts::state::Parts;
use wires::channel::Channel;

// That a channel has room is a `requires` of each step, and no invariant: it holds at that moment alone. Each names its own channel and number.

// Sends the commands of a batch, in their order.
fn send_all<C: Channel<Command>>(channel: &mut C, batch: &Batch)
    requires { length (C.waiting channel.old) + length batch.now.items ≤ 128 }
    ensures { C.waiting channel.new ≡ C.waiting channel.old ++ batch.now.items }
{
    for command in batch.as_slice() {
        let _ = channel.add(*command);
    }
}

// The directory keeps what was decided, with the final entries, and awaits the answers of round one and the Coherence Ack.
fn record_job<B: Board>(parts: &mut Parts<B>, job: Job, left: u8)
    ensures { ⟦<Parts<B> as Shown>⟧.machine parts.new ≡ record_job (⟦<Parts<B> as Shown>⟧.machine parts.old) job left }
{
    let set = parts.home(job.block);
    let round = Round::One { left };
    parts.directory.settle(job);
    parts.serving.put(set, Some(Transaction { job, round }));
    parts.counts.put(set, 1 + left as u16);
}

// Whether what round two sends has room.
fn has_room_for_two<B: Board>(parts: &Parts<B>, source: Source) -> bool
    ensures { not result ≡ (if from_memory source then nat_le 128 (length (B.MemoryCommands.waiting parts.now.memory_commands)) else nat_le 128 (length (B.Commands.waiting parts.now.commands))) }
{
    if from_memory(source) {
        return parts.memory_commands.len() < 128;
    }
    parts.commands.len() < 128
}

// Nothing has to be emptied first: round two begins at once.
fn accept_at_once<B: Board>(
    parts: &mut Parts<B>,
    pick: u8,
    request: Request,
    job: Job,
) -> Result<Answer, Refusal>
    ensures { answered result (⟦<Parts<B> as Shown>⟧.machine parts.new) ≡ accept_step (⟦<Parts<B> as Shown>⟧.machine parts.old) (B.Requests.chosen parts.old.requests pick) request job [] }
{
    if !has_room_for_two(parts, job.source) {
        return Err(Refusal::NoRoom);
    }
    let _ = parts.requests.take(pick);
    record_job(parts, job, 0);
    begin_two(parts, job);
    Ok(Answer::MovedOn)
}

// The request that the pick shows is accepted with the job and the first round that were decided.
fn accept<B: Board>(
    parts: &mut Parts<B>,
    pick: u8,
    request: Request,
    job: Job,
    first: &Batch,
) -> Result<Answer, Refusal>
    ensures { answered result (⟦<Parts<B> as Shown>⟧.machine parts.new) ≡ accept_step (⟦<Parts<B> as Shown>⟧.machine parts.old) (B.Requests.chosen parts.old.requests pick) request job first.now.items }
{
    let left = first.len();
    if left == 0 {
        return accept_at_once(parts, pick, request, job);
    }
    if parts.commands.len() + left > 128 {
        return Err(Refusal::NoRoom);
    }
    let _ = parts.requests.take(pick);
    record_job(parts, job, left as u8);
    send_all(&mut parts.commands, first);
    Ok(Answer::MovedOn)
}

// The request that the pick shows arrives at the directory.
pub fn deliver_request<B: Board>(parts: &mut Parts<B>, pick: u8) -> Result<Answer, Refusal>
    ensures { answered result (⟦<Parts<B> as Shown>⟧.machine parts.new) ≡ deliver_request (⟦<Parts<B> as Shown>⟧.machine parts.old) (B.Requests.chosen parts.old.requests pick) }
{
    let request = parts.requests.look(pick).ok_or(Refusal::ChannelEmpty)?;
    let set = parts.home(request.block);
    if parts.counts.get(set) != 0 {
        return Err(Refusal::SetBusy);
    }
    let job = parts.directory.job_for(&parts.protocol, request);
    let first = parts.directory.first_round(request);
    accept(parts, pick, request, job, &first)
}
