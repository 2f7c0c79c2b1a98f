ghost use Rattle.std.specs.Prelude.{◌≡◌, ◌+◌, ◌<◌, ◌≤◌, not, ◌||◌, length, Some, nat_lt};
ghost use Rattle.messages.specs.declared.response.Response.TheVariants.{Writeback};
ghost use Rattle.machine.specs.declared.transaction.Round.TheVariants.{One};
ghost use Rattle.machine.specs.Responses.{pass_on, writes_on, advance as advance_step, starts, memory_reads, commands_sent, deliver_response};
ghost use Rattle.machine.specs.Outcomes.{answered};

use crate::counts::{close, count_down, count_up};
use crate::round_two::{begin_two, from_memory};
use bedrock::refusal::Refusal;
use bedrock::words::Words;
use machine::answer::Answer;
use machine::transaction::{Job, Round, Source, Transaction};
use messages::memory_command::MemoryCommand;
use messages::response::Response;
use parts::board::Board;
use parts::shown::Shown;
use parts::state::Parts;
use wires::channel::Channel;

// How many memory writes a response makes the directory send.
fn writes_on(response: Response) -> usize
    ensures { result ≡ writes_on response }
{
    matches!(response, Response::Writeback { .. }) as usize
}

// The source that the next answer would start to fetch from, if it starts round two.
fn starting(serving: Option<Transaction>) -> Option<Source>
    ensures { result ≡ starts serving }
{
    match serving {
        Some(
            Transaction {
                job,
                round: Round::One { left: 1 },
            },
        ) => Some(job.source),
        _ => None,
    }
}

// How many memory reads that sends. It and the next are one line each, as the definitions have them.
fn memory_reads(start: Option<Source>) -> usize
    ensures { result ≡ memory_reads start }
{
    start.map_or(0, |source| from_memory(source) as usize)
}

// How many commands that sends.
fn commands_sent(start: Option<Source>) -> usize
    ensures { result ≡ commands_sent start }
{
    start.map_or(0, |source| !from_memory(source) as usize)
}

// That a channel has room is a `requires` of each step, and no invariant: it holds at that moment alone. Each names its own channel and number.

// A Writeback makes the directory send a memory write, which is awaited.
fn pass_on<B: Board>(parts: &mut Parts<B>, cache: u8, block: u16, words: Words)
    requires { length (B.MemoryCommands.waiting parts.old.memory_commands) < 128 }
    ensures { ⟦<Parts<B> as Shown>⟧.machine parts.new ≡ pass_on (⟦<Parts<B> as Shown>⟧.machine parts.old) (Writeback cache block words) }
{
    let _ = parts
        .memory_commands
        .add(MemoryCommand::Write { block, words });
    let set = parts.home(block);
    count_up(parts, set);
}

// An answer of round one is in: the last one starts round two.
fn one_fewer<B: Board>(parts: &mut Parts<B>, set: u8, job: Job, left: u8)
    requires { (length (B.MemoryCommands.waiting parts.old.memory_commands) + memory_reads (starts (Some (record { job = job; round = One left }))) ≤ 128) × (length (B.Commands.waiting parts.old.commands) + commands_sent (starts (Some (record { job = job; round = One left }))) ≤ 128) }
    ensures { ⟦<Parts<B> as Shown>⟧.machine parts.new ≡ advance_step (⟦<Parts<B> as Shown>⟧.machine parts.old) set (Some (record { job = job; round = One left })) }
{
    if left == 0 {
        return;
    }
    if left == 1 {
        begin_two(parts, job);
        return;
    }
    let round = Round::One { left: left - 1 };
    parts.serving.put(set, Some(Transaction { job, round }));
}

// What an arriving answer does to the set's transaction depends on its round. A Writeback goes on before anything that round two
// sends.
fn advance<B: Board>(parts: &mut Parts<B>, set: u8, transaction: Transaction, response: Response)
    requires { (length (B.MemoryCommands.waiting parts.old.memory_commands) + (writes_on response + memory_reads (starts (Some transaction))) ≤ 128) × (length (B.Commands.waiting parts.old.commands) + commands_sent (starts (Some transaction)) ≤ 128) }
    ensures { ⟦<Parts<B> as Shown>⟧.machine parts.new ≡ advance_step (pass_on (⟦<Parts<B> as Shown>⟧.machine parts.old) response) set (Some transaction) }
{
    match (transaction.round, response) {
        (
            Round::One { left },
            Response::Writeback {
                cache,
                block,
                words,
            },
        ) => {
            pass_on(parts, cache, block, words);
            one_fewer(parts, set, transaction.job, left);
        }
        (Round::One { left }, _) => one_fewer(parts, set, transaction.job, left),
        (
            Round::Two,
            Response::Writeback {
                cache,
                block,
                words,
            },
        ) => pass_on(parts, cache, block, words),
        (Round::Two, _) => {}
    }
}

// The same where the set may have no transaction: then a Writeback still goes on.
fn take_answer<B: Board>(
    parts: &mut Parts<B>,
    set: u8,
    serving: Option<Transaction>,
    response: Response,
)
    requires { (length (B.MemoryCommands.waiting parts.old.memory_commands) + (writes_on response + memory_reads (starts serving)) ≤ 128) × (length (B.Commands.waiting parts.old.commands) + commands_sent (starts serving) ≤ 128) }
    ensures { ⟦<Parts<B> as Shown>⟧.machine parts.new ≡ advance_step (pass_on (⟦<Parts<B> as Shown>⟧.machine parts.old) response) set serving }
{
    match (serving, response) {
        (Some(transaction), _) => advance(parts, set, transaction, response),
        (
            None,
            Response::Writeback {
                cache,
                block,
                words,
            },
        ) => pass_on(parts, cache, block, words),
        (None, _) => {}
    }
}

// Whether what a response makes the directory send has room.
fn has_room_to_start<B: Board>(parts: &Parts<B>, response: Response, start: Option<Source>) -> bool
    ensures { not result ≡ (nat_lt 128 (length (B.MemoryCommands.waiting parts.now.memory_commands) + (writes_on response + memory_reads start)) || nat_lt 128 (length (B.Commands.waiting parts.now.commands) + commands_sent start)) }
{
    if parts.memory_commands.len() + (writes_on(response) + memory_reads(start)) > 128 {
        return false;
    }
    parts.commands.len() + commands_sent(start) <= 128
}

// The response that the pick shows arrives at the directory.
pub fn deliver_response<B: Board>(parts: &mut Parts<B>, pick: u8) -> Result<Answer, Refusal>
    ensures { answered result (⟦<Parts<B> as Shown>⟧.machine parts.new) ≡ deliver_response (⟦<Parts<B> as Shown>⟧.machine parts.old) (B.Responses.chosen parts.old.responses pick) }
{
    let response = parts.responses.look(pick).ok_or(Refusal::ChannelEmpty)?;
    let set = parts.home(response.block());
    let serving = parts.serving.get(set);
    if !has_room_to_start(parts, response, starting(serving)) {
        return Err(Refusal::NoRoom);
    }
    let _ = parts.responses.take(pick);
    count_down(parts, set);
    take_answer(parts, set, serving, response);
    close(parts, set);
    Ok(Answer::MovedOn)
}
