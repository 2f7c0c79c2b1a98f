ghost use Rattle.std.specs.Prelude.{◌≡◌, ◌+◌, ◌<◌, ◌≤◌, true, not, ◌&&◌, ◌||◌, length, Ok, nat_le, nat_lt};
ghost use Rattle.messages.specs.declared.command.Command.TheVariants.{Invalidate, SetStateWriteback, Transfer};
ghost use Rattle.machine.specs.Commands.{given_back, fill as fill_step, obey as obey_step, answers_to, sends_on, deliver_command};
ghost use Rattle.machine.specs.Outcomes.{answered};

use crate::orders::finish;
use bedrock::party::Party;
use bedrock::refusal::Refusal;
use bedrock::words::Words;
use machine::answer::Answer;
use machine::holding::Way;
use messages::command::Command;
use messages::response::Response;
use parts::board::Board;
use parts::shown::Shown;
use parts::state::Parts;
use protocols::state::State;
use wires::channel::Channel;

// A way of a cache, and the block that it holds or is to hold.
#[derive(Clone, Copy)]
struct Target {
    cache: u8,
    block: u16,
    way: u8,
}

// What a cache writes back, judged by the state that the way was in.
fn given_back(cache: u8, block: u16, held: Way) -> Response
    ensures { result ≡ given_back cache block held }
{
    if held.state.dirty() {
        return Response::Writeback {
            cache,
            block,
            words: held.words,
        };
    }
    Response::NullWriteback { cache, block }
}

// How many responses a command sends.
fn answers_to(command: Command) -> usize
    ensures { result ≡ answers_to command }
{
    match command {
        Command::Transfer { writeback, .. } => writeback as usize,
        _ => 1,
    }
}

// Whether it sends a command on.
fn sends_on(command: Command) -> bool
    ensures { result ≡ sends_on command }
{
    matches!(command, Command::Transfer { .. })
}

// That a channel has room is a `requires` of each step, and no invariant: it holds at that moment alone. Each names its own channel and number.

// The requestor has the block's words in a state: the kept order is carried out, the wait ends, and Coherence Ack goes out.
fn fill<B: Board>(parts: &mut Parts<B>, at: Target, state: State, words: Words) -> Answer
    requires { length (B.Responses.waiting parts.old.responses) < 128 }
    ensures { answered (Ok result) (⟦<Parts<B> as Shown>⟧.machine parts.new) ≡ fill_step (⟦<Parts<B> as Shown>⟧.machine parts.old) at.cache at.block at.way state words }
{
    let Target { cache, block, way } = at;
    let _ = parts.responses.add(Response::CoherenceAck { cache, block });
    match parts.kept.get(cache) {
        None => Answer::MovedOn,
        Some(asked) => {
            parts.kept.put(cache, None);
            let set = parts.home(block);
            finish(parts, set, cache, way, state, words, asked)
        }
    }
}

// The way goes to I, and what it held is written back.
fn write_back<B: Board>(parts: &mut Parts<B>, at: Target) -> Answer
    requires { length (B.Responses.waiting parts.old.responses) < 128 }
    ensures { answered (Ok result) (⟦<Parts<B> as Shown>⟧.machine parts.new) ≡ obey_step (⟦<Parts<B> as Shown>⟧.machine parts.old) (SetStateWriteback at.cache at.block at.way) }
{
    let Target { cache, block, way } = at;
    let set = parts.home(block);
    let held = parts.ways.get(set, cache, way);
    parts.ways.put(set, cache, way, Way::empty());
    let _ = parts.responses.add(given_back(cache, block, held));
    Answer::MovedOn
}

// The way goes to I.
fn invalidate<B: Board>(parts: &mut Parts<B>, at: Target) -> Answer
    requires { length (B.Responses.waiting parts.old.responses) < 128 }
    ensures { answered (Ok result) (⟦<Parts<B> as Shown>⟧.machine parts.new) ≡ obey_step (⟦<Parts<B> as Shown>⟧.machine parts.old) (Invalidate at.cache at.block at.way) }
{
    let Target { cache, block, way } = at;
    let set = parts.home(block);
    parts.ways.put(set, cache, way, Way::empty());
    let _ = parts
        .responses
        .add(Response::InvalidateAck { cache, block });
    Answer::MovedOn
}

// The owner's words go to the requestor, and the owner takes its next state; if told to, it also writes back.
fn transfer<B: Board>(
    parts: &mut Parts<B>,
    at: Target,
    requestor: u8,
    requestor_way: u8,
    owner_next: State,
    requestor_next: State,
    writeback: bool,
) -> Answer
    requires { (length (B.Commands.waiting parts.old.commands) < 128) × ((writeback ≡ true → length (B.Responses.waiting parts.old.responses) < 128)) }
    ensures { answered (Ok result) (⟦<Parts<B> as Shown>⟧.machine parts.new) ≡ obey_step (⟦<Parts<B> as Shown>⟧.machine parts.old) (Transfer at.cache at.block at.way requestor requestor_way owner_next requestor_next writeback) }
{
    let Target { cache, block, way } = at;
    let set = parts.home(block);
    let held = parts.ways.get(set, cache, way);
    parts.ways.put(set, cache, way, Way::holding(owner_next, block, held.words));
    let _ = parts.commands.add(Command::SetTagData {
        cache: requestor,
        block,
        way: requestor_way,
        next: requestor_next,
        words: held.words,
        sender: Party::Cache(cache),
    });
    if writeback {
        let _ = parts.responses.add(given_back(cache, block, held));
        return Answer::MovedOn;
    }
    Answer::MovedOn
}

// Does what a command tells its cache to do. What it sends has room.
fn obey<B: Board>(parts: &mut Parts<B>, command: Command) -> Answer
    requires { (length (B.Responses.waiting parts.old.responses) + answers_to command ≤ 128) × ((sends_on command ≡ true → length (B.Commands.waiting parts.old.commands) < 128)) }
    ensures { answered (Ok result) (⟦<Parts<B> as Shown>⟧.machine parts.new) ≡ obey_step (⟦<Parts<B> as Shown>⟧.machine parts.old) command }
{
    match command {
        Command::Invalidate { cache, block, way } => invalidate(
            parts,
            Target { cache, block, way },
        ),
        Command::SetStateWriteback { cache, block, way } => write_back(
            parts,
            Target { cache, block, way },
        ),
        Command::Transfer {
            cache,
            block,
            way,
            requestor,
            requestor_way,
            owner_next,
            requestor_next,
            writeback,
        } => transfer(
            parts,
            Target { cache, block, way },
            requestor,
            requestor_way,
            owner_next,
            requestor_next,
            writeback,
        ),
        Command::SetTagData {
            cache,
            block,
            way,
            next,
            words,
            ..
        } => fill(parts, Target { cache, block, way }, next, words),
        Command::SetStateWakeup { cache, block, way } => {
            let set = parts.home(block);
            let held = parts.ways.get(set, cache, way);
            fill(parts, Target { cache, block, way }, State::M, held.words)
        }
    }
}

// Whether what a command sends has room, counted before the command is taken.
fn has_room_for<B: Board>(parts: &Parts<B>, command: Command) -> bool
    ensures { not result ≡ (nat_lt 128 (length (B.Responses.waiting parts.now.responses) + answers_to command) || (sends_on command && nat_le 128 (length (B.Commands.waiting parts.now.commands)))) }
{
    if parts.responses.len() + answers_to(command) > 128 {
        return false;
    }
    !(sends_on(command) && parts.commands.len() >= 128)
}

// The command that the pick shows arrives at its cache.
pub fn deliver_command<B: Board>(parts: &mut Parts<B>, pick: u8) -> Result<Answer, Refusal>
    ensures { answered result (⟦<Parts<B> as Shown>⟧.machine parts.new) ≡ deliver_command (⟦<Parts<B> as Shown>⟧.machine parts.old) (B.Commands.chosen parts.old.commands pick) }
{
    let command = parts.commands.look(pick).ok_or(Refusal::ChannelEmpty)?;
    if !has_room_for(parts, command) {
        return Err(Refusal::NoRoom);
    }
    let _ = parts.commands.take(pick);
    Ok(obey(parts, command))
}
