ghost use Rattle.std.specs.Prelude.{◌≡◌, ◌-◌, ◌<◌, true, length};
ghost use Rattle.machine.specs.Machines.{with_count};
ghost use Rattle.machine.specs.Responses.{close as close_step, carry_out, is_read, memory_turn};
ghost use Rattle.machine.specs.Outcomes.{answered};

use crate::counts::{close, count_down};
use bedrock::party::Party;
use bedrock::refusal::Refusal;
use machine::answer::Answer;
use memory::Memory;
use messages::command::Command;
use messages::memory_command::MemoryCommand;
use parts::board::Board;
use parts::shown::Shown;
use parts::state::Parts;
use wires::channel::Channel;

// Whether a memory command is a read, which sends Set Tag with Data.
fn is_read(command: MemoryCommand) -> bool
    ensures { result ≡ is_read command }
{
    matches!(command, MemoryCommand::Read { .. })
}

// That a channel has room is a `requires` of each step, and no invariant: it holds at that moment alone. Each names its own channel and number.

// A read sends the words to the requestor, a write changes the memory.
fn carry_out<B: Board>(parts: &mut Parts<B>, command: MemoryCommand)
    requires { is_read command ≡ true → length (B.Commands.waiting parts.old.commands) < 128 }
    ensures { ⟦<Parts<B> as Shown>⟧.machine parts.new ≡ carry_out (⟦<Parts<B> as Shown>⟧.machine parts.old) command }
{
    match command {
        MemoryCommand::Read {
            block,
            requestor,
            way,
            next,
        } => {
            let words = parts.memory.read(block);
            let _ = parts.commands.add(Command::SetTagData {
                cache: requestor,
                block,
                way,
                next,
                words,
                sender: Party::Directory,
            });
        }
        MemoryCommand::Write { block, words } => parts.memory.write(block, words),
    }
}

// The memory carries out the command that the pick shows.
pub fn memory_turn<B: Board>(parts: &mut Parts<B>, pick: u8) -> Result<Answer, Refusal>
    ensures { answered result (⟦<Parts<B> as Shown>⟧.machine parts.new) ≡ memory_turn (⟦<Parts<B> as Shown>⟧.machine parts.old) (B.MemoryCommands.chosen parts.old.memory_commands pick) }
{
    let command = parts
        .memory_commands
        .look(pick)
        .ok_or(Refusal::ChannelEmpty)?;
    if is_read(command) && parts.commands.len() >= 128 {
        return Err(Refusal::NoRoom);
    }
    let _ = parts.memory_commands.take(pick);
    let set = parts.home(command.block());
    count_down(parts, set);
    carry_out(parts, command);
    close(parts, set);
    Ok(Answer::MovedOn)
}
