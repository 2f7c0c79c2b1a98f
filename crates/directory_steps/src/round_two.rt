ghost use Rattle.std.specs.Prelude.{◌≡◌, ◌<◌, true, false, length};
ghost use Rattle.machine.specs.Machines.{with_count, one_more};
ghost use Rattle.machine.specs.Acceptance.{fetch as fetch_step, begin_two, from_memory};

use crate::counts::count_up;
use machine::transaction::{Job, Round, Source, Transaction};
use memory::Memory;
use messages::command::Command;
use messages::memory_command::MemoryCommand;
use parts::board::Board;
use parts::shown::Shown;
use parts::state::Parts;
use wires::channel::Channel;

// Whether round two asks the memory for the words, and so sends a memory command; else it sends a command.
pub(crate) fn from_memory(source: Source) -> bool
    ensures { result ≡ from_memory source }
{
    matches!(source, Source::Memory)
}

// That a channel has room is a `requires` of each step, and no invariant: it holds at that moment alone. Each names its own channel and number.

// What round two sends: a memory read, a Wakeup for an upgrade, or a Transfer to the owner. A memory read and a write back are
// awaited too.
fn fetch<B: Board>(parts: &mut Parts<B>, job: Job)
    requires { ((from_memory job.source ≡ true → length (B.MemoryCommands.waiting parts.old.memory_commands) < 128)) × ((from_memory job.source ≡ false → length (B.Commands.waiting parts.old.commands) < 128)) }
    ensures { ⟦<Parts<B> as Shown>⟧.machine parts.new ≡ fetch_step (⟦<Parts<B> as Shown>⟧.machine parts.old) job job.source }
{
    let set = parts.home(job.block);
    match job.source {
        Source::Memory => {
            let _ = parts.memory_commands.add(MemoryCommand::Read {
                block: job.block,
                requestor: job.requestor,
                way: job.way,
                next: job.next,
            });
            count_up(parts, set);
        }
        Source::OwnCopy => {
            let _ = parts.commands.add(Command::SetStateWakeup {
                cache: job.requestor,
                block: job.block,
                way: job.way,
            });
        }
        Source::Owner {
            cache,
            way,
            next,
            writeback,
            ..
        } => {
            let _ = parts.commands.add(Command::Transfer {
                cache,
                block: job.block,
                way,
                requestor: job.requestor,
                requestor_way: job.way,
                owner_next: next,
                requestor_next: job.next,
                writeback,
            });
            let count = parts.counts.get(set);
            if writeback {
                parts.counts.put(set, count.saturating_add(1));
            } else {
                parts.counts.put(set, count);
            }
        }
    }
}

// Round two begins.
pub(crate) fn begin_two<B: Board>(parts: &mut Parts<B>, job: Job)
    requires { ((from_memory job.source ≡ true → length (B.MemoryCommands.waiting parts.old.memory_commands) < 128)) × ((from_memory job.source ≡ false → length (B.Commands.waiting parts.old.commands) < 128)) }
    ensures { ⟦<Parts<B> as Shown>⟧.machine parts.new ≡ begin_two (⟦<Parts<B> as Shown>⟧.machine parts.old) job }
{
    fetch(parts, job);
    let set = parts.home(job.block);
    let round = Round::Two;
    parts.serving.put(set, Some(Transaction { job, round }));
}
