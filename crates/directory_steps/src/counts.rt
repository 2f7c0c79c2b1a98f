ghost use Rattle.std.specs.Prelude.{◌≡◌, ◌-◌};
ghost use Rattle.machine.specs.Machines.{with_count, one_more};
ghost use Rattle.machine.specs.Responses.{close as close_step};

use parts::board::Board;
use parts::shown::Shown;
use parts::state::Parts;
use wires::channel::Channel;

// One line each, as the definitions have them.

// One answer more is awaited.
pub(crate) fn count_up<B: Board>(parts: &mut Parts<B>, set: u8)
    ensures { ⟦<Parts<B> as Shown>⟧.machine parts.new ≡ with_count (⟦<Parts<B> as Shown>⟧.machine parts.old) set (one_more ((⟦<Parts<B> as Shown>⟧.machine parts.old).count set)) }
{
    let count = parts.counts.get(set);
    parts.counts.put(set, count.saturating_add(1));
}

// One answer fewer is awaited.
pub(crate) fn count_down<B: Board>(parts: &mut Parts<B>, set: u8)
    ensures { ⟦<Parts<B> as Shown>⟧.machine parts.new ≡ with_count (⟦<Parts<B> as Shown>⟧.machine parts.old) set ((⟦<Parts<B> as Shown>⟧.machine parts.old).count set - 1) }
{
    let count = parts.counts.get(set);
    parts.counts.put(set, count.saturating_sub(1));
}

// A set whose count is 0 has no transaction any more.
pub(crate) fn close<B: Board>(parts: &mut Parts<B>, set: u8)
    ensures { ⟦<Parts<B> as Shown>⟧.machine parts.new ≡ close_step (⟦<Parts<B> as Shown>⟧.machine parts.old) set }
{
    if parts.counts.get(set) == 0 {
        parts.serving.put(set, None);
    }
}
