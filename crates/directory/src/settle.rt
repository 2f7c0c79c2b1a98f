ghost use Rattle.std.specs.Prelude.{◌≡◌, ◌<◌, true, nat_eq};
ghost use Rattle.bedrock.specs.Geometries.{sizes, set_of};
ghost use Rattle.machine.specs.Holdings.{no_entry, is_write};
ghost use Rattle.machine.specs.Tables.{put, put₃};
ghost use Rattle.machine.specs.Acceptance.{dismissed, handed_over, settled};
ghost use Rattle.tables.specs.Grids.{grid};
ghost use Rattle.directory.specs.Settling.{cleared_where};

use crate::state::Directory;
use machine::holding::Entry;
use machine::transaction::{Job, Source};
use messages::request::Access;
use protocols::state::State;
use tables::by_way::ByWay;

// Functions over the entries alone: as methods of the directory each would have to say too that the geometry stays.

// What an entry becomes when a block is written: in S with this block it shows nothing more.
fn after_write(shown: Entry, block: u16) -> Entry
    ensures { result ≡ dismissed true block shown }
{
    if shown.state.sharing() && shown.block == block {
        return Entry::empty();
    }
    shown
}

// One way of a cache, when a block of the set is written.
fn clear_way(entries: &mut ByWay<Entry>, set: u8, block: u16, cache: u8, way: u8)
    ensures { grid no_entry entries.new.cells ≡ put₃ 16 8 4 (grid no_entry entries.old.cells) set cache way (dismissed true block (grid no_entry entries.old.cells set cache way)) }
{
    let shown = entries.get(set, cache, way);
    entries.put(set, cache, way, after_write(shown, block));
}

// The ways of a cache. The table has room for the largest geometry: 4 ways of 8 caches.
fn clear_cache(entries: &mut ByWay<Entry>, set: u8, block: u16, cache: u8)
    requires { cache < 8 }
    ensures { grid no_entry entries.new.cells ≡ put 16 (grid no_entry entries.old.cells) set (cleared_where (λ c _. nat_eq c cache) block (grid no_entry entries.old.cells set)) }
{
    for way in 0..4 {
        clear_way(entries, set, block, cache, way);
    }
}

// All ways of all caches: the sharers of a block that is written show it no more.
fn clear_sharers(entries: &mut ByWay<Entry>, set: u8, block: u16)
    ensures { grid no_entry entries.new.cells ≡ put 16 (grid no_entry entries.old.cells) set (λ c w. dismissed true block (grid no_entry entries.old.cells set c w)) }
{
    for cache in 0..8 {
        clear_cache(entries, set, block, cache);
    }
}

// The sharers, where the request is a Write.
fn dismiss_sharers(entries: &mut ByWay<Entry>, set: u8, block: u16, access: Access)
    ensures { grid no_entry entries.new.cells ≡ put 16 (grid no_entry entries.old.cells) set (λ c w. dismissed (is_write access) block (grid no_entry entries.old.cells set c w)) }
{
    match access {
        Access::Read => {}
        Access::Write => clear_sharers(entries, set, block),
    }
}

// Another owner shows its next state.
fn hand_over(entries: &mut ByWay<Entry>, set: u8, block: u16, source: Source)
    ensures { grid no_entry entries.new.cells ≡ put 16 (grid no_entry entries.old.cells) set (handed_over source block (grid no_entry entries.old.cells set)) }
{
    match source {
        Source::Memory => {}
        Source::OwnCopy => {}
        Source::Owner {
            cache,
            way,
            next,
            ..
        } => {
            entries.put(set, cache, way, Entry::holding(next, block));
        }
    }
}

impl Directory {
    // Records the final entries of a job's set at once: sharers of a block that is written, the former owner, the requestor.
    pub fn settle(&mut self, job: Job)
        ensures entries { grid no_entry self.new.entries.cells ≡ put 16 (grid no_entry self.old.entries.cells) (set_of (sizes self.old.geometry) job.block) (settled job (grid no_entry self.old.entries.cells (set_of (sizes self.old.geometry) job.block))) }
        ensures geometry { self.new.geometry ≡ self.old.geometry }
    {
        let set = self.geometry.set_of(job.block);
        dismiss_sharers(&mut self.entries, set, job.block, job.access);
        hand_over(&mut self.entries, set, job.block, job.source);
        let next = Entry::holding(job.next, job.block);
        self.entries.put(set, job.requestor, job.way, next);
    }
}
