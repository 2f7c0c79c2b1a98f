ghost use Rattle.std.specs.Prelude.{◌≡◌, ◌&&◌, ◌==◌};
ghost use Rattle.protocols.specs.States.{held};
ghost use Rattle.machine.specs.Holdings.{no_entry};
ghost use Rattle.machine.specs.Tables.{lowest};
ghost use Rattle.machine.specs.Directory.{shown_way, shown_state, sharing, owner, state_by, view};
ghost use Rattle.tables.specs.Grids.{grid};
ghost use Rattle.directory.specs.Alone.{alone};

use crate::state::Directory;
use machine::holding::Entry;
use protocols::state::State;

// Whether an entry shows a block.
fn shows(entry: Entry, block: u16) -> bool
    ensures { result ≡ (held entry.state && entry.block == block) }
{
    entry.state.held() && entry.block == block
}

impl Directory {
    // What it shows of a way.
    pub(crate) fn entry(&self, set: u8, cache: u8, way: u8) -> Entry
        ensures { result ≡ grid no_entry self.now.entries.cells set cache way }
    {
        self.entries.get(set, cache, way)
    }

    // The way in which it shows a cache with a block.
    pub(crate) fn shown_way(&self, cache: u8, block: u16) -> Option<u8>
        ensures { result ≡ shown_way (alone self.now) cache block }
    {
        let set = self.geometry.set_of(block);
        (0..self.geometry.ways()).find(|way| shows(self.entry(set, cache, *way), block))
    }

    // The state in which it shows a cache with a block: I where it shows it without.
    pub(crate) fn shown_state(&self, cache: u8, block: u16) -> State
        ensures { result ≡ shown_state (alone self.now) cache block }
    {
        self.shown_way(cache, block).map_or(State::I, |way| {
            self.entry(self.geometry.set_of(block), cache, way).state
        })
    }

    // The cache that owns a block.
    fn owner(&self, block: u16) -> Option<u8>
        ensures { result ≡ owner (alone self.now) block }
    {
        (0..self.geometry.caches()).find(|cache| self.shown_state(*cache, block).owning())
    }

    // The lowest cache that shares a block.
    fn sharer(&self, block: u16) -> Option<u8>
        ensures { result ≡ lowest (λ c. sharing (shown_state (alone self.now) c block)) self.now.geometry.caches }
    {
        (0..self.geometry.caches()).find(|cache| self.shown_state(*cache, block).sharing())
    }

    // The state of a block whose owner was looked up: without an owner S where a cache shares it, else I.
    fn state_by(&self, block: u16, owner: Option<u8>) -> State
        ensures { result ≡ state_by (alone self.now) block owner }
    {
        match owner {
            Some(cache) => self.shown_state(cache, block),
            None => match self.sharer(block) {
                Some(_) => State::S,
                None => State::I,
            },
        }
    }

    // What the directory shows of a block: its state, and its owner if there is one.
    pub fn lookup(&self, block: u16) -> (State, Option<u8>)
        ensures { result ≡ view (alone self.now) block }
    {
        let owner = self.owner(block);
        (self.state_by(block, owner), owner)
    }
}
