ghost use Rattle.std.specs.Prelude.{◌≡◌, ◌+◌, ◌<◌, ◌≤◌, not, ◌&&◌, [], ◌∷◌, ◌++◌, length, if◌then◌else◌, ◌==◌};
ghost use Rattle.std.specs.Option.{option_to_list};
ghost use Rattle.messages.specs.declared.command.Command.TheVariants.{Invalidate};
ghost use Rattle.machine.specs.Machines.{home};
ghost use Rattle.machine.specs.Directory.{shown_way, shown_state, sharing, or_zero};
ghost use Rattle.machine.specs.Acceptance.{upgrading, evict, dismiss, first_round};
ghost use Rattle.directory.specs.Alone.{alone};

use crate::batch::Batch;
use crate::state::Directory;
use machine::holding::Entry;
use messages::command::Command;
use messages::request::{Access, Request};
use protocols::state::State;

// What empties a way that shows this entry, if it shows a block: what may be dirty is written back.
fn eviction(cache: u8, way: u8, shown: Entry) -> Option<Command>
    ensures { option_to_list result ≡ evict cache way shown }
{
    let block = shown.block;
    if shown.state.may_be_dirty() {
        return Some(Command::SetStateWriteback { cache, block, way });
    }
    if shown.state.held() {
        return Some(Command::Invalidate { cache, block, way });
    }
    None
}

impl Directory {
    // The victim's command: none where the request only upgrades.
    fn victim(&self, request: Request) -> Option<Command>
        ensures { option_to_list result ≡ (if upgrading (alone self.now) request then [] else evict request.cache request.way ((alone self.now).entry (home (alone self.now) request.block) request.cache request.way)) }
    {
        if self.upgrades(request) {
            return None;
        }
        let set = self.geometry.set_of(request.block);
        eviction(
            request.cache,
            request.way,
            self.entry(set, request.cache, request.way),
        )
    }

    // Whether a cache other than the requestor is shown in S.
    fn is_other_sharer(&self, request: Request, cache: u8) -> bool
        ensures { result ≡ (sharing (shown_state (alone self.now) cache request.block) && not (cache == request.cache)) }
    {
        self.shown_state(cache, request.block).sharing() && cache != request.cache
    }

    // Such a cache lets go of the block.
    fn dismiss_one(&self, batch: &mut Batch, request: Request, cache: u8)
        requires { length batch.old.items < 9 }
        ensures after { batch.new.items ≡ batch.old.items ++ (if sharing (shown_state (alone self.now) cache request.block) && not (cache == request.cache) then Invalidate cache request.block (or_zero (shown_way (alone self.now) cache request.block)) ∷ [] else []) }
        ensures few { length batch.new.items ≤ length batch.old.items + 1 }
    {
        if self.is_other_sharer(request, cache) {
            batch.push(Command::Invalidate {
                cache,
                block: request.block,
                way: self.way_of(cache, request.block),
            });
        }
    }

    // Each other cache that is shown in S lets go of the block, lowest first.
    fn dismiss(&self, batch: &mut Batch, request: Request)
        requires { length batch.old.items ≤ 1 }
        ensures { batch.new.items ≡ batch.old.items ++ dismiss (alone self.now) request.cache request.block self.now.geometry.caches }
    {
        for cache in 0..self.geometry.caches() {
            self.dismiss_one(batch, request, cache);
        }
    }

    // The commands of the first round: the victim's, then for a Write those to the sharers.
    pub fn first_round(&self, request: Request) -> Batch
        ensures { result.items ≡ first_round (alone self.now) request }
    {
        let mut batch = Batch::new();
        if let Some(command) = self.victim(request) {
            batch.push(command);
        }
        match request.access {
            Access::Read => {}
            Access::Write => self.dismiss(&mut batch, request),
        }
        batch
    }
}
