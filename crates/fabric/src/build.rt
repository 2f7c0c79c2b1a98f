ghost use Rattle.std.specs.Prelude.{◌≡◌};
ghost use Rattle.bedrock.specs.Geometries.{sizes};
ghost use Rattle.machine.specs.Machines.{new};

use crate::state::Fabric;
use bedrock::geometry::Geometry;
use directory::state::Directory;
use machine::holding::{Entry, Way};
use parts::board::Board;
use parts::shown::Shown;
use parts::state::Parts;
use tables::by_set_cache::BySetCache;
use tables::by_way::ByWay;
use tables::column::{ByCache, BySet};
use wires::channel::Channel;

impl<B: Board> Fabric<B> {
    // A fabric whose caches are empty, over four new channels. The starting content is what the memory holds. It is never refused.
    pub fn build(geometry: Geometry, protocol: B::Protocol, memory: B::Memory) -> Fabric<B>
        ensures { ⟦<Fabric<B> as Shown>⟧.machine result ≡ new (sizes geometry) (B.Protocol.Protocol.row protocol) (B.Memory.blocks memory) }
    {
        let parts = Parts {
            directory: Directory {
                geometry,
                entries: ByWay::new(Entry::empty()),
            },
            protocol,
            ways: ByWay::new(Way::empty()),
            kept: ByCache::new(None),
            turns: BySetCache::new(0),
            serving: BySet::new(None),
            counts: BySet::new(0),
            memory,
            requests: B::Requests::new(),
            commands: B::Commands::new(),
            responses: B::Responses::new(),
            memory_commands: B::MemoryCommands::new(),
        };
        Fabric { parts }
    }
}
