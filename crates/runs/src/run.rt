ghost use Rattle.std.specs.Prelude.{IfOk};
ghost use Rattle.bedrock.specs.Geometries.{sizes};
ghost use Rattle.machine.specs.Machines.{new};
ghost use Rattle.runs.specs.Following.{Ran, all_said};

use bedrock::geometry::Geometry;
use bedrock::refusal::Refusal;
use fabric::shown::Arriving;
use fabric::state::Fabric;
use machine::answer::Answer;
use machine::coherence::coherent;
use machine::fabric_call::FabricCall;
use parts::board::Board;
use parts::shown::Shown;
use std::alloc::{AllocError, Global};

// A fabric after a run, and what each call answered, in their order.
#[derive(Drop)]
pub struct Finished<B: Board> {
    pub fabric: Fabric<B>,
    pub answers: Vec<Result<Answer, Refusal>>,
}

// Builds a fabric and makes the calls, one after the other. Whatever the channels choose, no load is stale, a cache that holds a block in E
// or M is the only one, and once the channels are empty nothing is owed.
pub fn run<B: Board>(
    heap: Global,
    geometry: Geometry,
    protocol: B::Protocol,
    memory: B::Memory,
    calls: &[FabricCall],
) -> Result<Finished<B>, AllocError>
where
    B::Protocol: Drop,
    B::Requests: Drop,
    B::Commands: Drop,
    B::Responses: Drop,
    B::MemoryCommands: Drop,
    B::Memory: Drop,
    ensures { IfOk result (λ x. Ran ⟦<Fabric<B> as Shown>⟧.machine ⟦<Fabric<B> as Arriving>⟧.arriving (new (sizes geometry) (B.Protocol.Protocol.row protocol) (B.Memory.blocks memory)) calls.now (all_said x.answers.items) x.fabric) }
{
    coherent();
    let mut fabric = Fabric::<B>::build(geometry, protocol, memory);
    let mut answers = Vec::new(heap);
    for call in calls {
        answers.push(fabric.call(*call))?;
    }
    Ok(Finished { fabric, answers })
}
