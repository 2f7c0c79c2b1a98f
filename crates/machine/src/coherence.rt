// Coherence, of every run of the machine.
ghost use Rattle.machine.specs.Coherence.{Coherence};

// What specs/Coherence states holds: no load is stale, a cache that holds a block in E or M is the only one, and once the channels
// are empty nothing is owed.
pub fn coherent()
    ensures { Coherence }
{}
