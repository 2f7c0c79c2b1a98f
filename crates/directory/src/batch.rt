use arrayvec::ArrayVec;
use messages::command::Command;

// The commands of a first round, in the order in which they go out: at most one to the requestor and one to each of 8 caches.
pub type Batch = ArrayVec<Command, 9>;
