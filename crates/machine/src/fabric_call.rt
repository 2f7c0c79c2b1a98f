use crate::order::Order;

// One of the three calls that move a fabric, with numbers as the caller has them, which are refused where they name nothing: an order of a cache, a delivery on channel 0, 1 or 2, a turn of the memory. What arrives is
// the waiting message that the pick shows.
#[derive(Clone, Copy)]
pub enum FabricCall {
    Order { cache: u8, order: Order },
    Deliver { channel: u8, pick: u8 },
    MemoryTurn { pick: u8 },
}
