// What an accepted call answers: that the fabric moved on, or that an order of a cache is finished, with the word's value.
#[derive(Clone, Copy)]
pub enum Answer {
    MovedOn,
    Loaded { cache: u8, value: u64 },
    Stored { cache: u8, value: u64 },
}
