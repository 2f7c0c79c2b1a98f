ghost use Rattle.std.specs.Prelude.{◌≤◌, vec_len};

pub mod reading;

// A sheet that is done and takes no more records: the first `end` bytes of its buffer.
// A type of its own beside the open sheet, with an end beside the buffer as there, so that no call can put a record into it.
#[derive(Drop)]
pub struct SealedSheet {
    pub(crate) buffer: Vec<u8>,
    pub(crate) end: usize,
    ghost inside: { end ≤ vec_len buffer },
}
