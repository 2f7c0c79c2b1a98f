ghost use Rattle.std.specs.Prelude.{◌≡◌, true};
ghost use Rattle.sheet.specs.Heads.{head_codes, head_of, is_head};

use crate::head::Head;

pub mod check;

// A sheet whose head is not judged yet.
#[derive(Drop)]
pub struct UncheckedSheet {
    bytes: Vec<u8>,
}

// A sheet whose head was judged good and is known. Records can be drawn from such a sheet only.
#[derive(Drop)]
pub struct CheckedSheet {
    bytes: Vec<u8>,
    head: Head,
    ghost good: { is_head (head_of bytes.items) (head_codes head) ≡ true },
}
