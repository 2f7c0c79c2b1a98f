ghost use Rattle.std.specs.Prelude.{◌≤◌, length};

pub mod draw;

// Draws the records of a checked sheet, one after another. It borrows the sheet and keeps its place, which stands beside the bytes and not in
// a shorter slice, since a draw promises that the sheet's bytes stay the same.
#[derive(Drop)]
pub struct Reader<'a> {
    bytes: &'a [u8],
    at: usize,
    ghost inside: { at ≤ length bytes.now },
}
