ghost use Rattle.std.specs.Prelude.{◌≤◌, vec_len};

pub mod writing;

// A sheet that takes records. The caller's buffer is moved in; the sheet is its first `end` bytes.
// The end stands beside the buffer, since the buffer never grows, and is handed back whole, past the end too as it was.
#[derive(Drop)]
pub struct OpenSheet {
    buffer: Vec<u8>,
    end: usize,
    ghost inside: { end ≤ vec_len buffer },
    ghost few: { end ≤ 32768 },
}
