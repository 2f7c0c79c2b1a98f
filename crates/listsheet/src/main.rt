// Prints, in words, what the run sheet on standard input says.
#![tactic(auto)]

use listing::list::list_sheet;
use sheet::sheets::UncheckedSheet;
use std::io;
use std::io::{Read, Write};

fn main(rt: HostRuntime) -> io::Result<()> {
    let heap = rt.alloc();
    let mut bytes = Vec::new(heap);
    // One byte more than a sheet may have is enough to see that it is too long.
    let mut input = rt.stdin().take(32769);
    input.read_to_end(&mut bytes)?;
    let lines = list_sheet(heap, UncheckedSheet::new(bytes))?;
    // In one write: `print!` writes a text of this size in many.
    rt.stdout().write_all(lines.as_bytes())
}
