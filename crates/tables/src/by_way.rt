ghost use Rattle.std.specs.Prelude.{◌≡◌, ◌<◌, ◌+◌, ◌*◌, ◌&&◌, cond, length, Some, None, IfSome, nat_lt};

use crate::blank::Blank;

// Something for each way of each cache in each set: room for 16 sets of 8 caches of 4 ways.
//
// Beside `BySetCache` by hand: each key is tested against its own bounds and has its own law of places, which one table over a key type would
// hold once more.
#[derive(Drop)]
pub struct ByWay<T> {
    cells: [T; 512],
    ghost sized: { length cells ≡ 512 },
}

// The place of a key in the array, if it lies in the table.
fn place(set: u8, cache: u8, way: u8) -> Option<usize>
    ensures value { result ≡ cond (nat_lt set 16 && (nat_lt cache 8 && nat_lt way 4)) (Some ((set * 8 + cache) * 4 + way)) None }
    ensures within { IfSome result (λ p. p < 512) }
{
    if set < 16 && cache < 8 && way < 4 {
        Some((set as usize * 8 + cache as usize) * 4 + way as usize)
    } else {
        None
    }
}

impl<T: Copy> ByWay<T> {
    ghost use Rattle.machine.specs.Tables.{put₃};
    ghost use Rattle.tables.specs.Grids.{grid, everywhere₃};

    // A table that shows `zero` everywhere.
    pub fn new(zero: T) -> ByWay<T>
        ensures { grid zero result.cells ≡ everywhere₃ zero }
    {
        ByWay { cells: [zero; 512] }
    }

    // What stands at a key, and `zero` outside the table.
    pub fn get_or(&self, set: u8, cache: u8, way: u8, zero: T) -> T
        ensures { result ≡ grid zero self.now.cells set cache way }
    {
        match place(set, cache, way) {
            Some(at) => self.cells[at],
            None => zero,
        }
    }

    // Replaces what stands at a key. Outside the table nothing changes, whatever is shown there.
    pub fn put(&mut self, set: u8, cache: u8, way: u8, value: T)
        ensures { (zero : T) → grid zero self.new.cells ≡ put₃ 16 8 4 (grid zero self.old.cells) set cache way value }
    {
        if let Some(at) = place(set, cache, way) {
            self.cells[at] = value;
        }
    }
}

impl<T: Blank> ByWay<T> {
    ghost use Rattle.tables.specs.Grids.{grid};

    // What stands at a key, and the blank of the type outside the table.
    pub fn get(&self, set: u8, cache: u8, way: u8) -> T
        ensures { result ≡ grid T.blank self.now.cells set cache way }
    {
        self.get_or(set, cache, way, T::blank())
    }
}
