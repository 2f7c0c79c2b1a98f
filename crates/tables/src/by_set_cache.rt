ghost use Rattle.std.specs.Prelude.{◌≡◌, ◌<◌, ◌+◌, ◌*◌, ◌&&◌, cond, length, Some, None, IfSome, nat_lt};

use crate::blank::Blank;

// Something for each cache in each set: room for 16 sets of 8 caches.
#[derive(Drop)]
pub struct BySetCache<T> {
    cells: [T; 128],
    ghost sized: { length cells ≡ 128 },
}

// The place of a key in the array, if it lies in the table.
fn place(set: u8, cache: u8) -> Option<usize>
    ensures value { result ≡ cond (nat_lt set 16 && nat_lt cache 8) (Some (set * 8 + cache)) None }
    ensures within { IfSome result (λ p. p < 128) }
{
    if set < 16 && cache < 8 {
        Some(set as usize * 8 + cache as usize)
    } else {
        None
    }
}

impl<T: Copy> BySetCache<T> {
    ghost use Rattle.machine.specs.Tables.{put₂};
    ghost use Rattle.tables.specs.Grids.{rows, everywhere₂};

    // A table that shows `zero` everywhere.
    pub fn new(zero: T) -> BySetCache<T>
        ensures { rows zero result.cells ≡ everywhere₂ zero }
    {
        BySetCache { cells: [zero; 128] }
    }

    // What stands at a key, and `zero` outside the table.
    pub fn get_or(&self, set: u8, cache: u8, zero: T) -> T
        ensures { result ≡ rows zero self.now.cells set cache }
    {
        match place(set, cache) {
            Some(at) => self.cells[at],
            None => zero,
        }
    }

    // Replaces what stands at a key. Outside the table nothing changes, whatever is shown there.
    pub fn put(&mut self, set: u8, cache: u8, value: T)
        ensures { (zero : T) → rows zero self.new.cells ≡ put₂ 16 8 (rows zero self.old.cells) set cache value }
    {
        if let Some(at) = place(set, cache) {
            self.cells[at] = value;
        }
    }
}

impl<T: Blank> BySetCache<T> {
    ghost use Rattle.tables.specs.Grids.{rows};

    // What stands at a key, and the blank of the type outside the table.
    pub fn get(&self, set: u8, cache: u8) -> T
        ensures { result ≡ rows T.blank self.now.cells set cache }
    {
        self.get_or(set, cache, T::blank())
    }
}
