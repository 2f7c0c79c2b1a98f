ghost use Rattle.std.specs.Prelude.{◌≡◌, length};

use crate::blank::Blank;

// Something for each of N keys.
#[derive(Drop)]
pub struct Column<T, const N: usize> {
    cells: [T; N],
    ghost sized: { length cells ≡ N },
}

// Something for each cache: room for 8.
pub type ByCache<T> = Column<T, 8>;

// Something for each set: room for 16.
pub type BySet<T> = Column<T, 16>;

impl<T: Copy, const N: usize> Column<T, N> {
    ghost use Rattle.machine.specs.Tables.{put};
    ghost use Rattle.tables.specs.Grids.{column, everywhere};

    // A table that shows `zero` everywhere.
    pub fn new(zero: T) -> Column<T, N>
        ensures { column N zero result.cells ≡ everywhere zero }
    {
        Column { cells: [zero; N] }
    }

    // What stands at a key, and `zero` outside the table.
    pub fn get_or(&self, key: u8, zero: T) -> T
        ensures { result ≡ column N zero self.now.cells key }
    {
        self.cells.get(key as usize).copied().unwrap_or(zero)
    }

    // Replaces what stands at a key. Outside the table nothing changes, whatever is shown there.
    pub fn put(&mut self, key: u8, value: T)
        ensures { (zero : T) → column N zero self.new.cells ≡ put N (column N zero self.old.cells) key value }
    {
        // By hand: of an array after `get_mut` no element is known, so the proof does not close.
        if (key as usize) < N {
            self.cells[key as usize] = value;
        }
    }
}

impl<T: Blank, const N: usize> Column<T, N> {
    ghost use Rattle.tables.specs.Grids.{column};

    // What stands at a key, and the blank of the type outside the table.
    pub fn get(&self, key: u8) -> T
        ensures { result ≡ column N T.blank self.now.cells key }
    {
        self.get_or(key, T::blank())
    }
}
