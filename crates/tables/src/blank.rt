ghost use Rattle.std.specs.Prelude.{◌≡◌, None};
ghost use Rattle.machine.specs.Holdings.{no_way, no_entry};

use machine::holding::{Entry, Way};

// A type with a value of its own for what lies outside a table, so that no call has to name one. Not `Default`: its contract says what
// holds of a default, and not which value it is.
pub trait Blank: Copy {
    ghost blank: { Self };

    fn blank() -> Self
        ensures { result ≡ blank };
}

impl Blank for u8 {
    ghost blank = { 0 };

    fn blank() -> u8 {
        0
    }
}

impl Blank for u16 {
    ghost blank = { 0 };

    fn blank() -> u16 {
        0
    }
}

impl<T: Copy> Blank for Option<T> {
    ghost blank = { None };

    fn blank() -> Option<T> {
        None
    }
}

impl Blank for Way {
    ghost blank = { no_way };

    fn blank() -> Way {
        Way::empty()
    }
}

impl Blank for Entry {
    ghost blank = { no_entry };

    fn blank() -> Entry {
        Entry::empty()
    }
}
