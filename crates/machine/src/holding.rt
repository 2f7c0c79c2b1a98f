ghost use Rattle.std.specs.Prelude.{◌≡◌};
ghost use Rattle.machine.specs.Holdings.{no_way, no_entry, way_in, entry_in};

use bedrock::words::Words;
use protocols::state::State;

// A way of a cache: a block's words, held in a state. In I it shows zeros.
#[derive(Clone, Copy, Default)]
pub struct Way {
    pub state: State,
    pub block: u16,
    pub words: Words,
}

impl Way {
    // A way in I.
    pub fn empty() -> Way
        ensures { result ≡ no_way }
    {
        Way::default()
    }

    // A block's words in a state; in I none of them shows.
    pub fn holding(state: State, block: u16, words: Words) -> Way
        ensures { result ≡ way_in state block words }
    {
        match state {
            State::I => Way::empty(),
            _ => Way {
                state,
                block,
                words,
            },
        }
    }
}

// What the directory shows of a way. In I it shows zeros. A type beside `Way`, since an entry has no words.
#[derive(Clone, Copy, Default)]
pub struct Entry {
    pub state: State,
    pub block: u16,
}

impl Entry {
    // An entry in I.
    pub fn empty() -> Entry
        ensures { result ≡ no_entry }
    {
        Entry::default()
    }

    // A block in a state; in I it does not show.
    pub fn holding(state: State, block: u16) -> Entry
        ensures { result ≡ entry_in state block }
    {
        match state {
            State::I => Entry::empty(),
            _ => Entry { state, block },
        }
    }
}
