ghost use Rattle.std.specs.Prelude.{◌≡◌};
ghost use Rattle.protocols.specs.declared.state.State.TheVariants.{S};
ghost use Rattle.protocols.specs.States.{same_state, held, owning, writable, dirty, may_be_dirty};

// The state in which a cache has a block: Invalid, Shared, Exclusive, Modified, Owned or Forward.
// The directory keeps the same states, but cannot tell E from M: a store in E takes M without a message.
#[derive(Clone, Copy, Debug, Default, PartialEq, Eq)]
pub enum State {
    #[default]
    I,
    S,
    E,
    M,
    O,
    F,
}

impl State {
    // Whether the cache has the block, so that a load hits.
    pub fn held(self) -> bool
        ensures { result ≡ held self }
    {
        self != State::I
    }

    // Whether the cache has the block, and others may have it too.
    pub fn sharing(self) -> bool
        ensures { result ≡ same_state self S }
    {
        self == State::S
    }

    // Whether the cache is the block's owner, which hands its words to others.
    pub fn owning(self) -> bool
        ensures { result ≡ owning self }
    {
        matches!(self, State::E | State::M | State::O | State::F)
    }

    // Whether a store hits.
    pub fn writable(self) -> bool
        ensures { result ≡ writable self }
    {
        matches!(self, State::E | State::M)
    }

    // Whether the words may differ from the memory's, so that a write back carries them.
    pub fn dirty(self) -> bool
        ensures { result ≡ dirty self }
    {
        matches!(self, State::M | State::O)
    }

    // Whether a cache that the directory shows in this state may be dirty: E there may be M at the cache.
    pub fn may_be_dirty(self) -> bool
        ensures { result ≡ may_be_dirty self }
    {
        matches!(self, State::E | State::M | State::O)
    }
}
