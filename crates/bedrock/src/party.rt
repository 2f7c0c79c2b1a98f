ghost use Rattle.std.specs.Prelude.{◌≡◌};
ghost use Rattle.bedrock.specs.declared.party.Party.{Party};

// Who sends and receives messages.
#[derive(Clone, Copy, Debug, PartialEq, Eq)]
pub enum Party {
    Cache(u8),
    Directory,
    Memory,
}

// A message that says who sent it and who is to get it.
pub trait Routed {
    ghost from: { Self → Party };

    ghost to: { Self → Party };

    fn sender(&self) -> Party
        ensures { result ≡ from self.now };

    fn receiver(&self) -> Party
        ensures { result ≡ to self.now };
}
