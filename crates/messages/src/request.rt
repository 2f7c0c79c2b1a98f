ghost use Rattle.messages.specs.Routes.{request_from, request_to};

use bedrock::party::{Party, Routed};

// What a request asks for: a copy to load from, or the right to store.
#[derive(Clone, Copy, Default, PartialEq, Eq)]
pub enum Access {
    #[default]
    Read,
    Write,
}

// A cache that missed asks the directory for a block, and names the way that is to hold it.
#[derive(Clone, Copy, Default)]
pub struct Request {
    pub access: Access,
    pub cache: u8,
    pub block: u16,
    pub way: u8,
}

impl Routed for Request {
    ghost from = { request_from };

    ghost to = { request_to };

    fn sender(&self) -> Party {
        Party::Cache(self.cache)
    }

    fn receiver(&self) -> Party {
        Party::Directory
    }
}
