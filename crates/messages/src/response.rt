ghost use Rattle.std.specs.Prelude.{◌≡◌};
ghost use Rattle.messages.specs.Messages.{response_cache, response_block, blank_response};
ghost use Rattle.messages.specs.Routes.{response_from, response_to};

use bedrock::party::{Party, Routed};
use bedrock::words::Words;

// What a cache answers to the directory.
#[derive(Clone, Copy)]
pub enum Response {
    // The way that was told to is invalid.
    InvalidateAck { cache: u8, block: u16 },
    // The kept order is carried out.
    CoherenceAck { cache: u8, block: u16 },
    // The words, which the memory may not have.
    Writeback { cache: u8, block: u16, words: Words },
    // The words are the memory's.
    NullWriteback { cache: u8, block: u16 },
}

impl Response {
    // The cache that answers.
    pub fn cache(self) -> u8
        ensures { result ≡ response_cache self }
    {
        match self {
            Response::InvalidateAck { cache, .. }
            | Response::CoherenceAck { cache, .. }
            | Response::Writeback { cache, .. }
            | Response::NullWriteback { cache, .. } => cache,
        }
    }

    // The block that the answer is about.
    pub fn block(self) -> u16
        ensures { result ≡ response_block self }
    {
        match self {
            Response::InvalidateAck { block, .. }
            | Response::CoherenceAck { block, .. }
            | Response::Writeback { block, .. }
            | Response::NullWriteback { block, .. } => block,
        }
    }
}

// Fills the free room of a channel. By hand: a derive makes only a variant without fields the default.
impl Default for Response {
    ghost is_default = { λ r. r ≡ blank_response };

    fn default() -> Response {
        Response::InvalidateAck { cache: 0, block: 0 }
    }
}

impl Routed for Response {
    ghost from = { response_from };

    ghost to = { response_to };

    fn sender(&self) -> Party {
        Party::Cache(self.cache())
    }

    fn receiver(&self) -> Party {
        Party::Directory
    }
}
