ghost use Rattle.std.specs.Prelude.{◌≡◌, if◌then◌else◌};
ghost use Rattle.protocols.specs.Rows.{write_row};
ghost use Rattle.machine.specs.Holdings.{is_write};
ghost use Rattle.machine.specs.Directory.{shown_way, or_zero};
ghost use Rattle.machine.specs.Acceptance.{upgrading, unowned_source, job_for};
ghost use Rattle.directory.specs.Alone.{alone, under};
ghost use Rattle.directory.specs.Plans.{source_with, job_with};

use crate::state::Directory;
use machine::transaction::{Job, Source};
use messages::request::{Access, Request};
use protocols::protocol::Protocol;
use protocols::row::Row;
use protocols::state::State;

// The row of a request for a block that the directory shows in this state: a Write has the same under every protocol.
fn row_for<P: Protocol>(protocol: &P, access: Access, state: State) -> Row
    ensures { result ≡ (if is_write access then write_row else P.Protocol.row protocol.now state) }
{
    match access {
        Access::Read => protocol.read_row(state),
        Access::Write => Row::of_write(),
    }
}

impl Directory {
    // Whether a request only upgrades: a Write by a cache that is shown with the block.
    pub(crate) fn upgrades(&self, request: Request) -> bool
        ensures { result ≡ upgrading (alone self.now) request }
    {
        match request.access {
            Access::Read => false,
            Access::Write => self.shown_way(request.cache, request.block).is_some(),
        }
    }

    // The way in which a cache is shown with a block, 0 where it is not.
    pub(crate) fn way_of(&self, cache: u8, block: u16) -> u8
        ensures { result ≡ or_zero (shown_way (alone self.now) cache block) }
    {
        self.shown_way(cache, block).unwrap_or(0)
    }

    // Where the words come from without another owner: the requestor has them in an upgrade, else the memory.
    fn unowned_source(&self, request: Request) -> Source
        ensures { result ≡ unowned_source (upgrading (alone self.now) request) }
    {
        if self.upgrades(request) {
            return Source::OwnCopy;
        }
        Source::Memory
    }

    // Where the words come from.
    fn source(&self, request: Request, row: Row, owner: Option<u8>) -> Source
        ensures { result ≡ source_with (alone self.now) request row owner }
    {
        match owner {
            Some(cache) if cache != request.cache => Source::Owner {
                cache,
                way: self.way_of(cache, request.block),
                shown: self.shown_state(cache, request.block),
                next: row.owner,
                writeback: row.writeback,
            },
            _ => self.unowned_source(request),
        }
    }

    // What accepting a request decides, with its row and the block's owner.
    fn job_with(&self, request: Request, row: Row, owner: Option<u8>) -> Job
        ensures { result ≡ job_with (alone self.now) request row owner }
    {
        Job {
            access: request.access,
            requestor: request.cache,
            block: request.block,
            way: request.way,
            next: row.requestor,
            upgrade: self.upgrades(request),
            source: self.source(request, row, owner),
        }
    }

    // What accepting a request decides under a protocol.
    pub fn job_for<P: Protocol>(&self, protocol: &P, request: Request) -> Job
        ensures { result ≡ job_for (under (P.Protocol.row protocol.now) self.now) request }
    {
        let (state, owner) = self.lookup(request.block);
        self.job_with(request, row_for(protocol, request.access, state), owner)
    }
}
