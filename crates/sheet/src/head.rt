ghost use Rattle.std.specs.Prelude.{◌≡◌};
ghost use Rattle.bedrock.specs.Refusals.{outcome};
ghost use Rattle.sheet.specs.Heads.{head_codes, judged};

use crate::kinds::{ChannelKind, MemoryKind};
use bedrock::geometry::Geometry;
use bedrock::refusal::Refusal;
use protocols::protocol_kind::ProtocolKind;

// What a head says, as the numbers that stand in it; nothing is judged yet. The writer takes these, and refuses those out of bounds.
#[derive(Clone, Copy)]
pub struct HeadCodes {
    pub protocol: u8,
    pub channels: u8,
    pub memory: u8,
    pub caches: u8,
    pub sets: u8,
    pub ways: u8,
    pub blocks: u16,
}

// A head whose codes are all within their bounds.
#[derive(Clone, Copy)]
pub struct Head {
    pub protocol: ProtocolKind,
    pub channels: ChannelKind,
    pub memory: MemoryKind,
    pub geometry: Geometry,
}

// The head that these codes name, refused with 7 where one is out of its bounds.
impl TryFrom<HeadCodes> for Head {
    type Error = Refusal;

    ghost try_from_gives = { λ codes r. outcome head_codes r ≡ judged codes };

    fn try_from(codes: HeadCodes) -> Result<Head, Refusal> {
        Ok(Head {
            protocol: ProtocolKind::try_from(codes.protocol)?,
            channels: ChannelKind::try_from(codes.channels)?,
            memory: MemoryKind::try_from(codes.memory)?,
            geometry: Geometry::new(codes.caches, codes.sets, codes.ways, codes.blocks)?,
        })
    }
}

// Its codes.
impl From<Head> for HeadCodes {
    ghost from_gives = { λ head codes. codes ≡ head_codes head };

    fn from(head: Head) -> HeadCodes {
        HeadCodes {
            protocol: head.protocol.into(),
            channels: head.channels.into(),
            memory: head.memory.into(),
            caches: head.geometry.caches(),
            sets: head.geometry.sets(),
            ways: head.geometry.ways(),
            blocks: head.geometry.blocks(),
        }
    }
}
