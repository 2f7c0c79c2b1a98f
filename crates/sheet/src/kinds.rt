ghost use Rattle.std.specs.Prelude.{◌≡◌, Some};
ghost use Rattle.bedrock.specs.Refusals.{outcome, code_below};
ghost use Rattle.sheet.specs.Kinds.{channel_code, channel_name, memory_code, memory_name};

use bedrock::refusal::Refusal;
use std::fmt;

// By hand for each kind, as for the protocols: no derive makes the standard conversions, and what one trait of ours could share is the last
// arm alone.

// How a channel picks among the messages that wait.
#[derive(Clone, Copy, Debug, PartialEq, Eq)]
pub enum ChannelKind {
    Unordered,
    Paired,
    SingleFile,
}

// The kind of a code from 0 to 2.
impl TryFrom<u8> for ChannelKind {
    type Error = Refusal;

    ghost try_from_gives = { λ code r. outcome channel_code r ≡ code_below 3 code };

    fn try_from(code: u8) -> Result<ChannelKind, Refusal> {
        match code {
            0 => Ok(ChannelKind::Unordered),
            1 => Ok(ChannelKind::Paired),
            2 => Ok(ChannelKind::SingleFile),
            _ => Err(Refusal::OutOfBounds),
        }
    }
}

// Its code.
impl From<ChannelKind> for u8 {
    ghost from_gives = { λ channels code. code ≡ channel_code channels };

    fn from(channels: ChannelKind) -> u8 {
        channels as u8
    }
}

impl ChannelKind {
    pub fn name(self) -> &'static str
        ensures { result.now ≡ channel_name (channel_code self) }
    {
        match self {
            ChannelKind::Unordered => "unordered",
            ChannelKind::Paired => "paired",
            ChannelKind::SingleFile => "single file",
        }
    }
}

impl fmt::Display for ChannelKind {
    ghost output = { λ kind. Some (channel_name (channel_code kind)) };

    fn fmt<W: fmt::Write>(&self, f: &mut fmt::Formatter<W>) -> fmt::Result {
        f.write_str(ChannelKind::name(*self))
    }
}

// How a memory keeps its blocks.
#[derive(Clone, Copy, Debug, PartialEq, Eq)]
pub enum MemoryKind {
    Words,
    Image,
}

// The kind of the code 0 or 1.
impl TryFrom<u8> for MemoryKind {
    type Error = Refusal;

    ghost try_from_gives = { λ code r. outcome memory_code r ≡ code_below 2 code };

    fn try_from(code: u8) -> Result<MemoryKind, Refusal> {
        match code {
            0 => Ok(MemoryKind::Words),
            1 => Ok(MemoryKind::Image),
            _ => Err(Refusal::OutOfBounds),
        }
    }
}

// Its code.
impl From<MemoryKind> for u8 {
    ghost from_gives = { λ memory code. code ≡ memory_code memory };

    fn from(memory: MemoryKind) -> u8 {
        memory as u8
    }
}

impl MemoryKind {
    pub fn name(self) -> &'static str
        ensures { result.now ≡ memory_name (memory_code self) }
    {
        match self {
            MemoryKind::Words => "words",
            MemoryKind::Image => "image",
        }
    }
}

impl fmt::Display for MemoryKind {
    ghost output = { λ kind. Some (memory_name (memory_code kind)) };

    fn fmt<W: fmt::Write>(&self, f: &mut fmt::Formatter<W>) -> fmt::Result {
        f.write_str(MemoryKind::name(*self))
    }
}
