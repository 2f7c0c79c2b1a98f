ghost use Rattle.std.specs.Prelude.{◌≡◌, Some};
ghost use Rattle.bedrock.specs.Refusals.{number, meaning_of};

use std::error::Error;
use std::fmt;

// Why a call is refused. Numbers 1 to 10 are bad input, 11 to 16 a bad moment.
#[derive(Clone, Copy, Debug, PartialEq, Eq)]
pub enum Refusal {
    NoSuchCache = 1,
    NoSuchBlock = 2,
    NoSuchWord = 3,
    NoSuchChannel = 4,
    SheetTooLong = 5,
    BadHead = 6,
    OutOfBounds = 7,
    UnknownLetter = 8,
    CutShort = 9,
    NoSuchSetOrWay = 10,
    CacheWaits = 11,
    ChannelEmpty = 12,
    SetBusy = 13,
    NoRoom = 14,
    LateContent = 15,
    BufferTooShort = 16,
}

impl Refusal {
    // The number by which the refusal is known outside the program.
    pub fn number(self) -> u8
        ensures { result ≡ number self }
    {
        self as u8
    }

    // The refusal in words.
    pub fn meaning(self) -> &'static str
        ensures { result.now ≡ meaning_of (number self) }
    {
        match self {
            Refusal::NoSuchCache => "no such cache",
            Refusal::NoSuchBlock => "no such block",
            Refusal::NoSuchWord => "no such word",
            Refusal::NoSuchChannel => "no such channel",
            Refusal::SheetTooLong => "sheet over 32768 bytes",
            Refusal::BadHead => "head short, or of another mark or version",
            Refusal::OutOfBounds => "head code or length out of bounds",
            Refusal::UnknownLetter => "unknown letter",
            Refusal::CutShort => "record cut short",
            Refusal::NoSuchSetOrWay => "no such set or way",
            Refusal::CacheWaits => "cache waits",
            Refusal::ChannelEmpty => "channel empty",
            Refusal::SetBusy => "set has answers pending",
            Refusal::NoRoom => "no room on a channel",
            Refusal::LateContent => "content after another record",
            Refusal::BufferTooShort => "buffer too short",
        }
    }
}

impl fmt::Display for Refusal {
    ghost output = { λ why. Some (meaning_of (number why)) };

    fn fmt<W: fmt::Write>(&self, f: &mut fmt::Formatter<W>) -> fmt::Result {
        f.write_str(self.meaning())
    }
}

impl Error for Refusal {}
