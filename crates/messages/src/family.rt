ghost use Rattle.std.specs.Prelude.{◌≡◌};
ghost use Rattle.bedrock.specs.Refusals.{outcome};
ghost use Rattle.messages.specs.Families.{channel_of, channel_below};

use bedrock::refusal::Refusal;

// The four families of messages, each on a channel of its own.
#[derive(Clone, Copy, Debug, PartialEq, Eq)]
pub enum Family {
    Requests,
    Commands,
    Responses,
    MemoryCommands,
}

// The family on the channel of a number from 0 to 3. By hand: no derive makes the standard conversions.
impl TryFrom<u8> for Family {
    type Error = Refusal;

    ghost try_from_gives = { λ channel r. outcome channel_of r ≡ channel_below 4 channel };

    fn try_from(channel: u8) -> Result<Family, Refusal> {
        match channel {
            0 => Ok(Family::Requests),
            1 => Ok(Family::Commands),
            2 => Ok(Family::Responses),
            3 => Ok(Family::MemoryCommands),
            _ => Err(Refusal::NoSuchChannel),
        }
    }
}
