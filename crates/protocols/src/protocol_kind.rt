ghost use Rattle.std.specs.Prelude.{◌≡◌, Some};
ghost use Rattle.bedrock.specs.Refusals.{outcome, code_below};
ghost use Rattle.protocols.specs.ProtocolKinds.{code_of, name_of};

use bedrock::refusal::Refusal;
use std::fmt;

// The eight BedRock protocols, by the states that they use.
#[derive(Clone, Copy, Debug, PartialEq, Eq)]
pub enum ProtocolKind {
    Mi,
    Msi,
    Mesi,
    Mesif,
    Mosi,
    Mosif,
    Moesi,
    Moesif,
}

// The protocol of a code from 0 to 7. By hand for each kind: no derive makes the standard conversions.
impl TryFrom<u8> for ProtocolKind {
    type Error = Refusal;

    ghost try_from_gives = { λ code r. outcome code_of r ≡ code_below 8 code };

    fn try_from(code: u8) -> Result<ProtocolKind, Refusal> {
        match code {
            0 => Ok(ProtocolKind::Mi),
            1 => Ok(ProtocolKind::Msi),
            2 => Ok(ProtocolKind::Mesi),
            3 => Ok(ProtocolKind::Mesif),
            4 => Ok(ProtocolKind::Mosi),
            5 => Ok(ProtocolKind::Mosif),
            6 => Ok(ProtocolKind::Moesi),
            7 => Ok(ProtocolKind::Moesif),
            _ => Err(Refusal::OutOfBounds),
        }
    }
}

// Its code.
impl From<ProtocolKind> for u8 {
    ghost from_gives = { λ kind code. code ≡ code_of kind };

    fn from(kind: ProtocolKind) -> u8 {
        kind as u8
    }
}

impl ProtocolKind {
    pub fn name(self) -> &'static str
        ensures { result.now ≡ name_of (code_of self) }
    {
        match self {
            ProtocolKind::Mi => "MI",
            ProtocolKind::Msi => "MSI",
            ProtocolKind::Mesi => "MESI",
            ProtocolKind::Mesif => "MESIF",
            ProtocolKind::Mosi => "MOSI",
            ProtocolKind::Mosif => "MOSIF",
            ProtocolKind::Moesi => "MOESI",
            ProtocolKind::Moesif => "MOESIF",
        }
    }
}

impl fmt::Display for ProtocolKind {
    ghost output = { λ kind. Some (name_of (code_of kind)) };

    fn fmt<W: fmt::Write>(&self, f: &mut fmt::Formatter<W>) -> fmt::Result {
        f.write_str(self.name())
    }
}
