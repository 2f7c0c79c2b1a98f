ghost use Rattle.std.specs.Prelude.{◌≡◌, Ok, MatchResult};
ghost use Rattle.bedrock.specs.Refusals.{outcome};
ghost use Rattle.sheet.specs.Checks.{verdict};
ghost use Rattle.sheet.specs.Heads.{head_codes, head_of};

use crate::head::{Head, HeadCodes};
use crate::sheets::{CheckedSheet, UncheckedSheet};
use bedrock::refusal::Refusal;

// The head that the bytes begin with: 5 for the length, then 6 for mark and version, then 7 for the codes.
fn read_head(bytes: &[u8]) -> Result<Head, Refusal>
    ensures { outcome head_codes result ≡ head_of bytes.now }
{
    if bytes.len() > 32768 {
        return Err(Refusal::SheetTooLong);
    }
    let [
        b'M',
        b'O',
        b'S',
        1,
        0,
        protocol,
        channels,
        memory,
        caches,
        sets,
        ways,
        lo,
        hi,
        ..
    ] = bytes
    else {
        return Err(Refusal::BadHead);
    };
    Head::try_from(HeadCodes {
        protocol: *protocol,
        channels: *channels,
        memory: *memory,
        caches: *caches,
        sets: *sets,
        ways: *ways,
        blocks: u16::from_le_bytes([*lo, *hi]),
    })
}

impl UncheckedSheet {
    pub fn new(bytes: Vec<u8>) -> UncheckedSheet
        ensures { result.bytes ≡ bytes }
    {
        UncheckedSheet { bytes }
    }

    // The same sheet with its head known; a refusal hands this sheet back as it was.
    pub fn check(self) -> Result<CheckedSheet, (UncheckedSheet, Refusal)>
        ensures judges { verdict result ≡ head_of self.bytes.items }
        ensures keeps { MatchResult result (λ s. s.bytes ≡ self.bytes) (λ p. p.0 ≡ self) }
    {
        // No `?` here, since a refusal hands the sheet back.
        match read_head(self.bytes.as_slice()) {
            Ok(head) => {
                let UncheckedSheet { bytes } = self;
                Ok(CheckedSheet { bytes, head })
            }
            Err(why) => Err((self, why)),
        }
    }

    // The bytes again.
    pub fn into_bytes(self) -> Vec<u8>
        ensures { result ≡ self.bytes }
    {
        let UncheckedSheet { bytes } = self;
        bytes
    }
}

impl CheckedSheet {
    // The bytes of the whole sheet.
    pub fn bytes(&self) -> &[u8]
        ensures { result.now ≡ self.now.bytes.items }
    {
        self.bytes.as_slice()
    }

    pub fn head(&self) -> Head
        ensures { Ok (head_codes result) ≡ head_of self.now.bytes.items }
    {
        self.head
    }
}
