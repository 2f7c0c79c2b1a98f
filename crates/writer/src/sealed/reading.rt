ghost use Rattle.std.specs.Prelude.{◌≡◌};
ghost use Rattle.writer.specs.Writes.{sheet_on};
ghost use Rattle.writer.specs.Pages.{sealed_page};

use crate::sealed::SealedSheet;

impl SealedSheet {
    // The bytes of the sheet.
    pub fn bytes(&self) -> &[u8]
        ensures { result.now ≡ sheet_on (sealed_page self.now) }
    {
        &self.buffer[..self.end]
    }

    // The whole buffer again, with the sheet at its front: one starts another sheet with it.
    pub fn into_buffer(self) -> Vec<u8>
        ensures { result ≡ self.buffer }
    {
        self.buffer
    }
}
