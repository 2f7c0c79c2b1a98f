ghost use Rattle.std.specs.Prelude.{◌≡◌, true, List, [], ◌∷◌, ◌++◌, length, is_ok, MatchResult};
ghost use Rattle.bedrock.specs.Refusals.{outcome};
ghost use Rattle.sheet.specs.Records.{Item, item};
ghost use Rattle.sheet.specs.declared.head.HeadCodes.{HeadCodes};
ghost use Rattle.writer.specs.Writes.{start_on, put_on, record_end, sheet_on};
ghost use Rattle.writer.specs.RoundTrips.{Holds, ReadsAs};
ghost use Rattle.writer.specs.Pages.{open_page, sealed_page, started};

use crate::encode::{head_end, record_end, write_head, write_record};
use crate::open::OpenSheet;
use crate::sealed::SealedSheet;
use bedrock::refusal::Refusal;
use sheet::head::HeadCodes;
use sheet::records::Record;

impl OpenSheet {
    // A sheet with this head and no records yet. A refusal hands the buffer back as it was.
    pub fn start(mut buffer: Vec<u8>, codes: HeadCodes) -> Result<OpenSheet, (Vec<u8>, Refusal)>
        ensures answers { started result ≡ start_on buffer.items codes }
        ensures gives { MatchResult result (λ s. Holds (open_page s) codes []) (λ p. p.0 ≡ buffer) }
    {
        // No `?` here, since a refusal hands the buffer back.
        match head_end(buffer.len(), codes) {
            Ok(end) => {
                write_head(buffer.as_mut_slice(), codes);
                Ok(OpenSheet { buffer, end })
            }
            Err(why) => Err((buffer, why)),
        }
    }

    // One record more. A refusal leaves the sheet and its buffer as they were.
    pub fn put(&mut self, rec: &Record<'_>) -> Result<(), Refusal>
        ensures answers { outcome (λ _. (open_page self.new).end) result ≡ record_end (open_page self.old).end (length (open_page self.old).bytes) (item rec.now) }
        ensures after { open_page self.new ≡ put_on (open_page self.old) (item rec.now) }
        ensures holds { (h : HeadCodes) (xs : List Item) → is_ok result ≡ true → Holds (open_page self.old) h xs → Holds (open_page self.new) h (xs ++ item rec.now ∷ []) }
    {
        let at = self.end;
        let end = record_end(at, self.buffer.len(), rec)?;
        write_record(self.buffer.as_mut_slice(), at, rec);
        self.end = end;
        Ok(())
    }

    // The sheet is done: it takes no more records.
    // Read back, it is the head and the records that were put into it.
    pub fn seal(self) -> SealedSheet
        ensures same { sealed_page result ≡ open_page self }
        ensures reads { (h : HeadCodes) (xs : List Item) → Holds (open_page self) h xs → ReadsAs (sheet_on (sealed_page result)) h xs }
    {
        let OpenSheet { buffer, end } = self;
        SealedSheet { buffer, end }
    }
}
