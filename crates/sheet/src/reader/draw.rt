ghost use Rattle.std.specs.Prelude.{◌≡◌, drop};
ghost use Rattle.sheet.specs.Format.{front};
ghost use Rattle.sheet.specs.Reads.{left, drawn, answer_at, left_at};

use crate::parse::split_record;
use crate::reader::Reader;
use crate::records::Record;
use crate::sheets::CheckedSheet;
use bedrock::refusal::Refusal;

impl<'a> Reader<'a> {
    // The next record, or none past the last. A refusal keeps the place.
    // No `impl Iterator`: a refusal would come again at every call, and so the iterator would never end.
    pub fn next_record(&mut self) -> Result<Option<Record<'a>>, Refusal>
        ensures answers { drawn result ≡ answer_at (front (left self.old)) }
        ensures goes { left self.new ≡ left_at (front (left self.old)) (left self.old) }
        ensures same { self.new.bytes ≡ self.old.bytes }
    {
        let rest = &self.bytes[self.at..];
        let Some((rec, after)) = split_record(rest)? else {
            return Ok(None);
        };
        self.at = self.bytes.len() - after.len();
        Ok(Some(rec))
    }
}

impl CheckedSheet {
    // A reader of the records, from the first.
    pub fn records(&self) -> Reader<'_>
        ensures { left result ≡ drop 13 self.now.bytes.items }
    {
        Reader {
            bytes: self.bytes(),
            at: 13,
        }
    }
}
