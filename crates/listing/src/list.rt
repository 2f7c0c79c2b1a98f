ghost use Rattle.std.specs.Prelude.{◌≡◌, ◌≤◌, ◌++◌, length, IfOk, OnOk, string_bytes};
ghost use Rattle.sheet.specs.Readings.{reading};
ghost use Rattle.sheet.specs.Reads.{left};
ghost use Rattle.listing.specs.Listings.{listing_of, reading_lines};

use crate::lines::{head_line, record_line, refusal_line};
use sheet::reader::Reader;
use sheet::sheets::{CheckedSheet, UncheckedSheet};
use std::alloc::{AllocError, Global};

// Adds a line for each record that is left, from number 1 on. The player has a loop of this form: the line is all that a shared one
// would leave to a closure, and the player's lines need the answers too.
fn list_records(heap: Global, reader: &mut Reader<'_>, out: &mut String) -> Result<(), AllocError>
    requires { length (left reader.old) ≤ 32768 }
    ensures { OnOk result (string_bytes out.new ≡ string_bytes out.old ++ reading_lines 1 (reading (left reader.old))) }
{
    for place in 1.. {
        match reader.next_record() {
            Ok(Some(rec)) => {
                let line = record_line(heap, place, &rec)?;
                out.push_str(line.as_str())?;
            }
            Ok(None) => break,
            Err(why) => {
                let line = refusal_line(heap, place, why)?;
                out.push_str(line.as_str())?;
                break;
            }
        }
    }
    Ok(())
}

// The lines of a sheet whose head is good.
fn list_checked(heap: Global, sheet: &CheckedSheet) -> Result<String, AllocError>
    ensures { IfOk result (λ s. string_bytes s ≡ listing_of sheet.now.bytes.items) }
{
    let mut out = head_line(heap, &sheet.head())?;
    list_records(heap, &mut sheet.records(), &mut out)?;
    Ok(out)
}

// All lines of a sheet, as they are printed.
pub fn list_sheet(heap: Global, sheet: UncheckedSheet) -> Result<String, AllocError>
    ensures { IfOk result (λ s. string_bytes s ≡ listing_of sheet.bytes.items) }
{
    match sheet.check() {
        Ok(good) => list_checked(heap, &good),
        Err((_, why)) => refusal_line(heap, 0, why),
    }
}
