// Lists damaged sheets, and prints one line of each listing.
#![tactic(auto)]

ghost use Rattle.std.specs.Prelude.{◌≡◌, ◌<◌, IfOk, string_bytes};
ghost use Rattle.listing.specs.Listings.{listing_of};

mod samples;

use crate::samples::{HEAD, every_record, filled, with_byte, with_letter, with_number};
use listing::list::list_sheet;
use sheet::sheets::UncheckedSheet;
use std::alloc::Global;
use std::fmt;

// The lines of the sheet that these bytes are.
fn listed(heap: Global, bytes: &[u8]) -> anyhow::Result<String>
    ensures { IfOk result (λ text. string_bytes text ≡ listing_of bytes.now) }
{
    let sheet = UncheckedSheet::new(Vec::from_slice(heap, bytes)?);
    Ok(list_sheet(heap, sheet)?)
}

// A good sheet cut at each length: the last line.
fn print_cuts(rt: &HostRuntime) -> anyhow::Result<()> {
    let heap = rt.alloc();
    let sheet = every_record(heap)?;
    let bytes = sheet.as_slice();
    for len in 0..=bytes.len() {
        let text = listed(heap, &bytes[..len])?;
        let line = text.as_str().lines().last().unwrap_or("");
        println!(rt; "cut {len}: {line}")?;
    }
    Ok(())
}

// Each byte in place of a record's letter: the line of record 1.
fn print_letters(rt: &HostRuntime) -> anyhow::Result<()> {
    let heap = rt.alloc();
    for letter in 0..=255u8 {
        let sheet = with_letter(heap, &HEAD, letter)?;
        let text = listed(heap, sheet.as_slice())?;
        let line = text.as_str().lines().nth(1).unwrap_or("");
        println!(rt; "letter {letter}: {line}")?;
    }
    Ok(())
}

// A head that differs from a good one in one field, at each of these values: the first line.
fn print_field<T: Copy + fmt::Display, F: Fn(T) -> [u8; 13]>(
    rt: &HostRuntime,
    field: &str,
    values: &[T],
    head_with: F,
) -> anyhow::Result<()>
    requires { F.IsAlwaysCallable head_with }
{
    for value in values {
        let text = listed(rt.alloc(), &head_with(*value))?;
        let line = text.as_str().lines().next().unwrap_or("");
        println!(rt; "head {field} {value}: {line}")?;
    }
    Ok(())
}

// Each field of the head at the ends of its bounds, and one past them.
fn print_heads(rt: &HostRuntime) -> anyhow::Result<()> {
    print_field(
        rt,
        "mark 1",
        &[b'M' - 1, b'M', b'M' + 1],
        |value| with_byte(HEAD, 0, value),
    )?;
    print_field(
        rt,
        "mark 2",
        &[b'O' - 1, b'O', b'O' + 1],
        |value| with_byte(HEAD, 1, value),
    )?;
    print_field(
        rt,
        "mark 3",
        &[b'S' - 1, b'S', b'S' + 1],
        |value| with_byte(HEAD, 2, value),
    )?;
    print_field(
        rt,
        "version",
        &[0, 1, 2, 257],
        |value| with_number(HEAD, 3, value),
    )?;
    print_field(
        rt,
        "protocol",
        &[0, 7, 8],
        |value| with_byte(HEAD, 5, value),
    )?;
    print_field(
        rt,
        "channels",
        &[0, 2, 3],
        |value| with_byte(HEAD, 6, value),
    )?;
    print_field(rt, "memory", &[0, 1, 2], |value| with_byte(HEAD, 7, value))?;
    print_field(
        rt,
        "caches",
        &[0, 1, 8, 9],
        |value| with_byte(HEAD, 8, value),
    )?;
    print_field(
        rt,
        "sets",
        &[0, 1, 16, 17],
        |value| with_byte(HEAD, 9, value),
    )?;
    print_field(
        rt,
        "ways",
        &[0, 1, 4, 5],
        |value| with_byte(HEAD, 10, value),
    )?;
    print_field(
        rt,
        "blocks",
        &[0, 1, 1024, 1025],
        |value| with_number(HEAD, 11, value),
    )
}

// The longest sheet, and one byte more: the first line and the last.
fn print_sizes(rt: &HostRuntime) -> anyhow::Result<()> {
    let heap = rt.alloc();
    for last_note in 114..=115u8 {
        let sheet = filled(heap, last_note)?;
        let size = sheet.len();
        let text = listed(heap, sheet.as_slice())?;
        let first = text.as_str().lines().next().unwrap_or("");
        let last = text.as_str().lines().last().unwrap_or("");
        println!(rt; "size {size}: {first}")?;
        println!(rt; "size {size} ends: {last}")?;
    }
    Ok(())
}

fn run(rt: &HostRuntime) -> anyhow::Result<()> {
    print_cuts(rt)?;
    print_letters(rt)?;
    print_heads(rt)?;
    print_sizes(rt)
}

fn main(rt: HostRuntime) -> anyhow::Result<()> {
    run(&rt)
}
