// The sheets that are damaged, made byte by byte.
ghost use Rattle.std.specs.Prelude.{◌≡◌, ◌+◌, ◌/◌, ◌%◌, ◌<◌, [], ◌∷◌, ◌++◌, replicate, IfOk, slice_set};

use std::alloc::{AllocError, Global};

// MOSIF, paired channels, a memory of words; 7 caches, 3 sets, 2 ways, 260 blocks.
pub(crate) const HEAD: [u8; 13] = [b'M', b'O', b'S', 1, 0, 5, 1, 0, 7, 3, 2, 4, 1];

// A head and a record of each kind.
pub(crate) fn every_record(heap: Global) -> Result<Vec<u8>, AllocError> {
    let mut sheet = Vec::from_slice(heap, &HEAD)?;
    sheet.extend_from_slice(b"N\x04a\\b\n")?;
    sheet.extend_from_slice(
        b"C\x03\x00\x01\x07\x00\x00\x00\x00\x00\x00\x00\xff\xff\xff\xff\xff\xff\xff\xff",
    )?;
    sheet.extend_from_slice(b"S\x00\x02\x01\x01\x08\x07\x06\x05\x04\x03\x02\x01")?;
    sheet.extend_from_slice(b"D\x01\xff")?;
    sheet.extend_from_slice(b"M\x05")?;
    sheet.extend_from_slice(b"L\x01\x02\x01\x01")?;
    Ok(sheet)
}

// A head, this letter, and 20 zero bytes.
pub(crate) fn with_letter(heap: Global, head: &[u8], letter: u8) -> Result<Vec<u8>, AllocError>
    ensures { IfOk result (λ v. v.items ≡ (head.now ++ letter ∷ []) ++ replicate 20 0) }
{
    let mut sheet = Vec::from_slice(heap, head)?;
    sheet.push(letter)?;
    sheet.extend_from_slice(&[0; 20])?;
    Ok(sheet)
}

// The head with another byte at this place.
pub(crate) fn with_byte(mut head: [u8; 13], at: usize, byte: u8) -> [u8; 13]
    requires { at < 13 }
    ensures { result ≡ slice_set head at byte }
{
    head[at] = byte;
    head
}

// The head with another number in the two bytes from this place on.
pub(crate) fn with_number(head: [u8; 13], at: usize, number: u16) -> [u8; 13]
    requires { at < 12 }
    ensures { result ≡ slice_set (slice_set head at (number % 256)) (at + 1) (number / 256) }
{
    let [lo, hi] = number.to_le_bytes();
    with_byte(with_byte(head, at, lo), at + 1, hi)
}

fn push_note(sheet: &mut Vec<u8>, len: u8) -> Result<(), AllocError> {
    sheet.extend_from_slice(&[b'N', len])?;
    sheet.extend_from_slice(&[b'a'; 255][..usize::from(len)])
}

// A head, 127 notes of 255 bytes and a last one: 32,768 bytes where that has 114.
pub(crate) fn filled(heap: Global, last_note: u8) -> Result<Vec<u8>, AllocError> {
    let mut sheet = Vec::from_slice(heap, &HEAD)?;
    for _ in 0..127 {
        push_note(&mut sheet, 255)?;
    }
    push_note(&mut sheet, last_note)?;
    Ok(sheet)
}
