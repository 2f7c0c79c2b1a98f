ghost use Rattle.std.specs.Prelude.{◌≡◌, ◌+◌, ◌/◌, ◌<◌, ◌≤◌, ◌++◌, length, take, Some};
ghost use Rattle.std.specs.Str.{IsAscii};
ghost use Rattle.sheet.specs.Records.{item};
ghost use Rattle.listing.specs.Lines.{details, escaped, first_words, hex_digit, opening, plain, shown};

use sheet::records::Record;
use std::{fmt, str};

// Printable ASCII, but for the backslash, which begins an escape.
fn is_plain(byte: u8) -> bool
    ensures { result ≡ plain byte }
{
    matches!(byte, b' '..=b'~') && byte != b'\\'
}

// By hand: `{:02x}` for each byte, through a formatter, takes three times as long.
fn hex_digit(digit: u8) -> u8
    requires { digit < 16 }
    ensures { result ≡ hex_digit digit }
{
    if digit < 10 {
        b'0' + digit
    } else {
        b'a' - 10 + digit
    }
}

// Puts a byte as it is shown, itself or \xNN, at a place of the text, and answers where it ends.
fn put_escaped(text: &mut [u8; 256], at: usize, byte: u8) -> usize
    requires { at + 4 ≤ 256 }
    ensures within { result ≤ at + 4 }
    ensures text { take result text.new ≡ take at text.old ++ escaped byte }
{
    if is_plain(byte) {
        text[at] = byte;
        at + 1
    } else {
        let escape = [b'\\', b'x', hex_digit(byte / 16), hex_digit(byte % 16)];
        text[at..at + 4].copy_from_slice(&escape);
        at + 4
    }
}

// Puts up to 64 bytes as they are shown, four at most for each, at the front of the text, and answers where they end.
#[tactic(auto, using(crate::proofs::Showing::shown_more, crate::proofs::Showing::ascii_more))]
fn put_shown(text: &mut [u8; 256], bytes: &[u8]) -> usize
    requires { length bytes.now ≤ 64 }
    ensures within { result ≤ 256 }
    ensures text { take result text.new ≡ shown bytes.now }
    ensures ascii { IsAscii (shown bytes.now) }
{
    let mut end = 0;
    for byte in bytes {
        end = put_escaped(text, end, *byte);
    }
    end
}

// The text of a note, byte by byte.
#[derive(Clone, Copy)]
struct Shown<'a>(&'a [u8]);

impl fmt::Display for Shown<'_> {
    ghost output = { λ s. Some (shown s.0.now) };

    // A write for each 64 bytes: one for each byte takes three times as long. What is shown is ASCII, so that it is text.
    fn fmt<W: fmt::Write>(&self, f: &mut fmt::Formatter<W>) -> fmt::Result {
        for bytes in self.0.chunks(64) {
            let mut text = [0; 256];
            let end = put_shown(&mut text, bytes);
            f.write_str(str::from_utf8(&text[..end]).unwrap_or(""))?;
        }
        Ok(())
    }
}

// The words of a content, each after a space.
#[derive(Clone, Copy)]
struct Words<'a>(&'a [u8]);

impl fmt::Display for Words<'_> {
    ghost output = { λ w. Some (first_words (length w.0.now / 8) w.0.now) };

    fn fmt<W: fmt::Write>(&self, f: &mut fmt::Formatter<W>) -> fmt::Result {
        let (words, _) = self.0.as_chunks();
        for bytes in words {
            let word = u64::from_le_bytes(*bytes);
            write!(f, " {word}")?;
        }
        Ok(())
    }
}

// What the line of a record says after its number.
#[derive(Clone, Copy)]
pub(crate) struct Said<'a>(pub(crate) &'a Record<'a>);

impl fmt::Display for Said<'_> {
    ghost output = { λ s. Some (opening (item s.0.now) ++ details (item s.0.now)) };

    fn fmt<W: fmt::Write>(&self, f: &mut fmt::Formatter<W>) -> fmt::Result {
        match *self.0 {
            Record::Load { cache, block, word } => {
                write!(f, " load cache {cache} block {block} word {word}")
            }
            Record::Store {
                cache,
                block,
                word,
                value,
            } => write!(
                f,
                " store cache {cache} block {block} word {word} value {value}"
            ),
            Record::Deliver { channel, pick } => write!(
                f,
                " deliver channel {channel} pick {pick}"
            ),
            Record::MemoryTurn { pick } => write!(f, " memory turn pick {pick}"),
            Record::Content { block, bytes } => {
                let count = bytes.len() / 16;
                let words = Words(bytes);
                write!(f, " content block {block} count {count} words{words}")
            }
            Record::Note { text } => {
                let text = Shown(text);
                write!(f, " note {text}")
            }
        }
    }
}
