// Prints what each kind of channel shows, for every count of waiting messages from 0 to 6 and every pick from 0 to 255: a row of
// 256 digits for each kind and count, each the number of the message shown, and a dot where none is.
#![tactic(auto)]

ghost use Rattle.bedrock.specs.declared.party.Party.{Party};

use bedrock::party::{Party, Routed};
use std::alloc::{AllocError, Global};
use std::io;
use std::io::Write;
use wires::channel::Channel;
use wires::paired::Paired;
use wires::single_file::SingleFile;
use wires::unordered::Unordered;

// A message that is known by its number, and goes from one party to another.
#[derive(Clone, Copy)]
struct Note {
    number: u8,
    from: Party,
    to: Party,
}

// By hand: a party has no default.
impl Default for Note {
    fn default() -> Note {
        numbered(0)
    }
}

impl Routed for Note {
    ghost from = { λ n. n.from };

    ghost to = { λ n. n.to };

    fn sender(&self) -> Party {
        self.from
    }

    fn receiver(&self) -> Party {
        self.to
    }
}

// Messages 0 and 2 go one way, 1 and 4 another, and 3 and 5 a third.
fn numbered(number: u8) -> Note {
    let (from, to) = match number {
        0 | 2 => (Party::Cache(0), Party::Directory),
        1 | 4 => (Party::Cache(1), Party::Directory),
        _ => (Party::Cache(0), Party::Cache(1)),
    };
    Note { number, from, to }
}

// What every pick shows where the messages 0 to `count` - 1 wait.
fn row<C: Channel<Note> + Drop>(
    heap: Global,
    mut channel: C,
    count: u8,
) -> Result<Vec<u8>, AllocError> {
    for number in 0..count {
        let _ = channel.add(numbered(number));
    }
    let mut row = Vec::new(heap);
    for pick in 0..=255u8 {
        let digit = channel
            .look(pick)
            .map_or(b'.', |shown| b'0' + shown.number % 10);
        row.push(digit)?;
    }
    row.push(b'\n')?;
    Ok(row)
}

// The row of a kind of channel, after its name and the count.
fn print_row<C: Channel<Note> + Drop>(rt: &HostRuntime, name: &str, count: u8) -> io::Result<()> {
    print!(rt; "{name} {count} ")?;
    let row = row(rt.alloc(), C::new(), count)?;
    rt.stdout().write_all(row.as_slice())
}

fn main(rt: HostRuntime) -> io::Result<()> {
    for count in 0..7u8 {
        print_row::<Unordered<Note>>(&rt, "unordered", count)?;
        print_row::<Paired<Note>>(&rt, "paired", count)?;
        print_row::<SingleFile<Note>>(&rt, "single file", count)?;
    }
    Ok(())
}
