ghost use Rattle.bedrock.specs.declared.party.Party.TheVariants.{Cache, Directory};

use crate::channel::Channel;
use crate::paired::Paired;
use crate::single_file::SingleFile;
use crate::tests::alternating::Alternating;
use crate::unordered::Unordered;
use bedrock::party::{Party, Routed};
use std::test::Fail;

mod alternating;

// A message from a cache to the directory, told apart from others by its tag.
#[derive(Clone, Copy, Default)]
struct Note {
    cache: u8,
    tag: u8,
}

impl Routed for Note {
    ghost from = { λ n. Cache n.cache };

    ghost to = { λ _. Directory };

    fn sender(&self) -> Party {
        Party::Cache(self.cache)
    }

    fn receiver(&self) -> Party {
        Party::Directory
    }
}

// The tag of a note, or 255 where there is none, so that a test compares numbers alone.
fn tag(shown: Option<Note>) -> u8 {
    shown.map_or(255, |note| note.tag)
}

// Adds four notes, tagged 0 to 3, from cache 5 and cache 6 in turn.
fn fill<C: Channel<Note>>(channel: &mut C) -> Result<(), Fail> {
    channel.add(Note { cache: 5, tag: 0 })?;
    channel.add(Note { cache: 6, tag: 1 })?;
    channel.add(Note { cache: 5, tag: 2 })?;
    channel.add(Note { cache: 6, tag: 3 })?;
    Ok(())
}

#[test]
fn unordered_shows_any(rt: HostRuntime) -> Result<(), Fail> {
    let mut channel: Unordered<Note> = Channel::new();
    assert_eq!(rt; tag(channel.look(9)), 255);
    fill(&mut channel)?;
    assert_eq!(rt; tag(channel.look(255)), 3);
    assert_eq!(rt; tag(channel.take(6)), 2);
    assert_eq!(rt; tag(channel.take(2)), 3);
    assert_eq!(rt; tag(channel.take(0)), 0);
    assert_eq!(rt; channel.len(), 1);
    Ok(())
}

#[test]
fn paired_shows_the_oldest_of_the_pair(rt: HostRuntime) -> Result<(), Fail> {
    let mut channel: Paired<Note> = Channel::new();
    fill(&mut channel)?;
    assert_eq!(rt; tag(channel.look(2)), 0);
    assert_eq!(rt; tag(channel.take(3)), 1);
    assert_eq!(rt; tag(channel.look(2)), 3);
    assert_eq!(rt; channel.len(), 3);
    Ok(())
}

#[test]
fn single_file_shows_the_oldest(rt: HostRuntime) -> Result<(), Fail> {
    let mut channel: SingleFile<Note> = Channel::new();
    fill(&mut channel)?;
    assert_eq!(rt; tag(channel.take(3)), 0);
    assert_eq!(rt; tag(channel.look(2)), 1);
    Ok(())
}

#[test]
fn a_full_channel_refuses(rt: HostRuntime) -> Result<(), Fail> {
    let mut channel: Unordered<Note> = Channel::new();
    for tag in 0..128 {
        channel.add(Note { cache: 5, tag })?;
    }
    assert!(rt; channel.add(Note { cache: 5, tag: 200 }).is_err());
    assert_eq!(rt; channel.len(), 128);
    assert_eq!(rt; tag(channel.look(127)), 127);
    Ok(())
}

#[test]
fn a_channel_may_keep_a_state_of_its_own(rt: HostRuntime) -> Result<(), Fail> {
    let mut channel: Alternating<Note> = Channel::new();
    fill(&mut channel)?;
    assert_eq!(rt; tag(channel.take(0)), 0);
    assert_eq!(rt; tag(channel.take(0)), 3);
    assert_eq!(rt; tag(channel.take(0)), 1);
    Ok(())
}
