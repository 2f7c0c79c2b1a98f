ghost use Rattle.std.specs.Prelude.{◌≡◌};
ghost use Rattle.bedrock.specs.Refusals.{outcome};
ghost use Rattle.fabric.specs.Places.{place_asked};
ghost use Rattle.machine.specs.Questions.{way_asked, entry_asked, kept_asked, count_asked, length_asked, memory_asked};

use crate::state::Fabric;
use bedrock::refusal::Refusal;
use machine::holding::{Entry, Way};
use machine::order::Order;
use memory::Memory;
use messages::family::Family;
use parts::board::Board;
use parts::shown::Shown;
use wires::channel::Channel;

// Questions: what stands where, or why there is no such place. They change nothing.
impl<B: Board> Fabric<B> {
    // Whether there is such a place, or why not.
    fn find_place(&self, cache: u8, set: u8, way: u8) -> Result<(), Refusal>
        ensures { outcome (λ u. u) result ≡ place_asked (⟦<Fabric<B> as Shown>⟧.machine self.now).geometry cache set way }
    {
        let geometry = &self.parts.directory.geometry;
        if cache >= geometry.caches() {
            return Err(Refusal::NoSuchCache);
        }
        if set >= geometry.sets() || way >= geometry.ways() {
            return Err(Refusal::NoSuchSetOrWay);
        }
        Ok(())
    }

    pub fn way(&self, cache: u8, set: u8, way: u8) -> Result<Way, Refusal>
        ensures { outcome (λ v. v) result ≡ way_asked (⟦<Fabric<B> as Shown>⟧.machine self.now) cache set way }
    {
        self.find_place(cache, set, way)?;
        Ok(self.parts.ways.get(set, cache, way))
    }

    pub fn entry(&self, cache: u8, set: u8, way: u8) -> Result<Entry, Refusal>
        ensures { outcome (λ v. v) result ≡ entry_asked (⟦<Fabric<B> as Shown>⟧.machine self.now) cache set way }
    {
        self.find_place(cache, set, way)?;
        Ok(self.parts.directory.entries.get(set, cache, way))
    }

    // The order that a cache waits with, if it does.
    pub fn kept_order(&self, cache: u8) -> Result<Option<Order>, Refusal>
        ensures { outcome (λ v. v) result ≡ kept_asked (⟦<Fabric<B> as Shown>⟧.machine self.now) cache }
    {
        if cache >= self.parts.directory.geometry.caches() {
            return Err(Refusal::NoSuchCache);
        }
        Ok(self.parts.kept.get(cache))
    }

    // The pending count of a set.
    pub fn count(&self, set: u8) -> Result<u16, Refusal>
        ensures { outcome (λ v. v) result ≡ count_asked (⟦<Fabric<B> as Shown>⟧.machine self.now) set }
    {
        if set >= self.parts.directory.geometry.sets() {
            return Err(Refusal::NoSuchSetOrWay);
        }
        Ok(self.parts.counts.get(set))
    }

    // How many messages wait on a channel, 0 to 3; any other number is taken, and refused.
    pub fn length(&self, channel: u8) -> Result<usize, Refusal>
        ensures { outcome (λ v. v) result ≡ length_asked (⟦<Fabric<B> as Shown>⟧.machine self.now) channel }
    {
        Ok(match Family::try_from(channel)? {
            Family::Requests => self.parts.requests.len(),
            Family::Commands => self.parts.commands.len(),
            Family::Responses => self.parts.responses.len(),
            Family::MemoryCommands => self.parts.memory_commands.len(),
        })
    }

    // A word of the memory.
    pub fn memory_word(&self, block: u16, word: u8) -> Result<u64, Refusal>
        ensures { outcome (λ v. v) result ≡ memory_asked (⟦<Fabric<B> as Shown>⟧.machine self.now) block word }
    {
        if block >= self.parts.directory.geometry.blocks() {
            return Err(Refusal::NoSuchBlock);
        }
        if word >= 2 {
            return Err(Refusal::NoSuchWord);
        }
        Ok(self.parts.memory.read(block).get(word))
    }
}
