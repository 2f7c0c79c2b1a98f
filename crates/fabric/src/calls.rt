ghost use Rattle.std.specs.Prelude.{◌≡◌};
ghost use Rattle.machine.specs.Runs.{deliver as deliver_step, step};
ghost use Rattle.machine.specs.Orders.{order as order_step};
ghost use Rattle.machine.specs.Responses.{memory_turn};
ghost use Rattle.machine.specs.Outcomes.{answered};
ghost use Rattle.fabric.specs.Arrivals.{index_on};

use crate::shown::Arriving;
use crate::state::Fabric;
use bedrock::refusal::Refusal;
use cache_steps::commands::deliver_command;
use cache_steps::orders::order;
use directory_steps::memory_turns::memory_turn;
use directory_steps::requests::deliver_request;
use directory_steps::responses::deliver_response;
use machine::answer::Answer;
use machine::fabric_call::FabricCall;
use machine::order::Order;
use messages::family::Family;
use parts::board::Board;
use parts::shown::Shown;
use wires::channel::Channel;

impl<B: Board> Fabric<B> {
    // A load or a store by a cache.
    pub fn order(&mut self, cache: u8, asked: Order) -> Result<Answer, Refusal>
        ensures { answered result (⟦<Fabric<B> as Shown>⟧.machine self.new) ≡ order_step (⟦<Fabric<B> as Shown>⟧.machine self.old) cache asked }
    {
        order(&mut self.parts, cache, asked)
    }

    // The message that the pick shows on channel 0, 1 or 2 arrives. The channel is a number and not a `Family`, since every number is taken, and
    // those without such a channel are refused.
    pub fn deliver(&mut self, channel: u8, pick: u8) -> Result<Answer, Refusal>
        ensures { answered result (⟦<Fabric<B> as Shown>⟧.machine self.new) ≡ deliver_step (⟦<Fabric<B> as Shown>⟧.machine self.old) channel (index_on B.Requests.chosen B.Commands.chosen B.Responses.chosen self.old channel pick) }
    {
        match Family::try_from(channel)? {
            Family::Requests => deliver_request(&mut self.parts, pick),
            Family::Commands => deliver_command(&mut self.parts, pick),
            Family::Responses => deliver_response(&mut self.parts, pick),
            Family::MemoryCommands => Err(Refusal::NoSuchChannel),
        }
    }

    // The memory carries out the command that the pick shows.
    pub fn memory_turn(&mut self, pick: u8) -> Result<Answer, Refusal>
        ensures { answered result (⟦<Fabric<B> as Shown>⟧.machine self.new) ≡ memory_turn (⟦<Fabric<B> as Shown>⟧.machine self.old) (B.MemoryCommands.chosen self.old.parts.memory_commands pick) }
    {
        memory_turn(&mut self.parts, pick)
    }

    // One of the three calls.
    pub fn call(&mut self, call: FabricCall) -> Result<Answer, Refusal>
        ensures { answered result (⟦<Fabric<B> as Shown>⟧.machine self.new) ≡ step (⟦<Fabric<B> as Shown>⟧.machine self.old) (⟦<Fabric<B> as Arriving>⟧.arriving self.old call) }
    {
        match call {
            FabricCall::Order { cache, order } => self.order(cache, order),
            FabricCall::Deliver { channel, pick } => self.deliver(channel, pick),
            FabricCall::MemoryTurn { pick } => self.memory_turn(pick),
        }
    }
}
