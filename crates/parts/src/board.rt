use memory::Memory;
use messages::command::Command;
use messages::memory_command::MemoryCommand;
use messages::request::Request;
use messages::response::Response;
use protocols::protocol::Protocol;
use std::marker::PhantomData;
use wires::channel::Channel;
use wires::wire::Wire;

// What a fabric is built over: a protocol, a channel for each of the four families of messages, and a memory.
pub trait Board {
    type Protocol: Protocol;

    type Requests: Channel<Request>;

    type Commands: Channel<Command>;

    type Responses: Channel<Response>;

    type MemoryCommands: Channel<MemoryCommand>;

    type Memory: Memory;
}

// The board of any six such types. It has no values: it only names them.
pub struct Wiring<P, Q, C, R, D, M> {
    of: PhantomData<(P, Q, C, R, D, M)>,
}

impl<
    P: Protocol,
    Q: Channel<Request>,
    C: Channel<Command>,
    R: Channel<Response>,
    D: Channel<MemoryCommand>,
    M: Memory,
> Board for Wiring<P, Q, C, R, D, M> {
    type Protocol = P;

    type Requests = Q;

    type Commands = C;

    type Responses = R;

    type MemoryCommands = D;

    type Memory = M;
}

// A board whose four channels are wires of one kind.
pub type Uniform<P, K, M> = Wiring<
    P,
    Wire<Request, K>,
    Wire<Command, K>,
    Wire<Response, K>,
    Wire<MemoryCommand, K>,
    M,
>;
