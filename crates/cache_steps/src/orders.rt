ghost use Rattle.std.specs.Prelude.{◌≡◌, suc, ◌<◌, length, if◌then◌else◌, Ok, nat_lt};
ghost use Rattle.machine.specs.Orders.{finish as finish_step, ask_for, ask_for_new, miss as miss_step, order_at, holding_way, empty_way, order as order_step};
ghost use Rattle.machine.specs.Outcomes.{answered};

use bedrock::refusal::Refusal;
use bedrock::words::Words;
use machine::answer::Answer;
use machine::holding::Way;
use machine::order::Order;
use messages::request::Request;
use parts::board::Board;
use parts::shown::Shown;
use parts::state::Parts;
use protocols::state::State;
use wires::channel::Channel;

// The turn number after it was used: one up, back to 0 after the last way.
fn next_turn(turn: u8, ways: u8) -> u8
    ensures { result ≡ (if nat_lt (suc turn) ways then suc turn else 0) }
{
    if turn < ways.saturating_sub(1) {
        turn + 1
    } else {
        0
    }
}

// Carries out an order at a way that has the block's words in a state, each named apart, as in the definition: a load answers its word, a store replaces it and leaves M.
pub(crate) fn finish<B: Board>(
    parts: &mut Parts<B>,
    set: u8,
    cache: u8,
    way: u8,
    state: State,
    words: Words,
    asked: Order,
) -> Answer
    ensures { answered (Ok result) (⟦<Parts<B> as Shown>⟧.machine parts.new) ≡ finish_step (⟦<Parts<B> as Shown>⟧.machine parts.old) set cache way state words asked }
{
    match asked {
        Order::Load { block, word } => {
            parts
                .ways
                .put(set, cache, way, Way::holding(state, block, words));
            Answer::Loaded {
                cache,
                value: words.get(word),
            }
        }
        Order::Store { block, word, value } => {
            parts.ways.put(
                set,
                cache,
                way,
                Way::holding(State::M, block, words.with(word, value)),
            );
            Answer::Stored { cache, value }
        }
    }
}

// The way in which a cache holds a block.
fn holding_way<B: Board>(parts: &Parts<B>, cache: u8, block: u16) -> Option<u8>
    ensures { result ≡ holding_way (⟦<Parts<B> as Shown>⟧.machine parts.now) cache block }
{
    let set = parts.home(block);
    (0..parts.directory.geometry.ways()).find(|way| {
        let held = parts.ways.get(set, cache, *way);
        held.state.held() && held.block == block
    })
}

// The lowest way of a cache in a set that is in I.
fn empty_way<B: Board>(parts: &Parts<B>, cache: u8, set: u8) -> Option<u8>
    ensures { result ≡ empty_way (⟦<Parts<B> as Shown>⟧.machine parts.now) set cache }
{
    (0..parts.directory.geometry.ways()).find(|way| !parts.ways.get(set, cache, *way).state.held())
}

// That a channel has room is a `requires` of each step, and no invariant: it holds at that moment alone. Each names its own channel and number.

// The cache keeps the order and waits, and a request goes out that names the way.
fn ask_for<B: Board>(parts: &mut Parts<B>, cache: u8, asked: Order, way: u8) -> Answer
    requires { length (B.Requests.waiting parts.old.requests) < 128 }
    ensures { answered (Ok result) (⟦<Parts<B> as Shown>⟧.machine parts.new) ≡ ask_for (⟦<Parts<B> as Shown>⟧.machine parts.old) cache asked way }
{
    parts.kept.put(cache, Some(asked));
    let _ = parts.requests.add(Request {
        access: asked.access(),
        cache,
        block: asked.block(),
        way,
    });
    Answer::MovedOn
}

// A miss without a way that holds the block takes the lowest in I, else the one that the turn number names, which then steps.
fn ask_for_new<B: Board>(parts: &mut Parts<B>, cache: u8, asked: Order, set: u8) -> Answer
    requires { length (B.Requests.waiting parts.old.requests) < 128 }
    ensures { answered (Ok result) (⟦<Parts<B> as Shown>⟧.machine parts.new) ≡ ask_for_new (⟦<Parts<B> as Shown>⟧.machine parts.old) cache asked set }
{
    match empty_way(parts, cache, set) {
        Some(way) => ask_for(parts, cache, asked, way),
        None => {
            let turn = parts.turns.get(set, cache);
            parts.turns.put(set, cache, next_turn(turn, parts.directory.geometry.ways()));
            ask_for(parts, cache, asked, turn)
        }
    }
}

// An order that misses, with the way that holds its block if there is one.
fn miss<B: Board>(
    parts: &mut Parts<B>,
    cache: u8,
    asked: Order,
    at: Option<u8>,
) -> Result<Answer, Refusal>
    ensures { answered result (⟦<Parts<B> as Shown>⟧.machine parts.new) ≡ miss_step (⟦<Parts<B> as Shown>⟧.machine parts.old) cache asked at }
{
    if parts.requests.len() >= 128 {
        return Err(Refusal::NoRoom);
    }
    match at {
        Some(way) => Ok(ask_for(parts, cache, asked, way)),
        None => {
            let set = parts.home(asked.block());
            Ok(ask_for_new(parts, cache, asked, set))
        }
    }
}

// An order of a cache that does not wait: a hit is finished, a miss waits.
fn order_at<B: Board>(
    parts: &mut Parts<B>,
    cache: u8,
    asked: Order,
    at: Option<u8>,
) -> Result<Answer, Refusal>
    ensures { answered result (⟦<Parts<B> as Shown>⟧.machine parts.new) ≡ order_at (⟦<Parts<B> as Shown>⟧.machine parts.old) cache asked at }
{
    match at {
        None => miss(parts, cache, asked, None),
        Some(way) => {
            let set = parts.home(asked.block());
            let held = parts.ways.get(set, cache, way);
            if asked.hits(held.state) {
                return Ok(finish(parts, set, cache, way, held.state, held.words, asked));
            }
            miss(parts, cache, asked, Some(way))
        }
    }
}

// A load or a store by a cache.
pub fn order<B: Board>(parts: &mut Parts<B>, cache: u8, asked: Order) -> Result<Answer, Refusal>
    ensures { answered result (⟦<Parts<B> as Shown>⟧.machine parts.new) ≡ order_step (⟦<Parts<B> as Shown>⟧.machine parts.old) cache asked }
{
    if cache >= parts.directory.geometry.caches() {
        return Err(Refusal::NoSuchCache);
    }
    if asked.block() >= parts.directory.geometry.blocks() {
        return Err(Refusal::NoSuchBlock);
    }
    if asked.word() >= 2 {
        return Err(Refusal::NoSuchWord);
    }
    match parts.kept.get(cache) {
        Some(_) => Err(Refusal::CacheWaits),
        None => {
            let at = holding_way(parts, cache, asked.block());
            order_at(parts, cache, asked, at)
        }
    }
}
