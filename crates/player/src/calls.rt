ghost use Rattle.std.specs.Prelude.{◌≡◌, IfOk};
ghost use Rattle.std.specs.Option.{option_to_list};
ghost use Rattle.sheet.specs.Records.{item};
ghost use Rattle.sheet.specs.Readings.{reading};
ghost use Rattle.sheet.specs.Reads.{left};
ghost use Rattle.player.specs.Calls.{call_of, calls_in, items_in};
ghost use Rattle.player.specs.Contents.{starting_content};

use crate::contents::take_record;
use machine::fabric_call::FabricCall;
use machine::order::Order;
use memory::Memory;
use sheet::reader::Reader;
use sheet::records::Record;
use std::alloc::{AllocError, Global};

// The call of the fabric that a record is; a content and a note are none.
pub(crate) fn call_in(rec: &Record<'_>) -> Option<FabricCall>
    ensures { option_to_list result ≡ call_of (item rec.now) }
{
    match *rec {
        Record::Load { cache, block, word } => Some(FabricCall::Order {
            cache,
            order: Order::Load { block, word },
        }),
        Record::Store {
            cache,
            block,
            word,
            value,
        } => Some(FabricCall::Order {
            cache,
            order: Order::Store { block, word, value },
        }),
        Record::Deliver { channel, pick } => Some(FabricCall::Deliver { channel, pick }),
        Record::MemoryTurn { pick } => Some(FabricCall::MemoryTurn { pick }),
        Record::Content { .. } | Record::Note { .. } => None,
    }
}

// Reads all records that are left: the contents that come before every call go into the memory, and the calls are handed back.
pub(crate) fn load_records<M: Memory>(
    heap: Global,
    reader: &mut Reader<'_>,
    blocks: u16,
    memory: &mut M,
) -> Result<Vec<FabricCall>, AllocError>
    ensures { IfOk result (λ v. (v.items ≡ calls_in (items_in (reading (left reader.old)))) × (M.Memory.blocks memory.new ≡ starting_content blocks (M.Memory.blocks memory.old) (items_in (reading (left reader.old))))) }
{
    let mut calls = Vec::new(heap);
    while let Ok(Some(rec)) = reader.next_record() {
        take_record(memory, blocks, calls.is_empty(), &rec);
        if let Some(call) = call_in(&rec) {
            calls.push(call)?;
        }
    }
    Ok(calls)
}
