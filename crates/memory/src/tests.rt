use crate::Memory;
use crate::byte_image::ByteImage;
use crate::word_table::WordTable;
use bedrock::words::Words;
use std::process::Abort;

const ZEROS: Words = Words {
    first: 0,
    second: 0,
};

const SOME: Words = Words {
    first: 0x0102_0304_0506_0708,
    second: 0xFFFF_FFFF_FFFF_FFFE,
};

// A write changes its own block, and no other; past block 1,023 it changes nothing.
fn keeps<M: Memory>(rt: &impl Abort, memory: &mut M) {
    assert_eq!(rt; memory.read(1023), ZEROS);
    memory.write(1022, SOME);
    memory.write(1024, SOME);
    assert_eq!(rt; memory.read(1022), SOME);
    assert_eq!(rt; memory.read(1021), ZEROS);
    assert_eq!(rt; memory.read(1023), ZEROS);
    assert_eq!(rt; memory.read(1024), ZEROS);
    assert_eq!(rt; memory.read(0), ZEROS);
}

#[test]
fn word_table_keeps_words(rt: HostRuntime) {
    let mut memory: WordTable = Memory::new();
    keeps(&rt, &mut memory);
}

#[test]
fn byte_image_keeps_words(rt: HostRuntime) {
    let mut memory: ByteImage = Memory::new();
    keeps(&rt, &mut memory);
}
