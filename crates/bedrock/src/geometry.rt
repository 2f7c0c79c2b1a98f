ghost use Rattle.std.specs.Prelude.{◌≤◌};

pub mod sizes;

// How large a fabric is: 1 to 8 caches, 1 to 16 sets, 1 to 4 ways in each set, 1 to 1,024 blocks.
// Every geometry in existence keeps these bounds, so nothing that holds one tests them again.
#[derive(Clone, Copy, Debug, PartialEq, Eq)]
pub struct Geometry {
    caches: u8,
    sets: u8,
    ways: u8,
    blocks: u16,
    ghost somecaches: { 1 ≤ caches },
    ghost fewcaches: { caches ≤ 8 },
    ghost somesets: { 1 ≤ sets },
    ghost fewsets: { sets ≤ 16 },
    ghost someways: { 1 ≤ ways },
    ghost fewways: { ways ≤ 4 },
    ghost someblocks: { 1 ≤ blocks },
    ghost fewblocks: { blocks ≤ 1024 },
}
