use bedrock::geometry::Geometry;
use machine::holding::Entry;
use tables::by_way::ByWay;

// The entries of a directory: a state and a block for each way of each cache in each set.
#[derive(Drop)]
pub struct Directory {
    pub geometry: Geometry,
    pub entries: ByWay<Entry>,
}
