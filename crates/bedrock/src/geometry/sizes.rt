ghost use Rattle.std.specs.Prelude.{◌≡◌};
ghost use Rattle.bedrock.specs.Refusals.{outcome};
ghost use Rattle.bedrock.specs.Geometries.{sizes, judged_sizes, set_of};

use crate::geometry::Geometry;
use crate::refusal::Refusal;

impl Geometry {
    // A geometry of these sizes, or a refusal where one is out of its bounds.
    pub fn new(caches: u8, sets: u8, ways: u8, blocks: u16) -> Result<Geometry, Refusal>
        ensures { outcome sizes result ≡ judged_sizes caches sets ways blocks }
    {
        let (1..=8, 1..=16, 1..=4, 1..=1024) = (caches, sets, ways, blocks) else {
            return Err(Refusal::OutOfBounds);
        };
        Ok(Geometry {
            caches,
            sets,
            ways,
            blocks,
        })
    }

    pub fn caches(&self) -> u8
        ensures { result ≡ (sizes self.now).caches }
    {
        self.caches
    }

    pub fn sets(&self) -> u8
        ensures { result ≡ (sizes self.now).sets }
    {
        self.sets
    }

    pub fn ways(&self) -> u8
        ensures { result ≡ (sizes self.now).ways }
    {
        self.ways
    }

    pub fn blocks(&self) -> u16
        ensures { result ≡ (sizes self.now).blocks }
    {
        self.blocks
    }

    // The set that a block belongs to.
    pub fn set_of(&self, block: u16) -> u8
        ensures { result ≡ set_of (sizes self.now) block }
    {
        (block % self.sets as u16) as u8
    }
}
