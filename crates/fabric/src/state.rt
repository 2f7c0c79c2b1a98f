use parts::board::Board;
use parts::state::Parts;

// A fabric over a board. Its parts are its own, so that nothing but its calls moves it.
#[derive(Drop)]
pub struct Fabric<B: Board> {
    pub(crate) parts: Parts<B>,
}
