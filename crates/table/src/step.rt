// Along a list: what an overflow block says of the way on, and what stands before the last.
use keys::BlockNumber;

// One step along a list. Three cases, and no Option or Result has three: one in the other would be a tag inside a tag.
#[derive(Clone, Copy)]
pub enum Step {
    Last,
    Further(BlockNumber),
    Damage,
}

// What stands before the last overflow block of a list: its basic block, or another overflow block. No Option: before a list's
// first overflow block stands its basic block, which is something.
#[derive(Clone, Copy)]
pub enum Before {
    Basic,
    Block(BlockNumber),
}
