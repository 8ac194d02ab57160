// A bucket as one value: taken out of the words of a wall, stepped, handed back, and stored there again.
#![tactic(auto)]

use growth::Upper;

pub mod raise;
pub mod words;

// Room for 16 words of level 1, its marks, and the upper levels: fixed memory, whatever the shape.
#[derive(Clone, Copy)]
pub struct Bucket {
    pub first: [u64; 16],
    pub marks: u64,
    pub upper: Upper,
}
