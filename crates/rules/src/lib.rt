// What the check and the salvage run tell of an image; what it means is in specs/.
#![tactic(auto)]

use layout::{Density, Kind};

// An accepted image's kind and density, and its counts of files and free blocks.
#[derive(Clone, Copy)]
pub struct Accepted {
    pub kind: Kind,
    pub density: Density,
    pub files: usize,
    pub free: usize,
}

// The kind and density that an image's length and its slots' identities say.
#[derive(Clone, Copy)]
pub struct Format {
    pub kind: Kind,
    pub density: Density,
}
