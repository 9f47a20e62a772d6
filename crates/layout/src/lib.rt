// The five kinds of floppy image, and where things lie on each: one record that all else is written over.
#![tactic(auto)]

ghost use Rattle.std.specs.Prelude.{◌≡◌};
ghost use Rattle.layout.specs.Layouts.{layout_of, s900, s1000, s3000, blocks_of, first_data_of, length_of};

// The sampler whose disk it is, with its number.
#[derive(Clone, Copy, Debug, PartialEq, Eq)]
pub enum Kind {
    S900 = 900,
    S1000 = 1000,
    S3000 = 3000,
}

// With the number that tells it.
#[derive(Clone, Copy, Debug, PartialEq, Eq)]
pub enum Density {
    Low = 0,
    High = 1,
}

// What a kind and a density fix (document 01, "The disk"). Every function and every proof above takes these from a
// layout; only `layout_of` names them.
#[derive(Clone, Copy, Debug, PartialEq, Eq)]
pub struct Layout {
    // blocks of 1,024 bytes on the image, and the first that holds a file's bytes
    pub blocks: usize,
    pub first: usize,
    // entries of the directory, and the offset of the first
    pub slots: usize,
    pub directory: usize,
    // whether that is the second directory, the first one, at offset 0, being passed over
    pub second: bool,
    // the map value that ends a chain
    pub mark: usize,
    // how many blocks, from block 0 on, must hold the system value in the map, and that value
    pub system: usize,
    pub reserved: usize,
    // a name's length, the range of its bytes on the disk, and whether these are AKAII
    pub letters: usize,
    pub low: usize,
    pub high: usize,
    pub akaii: bool,
    // what fills the name's area of 16 bytes: its bytes after the name, but for the last, and the last
    pub pad: usize,
    pub last: usize,
    // the range of a type byte
    pub least: usize,
    pub most: usize,
    // an entry's two identity bytes as a number
    pub identity: usize,
}

fn blocks_of(density: Density) -> usize
    ensures { result ≡ blocks_of density }
{
    match density {
        Density::Low => 800,
        Density::High => 1600,
    }
}

// The bytes of an image of that density.
pub fn image_length(density: Density) -> usize
    ensures { result ≡ length_of density }
{
    match density {
        Density::Low => 819200,
        Density::High => 1638400,
    }
}

fn first_of(density: Density) -> usize
    ensures { result ≡ first_data_of density }
{
    match density {
        Density::Low => 4,
        Density::High => 5,
    }
}

// The figures of the S900 and the S1000 differ in nearly every line, so each stands whole; no parameter would say less.
fn s900_layout(blocks: usize, first: usize) -> Layout
    ensures { result ≡ s900 blocks first }
{
    Layout {
        blocks,
        first,
        slots: 64,
        directory: 0,
        second: false,
        mark: 32768,
        system: 0,
        reserved: 0,
        letters: 10,
        low: 32,
        high: 126,
        akaii: false,
        pad: 0,
        last: 0,
        least: 65,
        most: 90,
        identity: 0,
    }
}

fn s1000_layout(blocks: usize, first: usize) -> Layout
    ensures { result ≡ s1000 blocks first }
{
    Layout {
        blocks,
        first,
        slots: 64,
        directory: 0,
        second: false,
        mark: 49152,
        system: first,
        reserved: 16384,
        letters: 12,
        low: 0,
        high: 40,
        akaii: true,
        pad: 32,
        last: 32,
        least: 97,
        most: 122,
        identity: 768,
    }
}

// End mark, system blocks and letters are as on an S1000 disk whose first data block is 17.
fn s3000_layout(blocks: usize) -> Layout
    ensures { result ≡ s3000 blocks }
{
    Layout {
        slots: 512,
        directory: 5120,
        second: true,
        pad: 0,
        last: 2,
        least: 193,
        most: 218,
        identity: 3072,
        ..s1000_layout(blocks, 17)
    }
}

// The layout of a kind and a density.
pub fn layout_of(kind: Kind, density: Density) -> Layout
    ensures { result ≡ layout_of kind density }
{
    let blocks = blocks_of(density);
    let first = first_of(density);
    match kind {
        Kind::S900 => s900_layout(blocks, first),
        Kind::S1000 => s1000_layout(blocks, first),
        Kind::S3000 => s3000_layout(blocks),
    }
}
