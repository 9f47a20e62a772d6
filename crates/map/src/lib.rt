// The map: its values, the blocks of a chain, lists of blocks, and what put and remove do to it.
// Only the crates above call these. `Fits` is met by the image's checked length, `Chained` by the check's walk of that chain.
#![tactic(auto)]

ghost use Rattle.std.specs.Prelude.{◌≡◌, ℕ, ◌+◌, ◌^◌, ◌≤◌, ◌<◌, length, take, drop, get_or};
ghost use Rattle.laws.specs.Reader.{bytes};
ghost use Rattle.laws.specs.Member.{In};
ghost use Rattle.layout.specs.Right.{LayoutRight};
ghost use Rattle.layout.specs.Layouts.{map_offset};
ghost use Rattle.map.specs.Map.{map_at, Fits, is_link, chain, Chained, free_blocks, Collected, set_map, first_or, link_blocks, set_all, touched, marked};

mod collection;

pub use collection::Blocks;

// The map value of a block.
pub fn map_at(image: &[u8], block: usize) -> usize
    requires { map_offset block + 2 ≤ length image.now }
    ensures { result ≡ map_at (bytes image.now) block }
{
    blocks::number::<2>(image, 1536 + 2 * block)
}

// Stores the map value of a block.
#[tactic(auto, unfolding(crate::specs::Map::set_map))]
pub fn set_map(image: &mut [u8], block: usize, value: usize)
    requires { map_offset block + 2 ≤ length image.old }
    ensures { image.new ≡ set_map image.old block value }
{
    blocks::store::<2>(image, 1536 + 2 * block, value);
}

// Whether a map value, or a start, names a data block.
#[tactic(auto, using(laws::proofs::Tests::below_told), unfolding(crate::specs::Map::is_link))]
pub fn is_link(layout: layout::Layout, value: usize) -> bool
    ensures { result ≡ is_link layout value }
{
    (layout.first..layout.blocks).contains(&value)
}

// Follows a block's link, and counts it where it does: the counter is lent down to here (docs/DECISIONS.md, "What a page costs").
fn follow(image: &[u8], block: usize, followed: &mut usize) -> usize
    requires { (map_offset block + 2 ≤ length image.now) × (followed.old + 1 < 2 ^ 64) }
    ensures value { result ≡ map_at (bytes image.now) block }
    ensures followed_after { followed.new ≡ followed.old + 1 }
{
    *followed += 1;
    map_at(image, block)
}

// The n-th block of a faultless chain, from 0 on; the links followed to it are added to those counted.
pub fn nth_block(
    image: &[u8],
    layout: layout::Layout,
    links: usize,
    start: usize,
    n: usize,
    followed: &mut usize,
) -> usize
    requires { Fits layout image.now × Chained layout (map_at (bytes image.now)) links start × (n ≤ links) × (followed.old + n < 2 ^ 64) }
    ensures value { result ≡ get_or (chain (map_at (bytes image.now)) links start) n 0 }
    ensures followed_after { followed.new ≡ followed.old + n }
{
    let mut block = start;
    for _ in 0..n {
        block = follow(image, block, followed);
    }
    block
}

// All blocks of a faultless chain.
pub fn chain_blocks(image: &[u8], layout: layout::Layout, links: usize, start: usize) -> Blocks
    requires { Fits layout image.now × LayoutRight layout × Chained layout (map_at (bytes image.now)) links start }
    ensures { Collected (chain (map_at (bytes image.now)) links start) result }
{
    let mut blocks = Blocks {
        list: [0; 1600],
        count: links + 1,
    };
    let mut block = start;
    for k in 0..links {
        blocks.list[k] = block as u16;
        block = map_at(image, block);
    }
    blocks.list[links] = block as u16;
    blocks
}

// As many free blocks as wanted, or all there are: the lowest, in rising order.
pub fn free_blocks(image: &[u8], layout: layout::Layout, wanted: usize) -> Blocks
    requires { Fits layout image.now × LayoutRight layout }
    ensures { Collected (take wanted (free_blocks layout (map_at (bytes image.now)))) result }
{
    let mut blocks = Blocks {
        list: [0; 1600],
        count: 0,
    };
    for block in layout.first..layout.blocks {
        if blocks.count == wanted {
            break;
        }
        if map_at(image, block) == 0 {
            blocks.list[blocks.count] = block as u16;
            blocks.count += 1;
        }
    }
    blocks
}

// The k-th of some blocks, which are all below an end.
pub fn block_of(list: &[u16], k: usize, end: usize) -> usize
    requires { (k < length list.now) × ((b : ℕ) → In b list.now → b < end) }
    ensures { (result ≡ get_or list.now k 0) × (result < end) }
{
    usize::from(list[k])
}

// The map value of the k-th block of a chain: the next block, or the end mark.
fn next_of(list: &[u16], k: usize, mark: usize) -> usize
    requires { k < length list.now }
    ensures { result ≡ first_or (drop (k + 1) list.now) mark }
{
    match list.get(k + 1) {
        Some(&next) => usize::from(next),
        None => mark,
    }
}

// Chains blocks in order, and ends the chain.
pub fn link_blocks(image: &mut [u8], layout: layout::Layout, chosen: &[u16])
    requires { Fits layout image.old × ((b : ℕ) → In b chosen.now → b < layout.blocks) }
    ensures { image.new ≡ link_blocks image.old chosen.now layout.mark }
{
    let end = layout.blocks;
    for k in 0..chosen.len() {
        set_map(
            image,
            block_of(chosen, k, end),
            next_of(chosen, k, layout.mark),
        );
    }
}

// Frees blocks.
pub fn clear_blocks(image: &mut [u8], layout: layout::Layout, freed: &[u16])
    requires { Fits layout image.old × ((b : ℕ) → In b freed.now → b < layout.blocks) }
    ensures { image.new ≡ set_all image.old freed.now 0 }
{
    for &block in freed {
        set_map(image, usize::from(block), 0);
    }
}

// Marks blocks.
pub fn mark_blocks(marks: &mut [bool; 1600], list: &[u16])
    requires { (b : ℕ) → In b list.now → b < 1600 }
    ensures { marks.new ≡ marked marks.old list.now }
{
    for &block in list {
        marks[usize::from(block)] = true;
    }
}

// Whether a faultless chain has a marked block.
pub fn touches(
    image: &[u8],
    layout: layout::Layout,
    marks: &[bool; 1600],
    links: usize,
    start: usize,
) -> bool
    requires { Fits layout image.now × LayoutRight layout × Chained layout (map_at (bytes image.now)) links start }
    ensures { result ≡ touched marks.now (chain (map_at (bytes image.now)) links start) }
{
    let mut block = start;
    for _ in 0..links {
        if marks[block] {
            return true;
        }
        block = map_at(image, block);
    }
    marks[block]
}

// Marks the blocks of a faultless chain.
pub fn mark_chain(
    image: &[u8],
    layout: layout::Layout,
    marks: &mut [bool; 1600],
    links: usize,
    start: usize,
)
    requires { Fits layout image.now × LayoutRight layout × Chained layout (map_at (bytes image.now)) links start }
    ensures { marks.new ≡ marked marks.old (chain (map_at (bytes image.now)) links start) }
{
    let mut block = start;
    for _ in 0..links {
        marks[block] = true;
        block = map_at(image, block);
    }
    marks[block] = true;
}
