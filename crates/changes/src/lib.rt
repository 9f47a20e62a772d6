// What put and remove do to an accepted image, once the record has granted them a slot.
// Only the public calls call these: the image's length and chains are the check's, slot, name and room the record's judgement.
#![tactic(auto)]

ghost use Rattle.std.specs.Prelude.{◌≡◌, ℕ, ◌+◌, ◌≤◌, ◌<◌, length};
ghost use Rattle.laws.specs.Reader.{bytes};
ghost use Rattle.laws.specs.Member.{In};
ghost use Rattle.layout.specs.Layouts.{image_length};
ghost use Rattle.layout.specs.Right.{LayoutRight};
ghost use Rattle.blocks.specs.Blocks.{blocks_for, links_for, write_blocks};
ghost use Rattle.map.specs.Map.{map_at, Chained};
ghost use Rattle.image.specs.Image.{view_of, set_entry, remove_image};
ghost use Rattle.changes.specs.Changes.{entry_with, put_area, Puttable};

use slots::Head;

// Stores content in blocks, each block of it in its own part of the image, which is lent to the block writer.
fn write_blocks(image: &mut [u8], layout: layout::Layout, chosen: &[u16], content: &[u8])
    requires { (length image.old ≡ image_length layout) × (layout.blocks ≤ 1600) × ((b : ℕ) → In b chosen.now → b < layout.blocks) × (blocks_for (length content.now) ≡ length chosen.now) }
    ensures { image.new ≡ write_blocks image.old chosen.now content.now }
{
    for (&block, part) in chosen.iter().zip(content.chunks(1024)) {
        let at = 1024 * usize::from(block);
        blocks::write_block(&mut image[at..at + 1024], part);
    }
}

// Writes a slot's 24 bytes.
fn write_entry(
    image: &mut [u8],
    at: usize,
    area: [u8; 16],
    letter: u8,
    size: usize,
    start: usize,
    identity: usize,
)
    requires { at + 24 ≤ length image.old }
    ensures { image.new ≡ set_entry image.old at (entry_with area letter size start identity) }
{
    blocks::copy_part(&area, 0, image, at, 16);
    image[at + 16] = letter;
    blocks::store::<3>(image, at + 17, size);
    blocks::store::<2>(image, at + 20, start);
    blocks::store::<2>(image, at + 22, identity);
}

// Puts a file whose name has this area into a slot: its content in the lowest free blocks, in rising order.
pub fn put_slot(
    image: &mut [u8],
    layout: layout::Layout,
    slot: usize,
    area: [u8; 16],
    letter: u8,
    content: &[u8],
)
    requires { Puttable layout image.old slot content.now }
    ensures { image.new ≡ put_area layout image.old slot area letter content.now }
{
    let end = layout.blocks;
    let at = layout.directory + 24 * slot;
    let free = map::free_blocks(image, layout, content.len().div_ceil(1024));
    let chosen = free.as_slice();
    write_blocks(image, layout, chosen, content);
    map::link_blocks(image, layout, chosen);
    let start = map::block_of(chosen, 0, end);
    write_entry(
        image,
        at,
        area,
        letter,
        content.len(),
        start,
        layout.identity,
    );
}

// Removes a used slot's file: zeros for all of the slot but its identity, its chain's blocks free.
pub fn remove_slot(image: &mut [u8], layout: layout::Layout, slot: usize)
    requires { LayoutRight layout × (length image.old ≡ image_length layout) × (slot < layout.slots) × (1 ≤ ((view_of layout (bytes image.old)).entry slot).size) × Chained layout (map_at (bytes image.old)) (links_for ((view_of layout (bytes image.old)).entry slot).size) ((view_of layout (bytes image.old)).entry slot).start }
    ensures { image.new ≡ remove_image layout image.old slot }
{
    let at = layout.directory + 24 * slot;
    let head = Head {
        bytes: image,
        layout,
    };
    let size = head.size_of(slot);
    let start = head.start_of(slot);
    let owned = map::chain_blocks(image, layout, (size - 1) / 1024, start);
    map::clear_blocks(image, layout, owned.as_slice());
    blocks::clear(image, at, 22);
}
