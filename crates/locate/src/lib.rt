// Which blocks hold a slot's file, on any bytes. A caller that keeps images elsewhere fetches these and the first 17,408 bytes alone: a page
// reads no other (`page_enough`).
#![tactic(auto)]

ghost use Rattle.std.specs.Prelude.{◌≡◌, ◌≤◌, length};
ghost use Rattle.laws.specs.Refusals.{filled};
ghost use Rattle.laws.specs.Splice.{splice};
ghost use Rattle.locate.specs.Locate.{file_blocks, storing, blocks_of};

use laws::Refusal;
use rules::Accepted;
use slots::Head;

// Copies blocks to the output's front.
fn copy_blocks(list: &[u16], out: &mut [u16])
    requires { length list.now ≤ length out.old }
    ensures { out.new ≡ splice out.old 0 list.now }
{
    out[..list.len()].copy_from_slice(list);
}

// The blocks of a slot's file of an accepted image: 10, 21.
fn slot_blocks(disk: &calls::Disk, slot: usize, out: &mut [u16]) -> Result<usize, Refusal>
    ensures { filled result out.new ≡ storing (file_blocks disk.now.layout disk.now.image.now slot) out.old }
{
    let calls::Disk { image, layout } = *disk;
    let head = Head {
        bytes: image,
        layout,
    };
    if slot >= layout.slots || !head.is_used(slot) {
        return Err(Refusal::NoFile);
    }
    let size = head.size_of(slot);
    let start = head.start_of(slot);
    let chain = map::chain_blocks(image, layout, (size - 1) / 1024, start);
    let listed = chain.as_slice();
    if out.len() < listed.len() {
        return Err(Refusal::OutputTooShort);
    }
    copy_blocks(listed, out);
    Ok(listed.len())
}

// The blocks of a slot's file, in order, to the front of the output, and how many they are.
pub fn file_blocks(image: &[u8], slot: usize, out: &mut [u16]) -> Result<usize, Refusal>
    ensures { filled result out.new ≡ blocks_of image.now slot out.old }
{
    let Accepted { kind, density, .. } = disk::check(image)?;
    let layout = layout::layout_of(kind, density);
    slot_blocks(&calls::Disk { image, layout }, slot, out)
}
