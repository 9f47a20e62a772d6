// The map of an image's head: refusals 3 and 6 to 9, and the free blocks counted.
// Only the check and the salvage run call these; that directory and map lie in the head is told by its type, or asked where a page names the function.
#![tactic(auto)]

ghost use Rattle.std.specs.Prelude.{◌≡◌, false, ◌+◌, ◌-◌, ◌≤◌, ◌<◌, length, get_or, replicate, None};
ghost use Rattle.laws.specs.Reader.{bytes};
ghost use Rattle.laws.specs.Scan.{lowest, count};
ghost use Rattle.layout.specs.Layouts.{block_offset, slot_offset};
ghost use Rattle.layout.specs.Right.{LayoutRight};
ghost use Rattle.blocks.specs.Blocks.{links_for};
ghost use Rattle.map.specs.Map.{map_at, free_count, Marks};
ghost use Rattle.view.specs.Disk.{owned};
ghost use Rattle.view.specs.Rules.{bad_system, broken, sharing, stray};
ghost use Rattle.image.specs.Image.{view_of};
ghost use Rattle.chains.specs.Passes.{Followed, chain_rules, or_free, taken};

use laws::Refusal;
use slots::Head;

// The lowest system block that doesn't hold the system value (refusal 3).
pub fn system_fault(head: Head) -> Option<usize>
    ensures { result ≡ lowest (bad_system head.entry.layout (view_of head.entry.layout (bytes head.entry.bytes.now))) 0 head.entry.layout.system }
{
    (0..head.layout.system).find(|&block| map::map_at(head.bytes, block) != head.layout.reserved)
}

// How many blocks of a slot's chain come after the first.
pub fn links_of(head: &[u8], layout: layout::Layout, slot: usize) -> usize
    requires { slot_offset layout slot + 24 ≤ length head.now }
    ensures { result ≡ links_for ((view_of layout (bytes head.now)).entry slot).size }
{
    slots::size_of(head, layout, slot).saturating_sub(1) / 1024
}

// The lowest slot whose chain has a fault, refused by the chain's first one (6 or 7). The marks are left as those of all chains where
// there is none. The loop over the slots counts by hand: its form is fixed (a labelled break yields the fault), and no `for` yields a value.
fn chain_fault(head: Head, marks: &mut [bool; 1600]) -> Result<(), Refusal>
    requires { marks.old ≡ replicate 1600 false }
    ensures { Followed head.entry.layout (view_of head.entry.layout (bytes head.entry.bytes.now)) marks.new result }
{
    let end = head.layout.slots;
    let mark = head.layout.mark;
    let mut next = 0;
    let fault = 'slots: loop {
        if end <= next {
            break 'slots Ok(());
        }
        let slot = next;
        next += 1;
        if !head.is_used(slot) {
            continue 'slots;
        }
        let mut left = links_of(head.bytes, head.layout, slot);
        let mut block = head.start_of(slot);
        let place = slot;
        loop {
            if !map::is_link(head.layout, block) {
                break 'slots Err(Refusal::AstrayChain(place));
            }
            marks[block] = true;
            let value = map::map_at(head.bytes, block);
            if left == 0 {
                if value == mark {
                    continue 'slots;
                }
                break 'slots Err(Refusal::MiscountedChain(place));
            }
            if value == mark {
                break 'slots Err(Refusal::MiscountedChain(place));
            }
            block = value;
            left -= 1;
        }
    };
    fault
}

// How many blocks the chains of all slots have.
fn count_chained(head: Head) -> usize
    requires { lowest (broken head.layout (view_of head.layout (bytes head.bytes.now))) 0 head.layout.slots ≡ None }
    ensures { result ≡ length (owned (view_of head.entry.layout (bytes head.entry.bytes.now)) head.entry.layout.slots) }
{
    let mut blocks = 0;
    for slot in 0..head.layout.slots {
        if head.is_used(slot) {
            blocks += links_of(head.bytes, head.layout, slot) + 1;
        }
    }
    blocks
}

// How many data blocks are marked. Counted in 16 bits, so that the compiler adds eight at a time.
fn count_marked(head: Head, marks: &[bool; 1600]) -> usize
    ensures { result ≡ count (λ b. get_or marks.now b false) head.entry.layout.first (head.entry.layout.blocks - head.entry.layout.first) }
{
    let mut marked = 0u16;
    for &mark in &marks[head.layout.first..head.layout.blocks] {
        if mark {
            marked += 1;
        }
    }
    usize::from(marked)
}

// The lowest slot whose chain shares a block with a lower slot's, by walking the chains in turn: its own comes upon a block marked before.
fn share_fault(head: Head, marks: &mut [bool; 1600]) -> Option<usize>
    requires { (lowest (broken head.layout (view_of head.layout (bytes head.bytes.now))) 0 head.layout.slots ≡ None) × (marks.old ≡ replicate 1600 false) }
    ensures { result ≡ lowest (sharing head.entry.layout (view_of head.entry.layout (bytes head.entry.bytes.now))) 0 head.entry.layout.slots }
{
    for slot in 0..head.layout.slots {
        if !head.is_used(slot) {
            continue;
        }
        let links = links_of(head.bytes, head.layout, slot);
        let start = head.start_of(slot);
        if map::touches(head.bytes, head.layout, marks, links, start) {
            return Some(slot);
        }
        map::mark_chain(head.bytes, head.layout, marks, links, start);
    }
    None
}

// The lowest slot whose chain shares a block with a lower slot's (refusal 8). Where as many blocks are marked as the chains have, there is none.
fn shared_slot(head: Head, marked: usize) -> Option<usize>
    requires { (lowest (broken head.layout (view_of head.layout (bytes head.bytes.now))) 0 head.layout.slots ≡ None) × (marked ≡ taken head.layout (view_of head.layout (bytes head.bytes.now))) }
    ensures { result ≡ lowest (sharing head.entry.layout (view_of head.entry.layout (bytes head.entry.bytes.now))) 0 head.entry.layout.slots }
{
    if marked == count_chained(head) {
        return None;
    }
    let mut marks = [false; 1600];
    share_fault(head, &mut marks)
}

// Whether a data block has a nonzero map value and is on no chain.
fn is_stray(head: Head, marks: &[bool; 1600], block: usize) -> bool
    requires { (block < head.layout.blocks) × Marks 1600 marks.now (owned (view_of head.layout (bytes head.bytes.now)) head.layout.slots) }
    ensures { result ≡ stray head.entry.layout (view_of head.entry.layout (bytes head.entry.bytes.now)) block }
{
    map::map_at(head.bytes, block) != 0 && !marks[block]
}

// The lowest data block with a nonzero map value that is on no chain (refusal 9); the marks are those of all chains.
fn stray_fault(head: Head, marks: &[bool; 1600]) -> Option<usize>
    requires { Marks 1600 marks.now (owned (view_of head.layout (bytes head.bytes.now)) head.layout.slots) }
    ensures { result ≡ lowest (stray head.entry.layout (view_of head.entry.layout (bytes head.entry.bytes.now))) head.entry.layout.first (head.entry.layout.blocks - head.entry.layout.first) }
{
    (head.layout.first..head.layout.blocks).find(|&block| is_stray(head, marks, block))
}

// The number of free blocks. Counted in 16 bits, so that the compiler adds eight at a time.
fn count_free(head: Head) -> usize
    ensures { result ≡ free_count head.entry.layout (map_at (bytes head.entry.bytes.now)) }
{
    let mut free = 0u16;
    for block in head.layout.first..head.layout.blocks {
        if map::map_at(head.bytes, block) == 0 {
            free += 1;
        }
    }
    usize::from(free)
}

// The lowest data block with a nonzero map value that is on no chain (refusal 9). Where the marked and the free blocks are all, there is none.
fn stray_block(head: Head, marks: &[bool; 1600], marked: usize, free: usize) -> Option<usize>
    requires { (lowest (broken head.layout (view_of head.layout (bytes head.bytes.now))) 0 head.layout.slots ≡ None) × (marked ≡ taken head.layout (view_of head.layout (bytes head.bytes.now))) × (free ≡ free_count head.layout (map_at (bytes head.bytes.now))) × Marks 1600 marks.now (owned (view_of head.layout (bytes head.bytes.now)) head.layout.slots) }
    ensures { result ≡ lowest (stray head.entry.layout (view_of head.entry.layout (bytes head.entry.bytes.now))) head.entry.layout.first (head.entry.layout.blocks - head.entry.layout.first) }
{
    let left = head.layout.blocks - head.layout.first - free;
    if marked == left {
        return None;
    }
    stray_fault(head, marks)
}

// Refusals 6 to 9: the chains, then what they share, then blocks on none of them; else the number of free blocks, which the last step counts.
// docs/DECISIONS.md names it, so it takes any slice that is long enough, and makes the head itself. Never inlined, as `slots::name_fault`: each takes some 3 KB
// of the stack, in turn.
#[inline(never)]
pub fn chain_rules(head: &[u8], layout: layout::Layout) -> Result<usize, Refusal>
    requires { LayoutRight layout × (block_offset layout.first ≤ length head.now) }
    ensures { result ≡ or_free (chain_rules layout (view_of layout (bytes head.now))) (free_count layout (map_at (bytes head.now))) }
{
    let head = Head {
        bytes: head,
        layout,
    };
    let mut marks = [false; 1600];
    chain_fault(head, &mut marks)?;
    let marked = count_marked(head, &marks);
    let shared = shared_slot(head, marked);
    if let Some(slot) = shared {
        return Err(Refusal::SharedBlock(slot));
    }
    let free = count_free(head);
    let stray = stray_block(head, &marks, marked, free);
    if let Some(block) = stray {
        return Err(Refusal::StrayBlock(block));
    }
    Ok(free)
}
