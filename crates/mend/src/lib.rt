// The salvage run (document 02, request four) on an image of a known layout: slots with a lower one's name and type are noted, the slots judged in rising
// order, then the dropped ones erased, the system values restored and the stray blocks freed. Nothing of the image is written before all is judged, so that
// chains are judged on the map as given.
#![tactic(auto)]

ghost use Rattle.std.specs.Prelude.{◌≡◌, true, false, not, ◌+◌, ◌-◌, ◌≤◌, ◌<◌, ltb, eqb, length, set, replicate};
ghost use Rattle.laws.specs.Truth.{pick, both};
ghost use Rattle.laws.specs.Scan.{any, count, those};
ghost use Rattle.laws.specs.Reader.{bytes};
ghost use Rattle.layout.specs.Layouts.{image_length, slot_offset, map_offset, block_offset};
ghost use Rattle.layout.specs.Right.{LayoutRight};
ghost use Rattle.map.specs.Map.{map_at, set_map, set_all, chain, Marks};
ghost use Rattle.view.specs.Disk.{used, entry_chain, owned};
ghost use Rattle.view.specs.Rules.{bad_system, repeated};
ghost use Rattle.image.specs.Image.{view_of, erase_entry};
ghost use Rattle.slots.specs.Keys.{has_keys};
ghost use Rattle.salvage.specs.Salvage.{drops, disk_after, report_of, survivors, erase_slots, wrong_system, salvage_image, map_changes, report_after};
ghost use Rattle.mend.specs.Steps.{is_kept, kept_name, name_note, used_end, Reported, chain_said, Noted, is_dropped, is_lost, Judging};

use slots::Head;

// What is said of a slot that is kept; greater numbers drop one.
const KEPT: u8 = 1;

// Whether a slot is kept, and its name and type have these keys. Few names are alike, so the keys are asked first.
fn kept_with(image: Head, report: &[u8], slot: usize, keys: slots::Keys) -> bool
    requires { (slot < image.layout.slots) × (slot < length report.now) }
    ensures { result ≡ both (is_kept report.now slot) (has_keys image.entry.layout (bytes image.entry.bytes.now) slot keys.low keys.high keys.letter) }
{
    image.has_keys(slot, keys) && report[slot] == KEPT
}

// Whether a kept slot below has a slot's name and type; the report says which are kept. Keys and type are read once.
fn name_kept(image: Head, report: &[u8], slot: usize) -> bool
    requires { (slot < image.layout.slots) × (slot ≤ length report.now) }
    ensures { result ≡ any (kept_name image.entry.layout (view_of image.entry.layout (bytes image.entry.bytes.now)) report.now slot) 0 slot }
{
    let keys = slots::Keys::of_slot(image.bytes, image.layout, slot);
    (0..slot).any(|lower| kept_with(image, report, lower, keys))
}

// Whether a kept slot below has a slot's name and type. They are gone through only where a used one has them.
fn name_stands(image: Head, report: &[u8], twice: bool, slot: usize) -> bool
    requires { (slot < image.layout.slots) × (slot ≤ length report.now) × (used ((view_of image.layout (bytes image.bytes.now)).entry slot) ≡ true) × (twice ≡ repeated image.layout (view_of image.layout (bytes image.bytes.now)) slot) }
    ensures { result ≡ any (kept_name image.entry.layout (view_of image.entry.layout (bytes image.entry.bytes.now)) report.now slot) 0 slot }
{
    twice && name_kept(image, report, slot)
}

// Notes the k-th block of a walk in a list, as far as that goes: no faultless chain is longer.
fn note(list: &mut [u16; 1600], k: usize, block: usize)
    requires { block < 65536 }
    ensures { list.new ≡ pick (ltb k 1600) (set list.old k block) list.old }
{
    if k >= 1600 {
        return;
    }
    list[k] = block as u16;
}

// What is said of a chain: 6 or 7 for its first fault, else 8 if it has a marked block, else 1. One walk tells all of it, and lists the blocks of
// one that is kept. No `for`: over 0..=links it would ask the same at each block, and need an answer behind its end.
fn chain_said(
    image: Head,
    marks: &[bool; 1600],
    list: &mut [u16; 1600],
    links: usize,
    start: usize,
) -> u8
    requires { length list.old ≡ 1600 }
    ensures value { result ≡ chain_said image.entry.layout (map_at (bytes image.entry.bytes.now)) marks.now false links start }
    ensures noted { Noted list.new result (chain (map_at (bytes image.entry.bytes.now)) links start) }
{
    let mark = image.layout.mark;
    let mut shared = false;
    let mut block = start;
    let mut k = 0;
    loop {
        if !map::is_link(image.layout, block) {
            return 6;
        }
        shared |= marks[block];
        note(list, k, block);
        let value = map::map_at(image.bytes, block);
        if k == links {
            if value != mark {
                return 7;
            }
            if shared {
                return 8;
            }
            return KEPT;
        }
        if value == mark {
            return 7;
        }
        block = value;
        k += 1;
    }
}

// What the run says of a slot, by the report and the marks of the slots below it and by whether a used one of them has its name and type; the blocks of
// one that is kept are listed. The numbers are the bytes of the report that C reads (document 02, request four): 0 empty, 1 kept, else the rule that drops it.
fn verdict_of(
    image: Head,
    report: &[u8],
    marks: &[bool; 1600],
    list: &mut [u16; 1600],
    twice: bool,
    slot: usize,
) -> u8
    requires { (slot < image.layout.slots) × (image.layout.slots ≤ length report.now) × (length list.old ≡ 1600) × (twice ≡ repeated image.layout (view_of image.layout (bytes image.bytes.now)) slot) × Judging image.layout (view_of image.layout (bytes image.bytes.now)) report.now marks.now slot }
    ensures value { result ≡ report_of image.entry.layout (view_of image.entry.layout (bytes image.entry.bytes.now)) slot }
    ensures noted { Noted list.new result (entry_chain (map_at (bytes image.entry.bytes.now)) ((view_of image.entry.layout (bytes image.entry.bytes.now)).entry slot)) }
{
    if !image.is_used(slot) {
        return 0;
    }
    if image.is_malformed(slot) {
        return 4;
    }
    if name_stands(image, report, twice, slot) {
        return 5;
    }
    let links = chains::links_of(image.bytes, image.layout, slot);
    let start = image.start_of(slot);
    chain_said(image, marks, list, links, start)
}

// Marks the listed blocks of a slot's chain if it is kept.
fn mark_kept(image: Head, marks: &mut [bool; 1600], list: &[u16; 1600], slot: usize, verdict: u8)
    requires { (slot < image.layout.slots) × (verdict ≡ report_of image.layout (view_of image.layout (bytes image.bytes.now)) slot) × Noted list.now verdict (entry_chain (map_at (bytes image.bytes.now)) ((view_of image.layout (bytes image.bytes.now)).entry slot)) × Marks 1600 marks.old (owned (disk_after image.layout (view_of image.layout (bytes image.bytes.now)) slot) slot) }
    ensures { Marks 1600 marks.new (owned (disk_after image.entry.layout (view_of image.entry.layout (bytes image.entry.bytes.now)) (slot + 1)) (slot + 1)) }
{
    if verdict == KEPT {
        let count = chains::links_of(image.bytes, image.layout, slot) + 1;
        map::mark_blocks(marks, &list[..count]);
    }
}

// How far the used slots go, so that the passes end there: slots are filled from the lowest on.
fn used_end(image: Head) -> usize
    ensures { result ≡ used_end (view_of image.entry.layout (bytes image.entry.bytes.now)) image.entry.layout.slots }
{
    for slot in (0..image.layout.slots).rev() {
        if image.is_used(slot) {
            return slot + 1;
        }
    }
    0
}

// Notes in the report which slots' names and types stand in lower used slots, by the check's table of hashes.
fn note_names(image: Head, report: &mut [u8], end: usize)
    requires { (image.layout.slots ≤ length report.old) × (end ≡ used_end (view_of image.layout (bytes image.bytes.now)) image.layout.slots) }
    ensures { Reported (name_note image.entry.layout (view_of image.entry.layout (bytes image.entry.bytes.now))) report.old report.new image.entry.layout.slots }
{
    let rest = image.layout.slots - end;
    let mut table = slots::Table::new();
    for slot in 0..end {
        let twice = table.repeats(image.bytes, image.layout, slot);
        report[slot] = u8::from(twice);
    }
    blocks::clear(report, end, rest);
}

// Judges the slots: what is said of them to the front of the report, and the marks of the kept chains. Gives how far the used slots go; those above
// have their 0 from the notes.
fn judge(image: Head, report: &mut [u8], marks: &mut [bool; 1600]) -> usize
    requires { (image.layout.slots ≤ length report.old) × (marks.old ≡ replicate 1600 false) }
    ensures report_after { report.new ≡ report_after image.entry.layout image.entry.bytes.now report.old }
    ensures marks { Marks 1600 marks.new (owned (survivors image.entry.layout (view_of image.entry.layout (bytes image.entry.bytes.now))) image.entry.layout.slots) }
    ensures value { result ≡ used_end (view_of image.entry.layout (bytes image.entry.bytes.now)) image.entry.layout.slots }
{
    let end = used_end(image);
    note_names(image, report, end);
    let mut list = [0u16; 1600];
    for slot in 0..end {
        let twice = report[slot] == 1;
        let verdict = verdict_of(image, report, marks, &mut list, twice, slot);
        mark_kept(image, marks, &list, slot, verdict);
        report[slot] = verdict;
    }
    end
}

// Erases a slot that is dropped, as remove does.
fn erase_if(image: &mut [u8], layout: layout::Layout, slot: usize, verdict: u8)
    requires { slot_offset layout slot + 22 ≤ length image.old }
    ensures { image.new ≡ pick (drops verdict) (erase_entry image.old (slot_offset layout slot)) image.old }
{
    if verdict > KEPT {
        blocks::clear(image, layout.directory + 24 * slot, 22);
    }
}

// Erases the slots below the end that the report drops.
fn erase_dropped(image: &mut [u8], layout: layout::Layout, report: &[u8], end: usize)
    requires { (slot_offset layout end ≤ length image.old) × (end ≤ length report.now) }
    ensures { image.new ≡ erase_slots layout image.old (those (is_dropped report.now) 0 end) }
{
    for slot in 0..end {
        erase_if(image, layout, slot, report[slot]);
    }
}

// Sets a block's map value if it is another: 1, else 0.
fn set_value(image: &mut [u8], block: usize, value: usize) -> usize
    requires { map_offset block + 2 ≤ length image.old }
    ensures image_after { image.new ≡ pick (not (eqb (map_at (bytes image.old) block) value)) (set_map image.old block value) image.old }
    ensures value { result ≡ pick (not (eqb (map_at (bytes image.old) block) value)) 1 0 }
{
    if map::map_at(image, block) == value {
        return 0;
    }
    map::set_map(image, block, value);
    1
}

// Restores the system values: how many were others.
fn restore_system(image: &mut [u8], layout: layout::Layout) -> usize
    requires { LayoutRight layout × (block_offset layout.first ≤ length image.old) }
    ensures image_after { image.new ≡ set_all image.old (wrong_system layout (view_of layout (bytes image.old))) layout.reserved }
    ensures value { result ≡ count (bad_system layout (view_of layout (bytes image.old))) 0 layout.system }
{
    let mut changed = 0;
    for block in 0..layout.system {
        changed += set_value(image, block, layout.reserved);
    }
    changed
}

// Frees a block that isn't marked: 1 if its map value was another, else 0. A marked block's own value is stored again: without a branch, and in
// 16 bits, so that the compiler frees eight at a time.
fn free_value(image: &mut [u8], marks: &[bool; 1600], block: usize) -> u16
    requires { (map_offset block + 2 ≤ length image.old) × (block < 1600) }
    ensures image_after { image.new ≡ pick (is_lost (map_at (bytes image.old)) marks.now block) (set_map image.old block 0) image.old }
    ensures value { result ≡ pick (is_lost (map_at (bytes image.old)) marks.now block) 1 0 }
{
    let value = map::map_at(image, block) as u16;
    let after = if marks[block] { value } else { 0 };
    map::set_map(image, block, usize::from(after));
    u16::from(value != after)
}

// Frees the data blocks that aren't marked: how many map values were others.
fn free_strays(image: &mut [u8], layout: layout::Layout, marks: &[bool; 1600]) -> usize
    requires { LayoutRight layout × (block_offset layout.first ≤ length image.old) }
    ensures image_after { image.new ≡ set_all image.old (those (is_lost (map_at (bytes image.old)) marks.now) layout.first (layout.blocks - layout.first)) 0 }
    ensures value { result ≡ count (is_lost (map_at (bytes image.old)) marks.now) layout.first (layout.blocks - layout.first) }
{
    let mut changed = 0u16;
    for block in layout.first..layout.blocks {
        changed += free_value(image, marks, block);
    }
    usize::from(changed)
}

// The run: how many map values are others afterwards.
pub fn salvage(image: &mut [u8], layout: layout::Layout, report: &mut [u8]) -> usize
    requires { LayoutRight layout × (length image.old ≡ image_length layout) × (layout.slots ≤ length report.old) }
    ensures value { result ≡ map_changes layout image.old (salvage_image layout image.old) }
    ensures report_after { report.new ≡ report_after layout image.old report.old }
    ensures image_after { image.new ≡ salvage_image layout image.old }
{
    let mut marks = [false; 1600];
    let given = Head {
        bytes: image,
        layout,
    };
    let end = judge(given, report, &mut marks);
    erase_dropped(image, layout, report, end);
    let restored = restore_system(image, layout);
    let freed = free_strays(image, layout, &marks);
    restored + freed
}
