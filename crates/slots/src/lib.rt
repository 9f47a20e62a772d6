// The directory of an image's head: a slot's fields, and refusals 2, 4 and 5 with the number of used slots.
// Only the crates above call these; that the directory lies in the head is shown by its length.
#![tactic(auto)]

ghost use Rattle.std.specs.Prelude.{◌≡◌, ℕ, true, not, ◌+◌, ◌^◌, ◌≤◌, ◌<◌, length};
ghost use Rattle.laws.specs.Reader.{bytes};
ghost use Rattle.laws.specs.Scan.{lowest, any};
ghost use Rattle.layout.specs.Layouts.{slot_offset};
ghost use Rattle.layout.specs.Right.{LayoutRight};
ghost use Rattle.layout.specs.declared.Layout.{Layout};
ghost use Rattle.view.specs.Disk.{used, formed};
ghost use Rattle.view.specs.Rules.{malformed, has_name_of, repeated};
ghost use Rattle.image.specs.Image.{view_of};
ghost use Rattle.rules.specs.Check.{passed_over, has_identity, used_count};
ghost use Rattle.slots.specs.Forms.{or_used};
ghost use Rattle.slots.specs.Keys.{Key, Keyed, has_keys};
ghost use Rattle.slots.specs.Hashes.{has_hash_of, highest, Hash, Tops, Lowers, Turn};

mod head;

pub use head::Head;
use laws::Refusal;

// Where a slot's entry begins in the head.
fn offset_of(layout: layout::Layout, slot: usize) -> usize
    requires { slot_offset layout slot < 2 ^ 64 }
    ensures { result ≡ slot_offset layout slot }
{
    layout.directory + 24 * slot
}

// Whether a slot is used.
#[tactic(auto, unfolding(image::specs::Image::entry_at, view::specs::Disk::used))]
pub fn is_used(head: &[u8], layout: layout::Layout, slot: usize) -> bool
    requires { slot_offset layout slot + 24 ≤ length head.now }
    ensures { result ≡ used ((view_of layout (bytes head.now)).entry slot) }
{
    head[offset_of(layout, slot) + 16] != 0
}

// A slot's type byte, length and start block.
#[tactic(auto, unfolding(image::specs::Image::entry_at))]
pub fn type_of(head: &[u8], layout: layout::Layout, slot: usize) -> u8
    requires { slot_offset layout slot + 24 ≤ length head.now }
    ensures { result ≡ ((view_of layout (bytes head.now)).entry slot).type }
{
    head[offset_of(layout, slot) + 16]
}

#[tactic(auto, unfolding(image::specs::Image::entry_at))]
pub fn size_of(head: &[u8], layout: layout::Layout, slot: usize) -> usize
    requires { slot_offset layout slot + 24 ≤ length head.now }
    ensures { result ≡ ((view_of layout (bytes head.now)).entry slot).size }
{
    blocks::number::<3>(head, offset_of(layout, slot) + 17)
}

#[tactic(auto, unfolding(image::specs::Image::entry_at))]
pub fn start_of(head: &[u8], layout: layout::Layout, slot: usize) -> usize
    requires { slot_offset layout slot + 24 ≤ length head.now }
    ensures { result ≡ ((view_of layout (bytes head.now)).entry slot).start }
{
    blocks::number::<2>(head, offset_of(layout, slot) + 20)
}

// Whether the first directory is passed over: its slot 0 has type byte 255 (refusal 2).
#[tactic(auto, unfolding(rules::specs::Check::passed_over))]
pub fn is_passed_over(head: &[u8]) -> bool
    requires { 17 ≤ length head.now }
    ensures { result ≡ passed_over (bytes head.now) }
{
    head[16] == 255
}

// A slot's identity.
#[tactic(auto, unfolding(image::specs::Image::entry_at))]
fn identity_of(head: &[u8], layout: layout::Layout, slot: usize) -> usize
    requires { slot_offset layout slot + 24 ≤ length head.now }
    ensures { result ≡ ((view_of layout (bytes head.now)).entry slot).identity }
{
    blocks::number::<2>(head, offset_of(layout, slot) + 22)
}

// Whether every slot, empty ones too, has the layout's identity (refusal 2).
pub fn has_identity(head: &[u8], layout: layout::Layout) -> bool
    requires { slot_offset layout layout.slots ≤ length head.now }
    ensures { result ≡ has_identity layout (bytes head.now) }
{
    (0..layout.slots).all(|slot| identity_of(head, layout, slot) == layout.identity)
}

// Whether a slot's type, length, identity and name's area are legal.
fn is_formed(head: &[u8], layout: layout::Layout, slot: usize) -> bool
    requires { LayoutRight layout × (slot_offset layout slot + 24 ≤ length head.now) }
    ensures { result ≡ formed layout ((view_of layout (bytes head.now)).entry slot) }
{
    let at = offset_of(layout, slot);
    names::is_type(layout, type_of(head, layout, slot))
        && size_of(head, layout, slot) != 0
        && identity_of(head, layout, slot) == layout.identity
        && names::is_area(layout, &head[at..at + 16])
}

// Whether a slot is used and not well formed.
#[tactic(auto, unfolding(view::specs::Rules::malformed))]
pub fn is_malformed(head: &[u8], layout: layout::Layout, slot: usize) -> bool
    requires { LayoutRight layout × (slot_offset layout slot + 24 ≤ length head.now) }
    ensures { result ≡ malformed layout (view_of layout (bytes head.now)) slot }
{
    is_used(head, layout, slot) && !is_formed(head, layout, slot)
}

// The number of used slots, or refusal 4 at the lowest malformed one.
pub fn count_formed(head: &[u8], layout: layout::Layout) -> Result<usize, Refusal>
    requires { LayoutRight layout × (slot_offset layout layout.slots ≤ length head.now) }
    ensures { result ≡ or_used (lowest (malformed layout (view_of layout (bytes head.now))) 0 layout.slots) (used_count layout (view_of layout (bytes head.now))) }
{
    let mut counted = 0;
    for slot in 0..layout.slots {
        if is_malformed(head, layout, slot) {
            return Err(Refusal::MalformedSlot(slot));
        }
        if is_used(head, layout, slot) {
            counted += 1;
        }
    }
    Ok(counted)
}

// Half a name's area as one number: eight bytes compare at once.
pub fn key(head: &[u8], at: usize) -> usize
    requires { at + 8 ≤ length head.now }
    ensures { Key (bytes head.now) at result }
{
    blocks::number::<8>(head, at)
}

// What a name and a type are compared by: the keys of the name's two halves, and the type.
#[derive(Clone, Copy, PartialEq, Eq)]
pub struct Keys {
    pub low: usize,
    pub high: usize,
    pub letter: u8,
}

impl Keys {
    // Those of the name's area at a place, with a type.
    pub fn of(source: &[u8], at: usize, letter: u8) -> Keys
        requires { at + 16 ≤ length source.now }
        ensures { Keyed (bytes source.now) at letter result }
    {
        let low = key(source, at);
        let high = key(source, at + 8);
        Keys { low, high, letter }
    }

    // Those of a slot.
    pub fn of_slot(head: &[u8], layout: layout::Layout, slot: usize) -> Keys
        requires { slot_offset layout slot + 24 ≤ length head.now }
        ensures { Keyed (bytes head.now) (slot_offset layout slot) ((view_of layout (bytes head.now)).entry slot).type result }
    {
        Keys::of(head, offset_of(layout, slot), type_of(head, layout, slot))
    }
}

// Whether a slot's name and type have these keys. For a file's type no empty slot passes: theirs is 0. The first key is asked alone before: it
// tells most names apart, and the compiler's order of `==` doesn't (a find in 512 slots takes 0.51 µs by `==` alone, 0.19 µs so).
pub fn has_keys(head: &[u8], layout: layout::Layout, slot: usize, keys: Keys) -> bool
    requires { slot_offset layout slot + 24 ≤ length head.now }
    ensures { result ≡ has_keys layout (bytes head.now) slot keys.low keys.high keys.letter }
{
    if key(head, offset_of(layout, slot)) != keys.low {
        return false;
    }
    Keys::of_slot(head, layout, slot) == keys
}

// The lowest slot whose name and type have these keys.
pub fn find_keys(head: &[u8], layout: layout::Layout, keys: Keys) -> Option<usize>
    requires { slot_offset layout layout.slots ≤ length head.now }
    ensures { result ≡ lowest (λ s. has_keys layout (bytes head.now) s keys.low keys.high keys.letter) 0 layout.slots }
{
    (0..layout.slots).find(|&slot| has_keys(head, layout, slot, keys))
}

// Half a key's bytes make a number below this.
const HALF: usize = 4294967296;

// A hash of a slot's name and type: the halves of both keys, so that the sum fits and one division does; by a prime, so that every byte counts. With the
// type in it a sample and the program of its name are as seldom compared as any two files.
fn hash_of(head: &[u8], layout: layout::Layout, slot: usize) -> usize
    requires { slot_offset layout slot + 24 ≤ length head.now }
    ensures { Hash layout (bytes head.now) slot result }
{
    let Keys { low, high, letter } = Keys::of_slot(head, layout, slot);
    let letter = usize::from(letter);
    (low % HALF + 31 * (low / HALF) + 961 * (high % HALF) + 29791 * (high / HALF) + 923521 * letter)
        % 1009
}

// Whether a used slot's name and type stand in a lower slot: only those with its hash are compared, from the highest of them on downwards. A list that
// leads through the table: no range holds it, so it is walked by hand.
fn stands_below(
    head: &[u8],
    layout: layout::Layout,
    lowers: &[u16; 512],
    top: usize,
    slot: usize,
) -> bool
    requires { (slot_offset layout slot + 24 ≤ length head.now) × (slot < 512) × (used ((view_of layout (bytes head.now)).entry slot) ≡ true) × Lowers layout (bytes head.now) lowers.now slot × (top ≡ highest (has_hash_of layout (bytes head.now) slot) slot) }
    ensures { result ≡ any (has_name_of layout (view_of layout (bytes head.now)) slot) 0 slot }
{
    let keys = Keys::of_slot(head, layout, slot);
    let mut next = top;
    while next != 0 {
        let other = next - 1;
        if has_keys(head, layout, other, keys) {
            return true;
        }
        next = usize::from(lowers[other]);
    }
    false
}

// The files by their hashes: for each hash the highest slot so far, for each slot the next lower one with its hash. Both stand there plus 1; 0 is none.
#[derive(Drop)]
pub struct Table {
    pub tops: [u16; 1009],
    pub lowers: [u16; 512],
}

impl Table {
    // A table of no slots.
    pub fn new() -> Table
        ensures { (l : Layout) (b : ℕ → ℕ) → Tops l b result.tops 0 × Lowers l b result.lowers 0 }
    {
        Table {
            tops: [0; 1009],
            lowers: [0; 512],
        }
    }

    // Whether a slot is used and its name and type stand in a lower one. The table takes the slot.
    pub fn repeats(&mut self, head: &[u8], layout: layout::Layout, slot: usize) -> bool
        requires { (slot_offset layout slot + 24 ≤ length head.now) × (slot < 512) × Tops layout (bytes head.now) self.old.tops slot × Lowers layout (bytes head.now) self.old.lowers slot }
        ensures { Turn layout (bytes head.now) self.new.tops self.new.lowers slot result }
    {
        if !is_used(head, layout, slot) {
            return false;
        }
        let hash = hash_of(head, layout, slot);
        let top = self.tops[hash];
        let found = stands_below(head, layout, &self.lowers, usize::from(top), slot);
        self.lowers[slot] = top;
        self.tops[hash] = (slot + 1) as u16;
        found
    }
}

// The lowest slot whose name and type stand in a lower used slot (refusal 5), by a table of hashes.
// Never inlined, so that the table and the marks of `chains::chain_rules` don't lie on the stack at once.
#[inline(never)]
pub fn name_fault(head: &[u8], layout: layout::Layout) -> Option<usize>
    requires { LayoutRight layout × (slot_offset layout layout.slots ≤ length head.now) }
    ensures { result ≡ lowest (repeated layout (view_of layout (bytes head.now))) 0 layout.slots }
{
    let end = layout.slots;
    let mut table = Table::new();
    for slot in 0..end {
        if table.repeats(head, layout, slot) {
            return Some(slot);
        }
    }
    None
}

// The lowest empty slot.
pub fn empty_slot(head: &[u8], layout: layout::Layout) -> Option<usize>
    requires { slot_offset layout layout.slots ≤ length head.now }
    ensures { result ≡ lowest (λ s. not (used ((view_of layout (bytes head.now)).entry s))) 0 layout.slots }
{
    (0..layout.slots).find(|&slot| !is_used(head, layout, slot))
}
