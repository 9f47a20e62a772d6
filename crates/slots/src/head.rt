// An image's head, or the image whole, with the layout that it is read by.
ghost use Rattle.std.specs.Prelude.{◌≤◌, length};
ghost use Rattle.layout.specs.Layouts.{block_offset};
ghost use Rattle.layout.specs.Right.{LayoutRight};
ghost use Rattle.slots.specs.Lemmas.Once.{right_once};

use crate::Keys;
use laws::Refusal;

// Bytes that hold all system blocks, so directory and map lie in them: a slot or a block of the layout is at hand, whichever it is.
#[derive(Clone, Copy)]
pub struct Head<'a> {
    pub bytes: &'a [u8],
    pub layout: layout::Layout,
    pub ghost right: { LayoutRight layout } by { right_once layout },
    pub ghost long: { block_offset layout.first ≤ length bytes.now },
}

// Each asks the function of its name; here a slot is asked for alone, and the type tells the rest. docs/PROMISES.md names those functions, so they stay, with
// what they ask.
impl Head<'_> {
    ghost use Rattle.std.specs.Prelude.{◌≡◌, not, ◌<◌};
    ghost use Rattle.laws.specs.Reader.{bytes};
    ghost use Rattle.laws.specs.Scan.{lowest};
    ghost use Rattle.view.specs.Disk.{used};
    ghost use Rattle.view.specs.Rules.{malformed, repeated};
    ghost use Rattle.image.specs.Image.{view_of};
    ghost use Rattle.rules.specs.Check.{has_identity, used_count};
    ghost use Rattle.slots.specs.Forms.{or_used};
    ghost use Rattle.slots.specs.Keys.{has_keys};

    pub fn is_used(self, slot: usize) -> bool
        requires { slot < self.layout.slots }
        ensures { result ≡ used ((view_of self.entry.layout (bytes self.entry.bytes.now)).entry slot) }
    {
        crate::is_used(self.bytes, self.layout, slot)
    }

    pub fn type_of(self, slot: usize) -> u8
        requires { slot < self.layout.slots }
        ensures { result ≡ ((view_of self.entry.layout (bytes self.entry.bytes.now)).entry slot).type }
    {
        crate::type_of(self.bytes, self.layout, slot)
    }

    pub fn size_of(self, slot: usize) -> usize
        requires { slot < self.layout.slots }
        ensures { result ≡ ((view_of self.entry.layout (bytes self.entry.bytes.now)).entry slot).size }
    {
        crate::size_of(self.bytes, self.layout, slot)
    }

    pub fn start_of(self, slot: usize) -> usize
        requires { slot < self.layout.slots }
        ensures { result ≡ ((view_of self.entry.layout (bytes self.entry.bytes.now)).entry slot).start }
    {
        crate::start_of(self.bytes, self.layout, slot)
    }

    pub fn has_identity(self) -> bool
        ensures { result ≡ has_identity self.entry.layout (bytes self.entry.bytes.now) }
    {
        crate::has_identity(self.bytes, self.layout)
    }

    pub fn is_malformed(self, slot: usize) -> bool
        requires { slot < self.layout.slots }
        ensures { result ≡ malformed self.entry.layout (view_of self.entry.layout (bytes self.entry.bytes.now)) slot }
    {
        crate::is_malformed(self.bytes, self.layout, slot)
    }

    pub fn count_formed(self) -> Result<usize, Refusal>
        ensures { result ≡ or_used (lowest (malformed self.entry.layout (view_of self.entry.layout (bytes self.entry.bytes.now))) 0 self.entry.layout.slots) (used_count self.entry.layout (view_of self.entry.layout (bytes self.entry.bytes.now))) }
    {
        crate::count_formed(self.bytes, self.layout)
    }

    pub fn has_keys(self, slot: usize, keys: Keys) -> bool
        requires { slot < self.layout.slots }
        ensures { result ≡ has_keys self.entry.layout (bytes self.entry.bytes.now) slot keys.low keys.high keys.letter }
    {
        crate::has_keys(self.bytes, self.layout, slot, keys)
    }

    pub fn find_keys(self, keys: Keys) -> Option<usize>
        ensures { result ≡ lowest (λ s. has_keys self.entry.layout (bytes self.entry.bytes.now) s keys.low keys.high keys.letter) 0 self.entry.layout.slots }
    {
        crate::find_keys(self.bytes, self.layout, keys)
    }

    pub fn name_fault(self) -> Option<usize>
        ensures { result ≡ lowest (repeated self.entry.layout (view_of self.entry.layout (bytes self.entry.bytes.now))) 0 self.entry.layout.slots }
    {
        crate::name_fault(self.bytes, self.layout)
    }

    pub fn empty_slot(self) -> Option<usize>
        ensures { result ≡ lowest (λ s. not (used ((view_of self.entry.layout (bytes self.entry.bytes.now)).entry s))) 0 self.entry.layout.slots }
    {
        crate::empty_slot(self.bytes, self.layout)
    }
}
