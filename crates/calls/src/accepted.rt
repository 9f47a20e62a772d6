// What the calls judge and read of an image that the check accepted.
ghost use Rattle.std.specs.Prelude.{◌≡◌, ◌≤◌, List, ℕ, length, true};
ghost use Rattle.laws.specs.Reader.{bytes};
ghost use Rattle.map.specs.Map.{map_at, free_count};
ghost use Rattle.layout.specs.Layouts.{block_offset};
ghost use Rattle.layout.specs.Right.{LayoutRight};
ghost use Rattle.laws.specs.Scan.{lowest};
ghost use Rattle.view.specs.Disk.{has_name};
ghost use Rattle.image.specs.Image.{view_of, files_in};
ghost use Rattle.record.specs.Record.{is_legal, slot_of, file_at, judge_name, judge_put, listing, paging};
ghost use Rattle.rules.specs.Check.{came};
ghost use Rattle.calls.specs.Answers.{paged_of, Lists};
ghost use Rattle.calls.specs.Metered.{page_cost};
ghost use Rattle.calls.specs.Accepts.{AcceptedAs};
ghost use Rattle.std.proofs.Props.{props};

use crate::{Entry, Metered, Piece, is_legal, judge_room, unpaged};
use laws::Refusal;
use slots::Head;

// An image that the check accepted, with its layout.
#[derive(Clone, Copy)]
pub struct Disk<'a> {
    pub image: &'a [u8],
    pub layout: layout::Layout,
    pub ghost accepted: { AcceptedAs layout image.now } by { Prim.hlevel (props, layout-code) },
}

// The lowest slot that has a name area and a type. It takes the slice itself: of one in a struct no proof knows that its items are bytes.
fn slot_by(image: &[u8], layout: layout::Layout, area: [u8; 16], letter: u8) -> Option<usize>
    requires { LayoutRight layout × (block_offset layout.first ≤ length image.now) }
    ensures { result ≡ lowest (λ s. has_name area letter ((view_of layout (bytes image.now)).entry s)) 0 layout.slots }
{
    let keys = slots::Keys::of(&area, 0, letter);
    let head = Head {
        bytes: image,
        layout,
    };
    head.find_keys(keys)
}

impl Disk<'_> {
    // Lists a slot: 10 if it is empty or not there.
    #[tactic(auto, using(crate::specs::Accepts::slot_inside))]
    pub(crate) fn list(&self, slot: usize) -> Result<Entry, Refusal>
        ensures { Lists self.now.image.now (listing self.now.image.now (file_at self.now.layout (files_in self.now.layout self.now.image.now) slot)) result }
    {
        let Disk { image, layout } = *self;
        let slots = layout.slots;
        let directory = layout.directory;
        let letters = layout.letters;
        if slot >= slots {
            return Err(Refusal::NoFile);
        }
        let head = Head {
            bytes: image,
            layout,
        };
        if !head.is_used(slot) {
            return Err(Refusal::NoFile);
        }
        let letter = head.type_of(slot);
        let length = head.size_of(slot);
        let at = directory + 24 * slot;
        let end = at + 16;
        let name = names::name_of(layout, &image[at..end]);
        Ok(Entry {
            letters,
            letter,
            length,
            name,
        })
    }

    // The slot of a file by its legal name and type.
    fn slot_named(&self, name: &[u8], letter: u8) -> Option<usize>
        requires { is_legal self.now.layout name.now letter ≡ true }
        ensures { result ≡ slot_of self.now.layout (files_in self.now.layout self.now.image.now) name.now letter }
    {
        let area = names::area_of(self.layout, name);
        slot_by(self.image, self.layout, area, letter)
    }

    // How find and remove are judged: 11, 10.
    pub(crate) fn judge_name(&self, name: &[u8], letter: u8) -> Result<usize, Refusal>
        ensures { result ≡ judge_name self.now.layout (files_in self.now.layout self.now.image.now) name.now letter }
    {
        if !is_legal(self.layout, name, letter) {
            return Err(Refusal::IllegalName);
        }
        self.slot_named(name, letter).ok_or(Refusal::NoFile)
    }

    // How put is judged where so many blocks are free: 11, 13, 12, 14, 15, 16.
    pub(crate) fn judge_put(
        &self,
        free: usize,
        name: &[u8],
        letter: u8,
        size: usize,
    ) -> Result<usize, Refusal>
        requires { free ≡ free_count self.now.layout (map_at (bytes self.now.image.now)) }
        ensures { (content : List ℕ) → length content ≡ size → result ≡ judge_put self.now.layout (files_in self.now.layout self.now.image.now) name.now letter content }
    {
        if !is_legal(self.layout, name, letter) {
            return Err(Refusal::IllegalName);
        }
        if size == 0 {
            return Err(Refusal::EmptyContent);
        }
        if let Some(slot) = self.slot_named(name, letter) {
            return Err(Refusal::NameTaken(slot));
        }
        let head = Head {
            bytes: self.image,
            layout: self.layout,
        };
        let slot = head.empty_slot().ok_or(Refusal::DirectoryFull)?;
        judge_room(free, size, slot)
    }

    // A page of a slot's file, with what it cost: 10, 17.
    pub(crate) fn page(&self, slot: usize, offset: usize, out: &mut [u8]) -> Metered
        ensures image_after { came (paged_of result.paged) out.new self.now.image.now ≡ paging self.now.image.now (file_at self.now.layout (files_in self.now.layout self.now.image.now) slot) offset out.old }
        ensures cost_value { result.cost ≡ page_cost (file_at self.now.layout (files_in self.now.layout self.now.image.now) slot) offset (length out.old) }
    {
        let Disk { image, layout } = *self;
        let slots = layout.slots;
        if slots <= slot {
            return unpaged(Refusal::NoFile);
        }
        let head = Head {
            bytes: image,
            layout,
        };
        if !head.is_used(slot) {
            return unpaged(Refusal::NoFile);
        }
        let size = head.size_of(slot);
        if offset > size {
            return unpaged(Refusal::OffsetPastEnd);
        }
        let start = head.start_of(slot);
        let count = out.len().min(size - offset);
        let links = (size - 1) / 1024;
        let cost = pages::page_runs(image, layout, links, start, offset, out, count);
        let end = offset + count == size;
        Metered {
            paged: Ok(Piece { count, end }),
            cost,
        }
    }
}
