// The calls on any bytes: each takes the check's answer apart first, salvage what is known of the image, and promises what `call_of` says it comes to.
#![tactic(auto)]

ghost use Rattle.std.specs.Prelude.{◌≡◌, List, [], ℕ, ◌≤◌, length, true};
ghost use Rattle.record.specs.Order.{room_for};
ghost use Rattle.layout.specs.Layouts.{image_length};
ghost use Rattle.layout.specs.Right.{LayoutRight};
ghost use Rattle.record.specs.Record.{is_legal};
ghost use Rattle.laws.specs.Refusals.{refusal_at};
ghost use Rattle.rules.specs.Check.{came, salvage_as, call_of};
ghost use Rattle.calls.specs.Answers.{found_of, paged_of, Lists, unpaged_by, list_call, find_call, page_call, put_call, remove_call, salvage_call, removed_of};
ghost use Rattle.calls.specs.Metered.{cost_in};

mod accepted;

pub use accepted::Disk;
use laws::Refusal;
use rules::{Accepted, Format};

// How many bytes a page has, and whether the file ends with them.
#[derive(Clone, Copy)]
pub struct Piece {
    pub count: usize,
    pub end: bool,
}

// What a page answers, and what it cost.
#[derive(Clone, Copy)]
pub struct Metered {
    pub paged: Result<Piece, Refusal>,
    pub cost: pages::Cost,
}

// A file's name length, type byte and length, and its name in ASCII, then zeros.
#[derive(Clone, Copy)]
pub struct Entry {
    pub letters: usize,
    pub letter: u8,
    pub length: usize,
    pub name: [u8; 12],
}

// Whether a file may have the name and the type (refusal 11).
fn is_legal(layout: layout::Layout, name: &[u8], letter: u8) -> bool
    ensures { result ≡ is_legal layout name.now letter }
{
    names::is_name(layout, name) && names::is_type(layout, letter)
}

// Put's last refusals, for a content of some length: 15, 16.
fn judge_room(free: usize, size: usize, slot: usize) -> Result<usize, Refusal>
    requires { 1 ≤ size }
    ensures { result ≡ room_for free size slot }
{
    let wanted = (size - 1) / 1024 + 1;
    if free < wanted {
        return Err(Refusal::DiskFull);
    }
    if size > 16777215 {
        return Err(Refusal::ContentTooLong);
    }
    Ok(slot)
}

// A page that was refused, for which nothing was followed or copied.
fn unpaged(refusal: Refusal) -> Metered
    ensures { result ≡ unpaged_by refusal }
{
    Metered {
        paged: Err(refusal),
        cost: pages::Cost { links: 0, runs: 0 },
    }
}

// What a slot holds.
pub fn list(image: &[u8], slot: usize) -> Result<Entry, Refusal>
    ensures { Lists image.now (call_of image.now (list_call slot)) result }
{
    let checked = disk::check(image);
    let Ok(Accepted { kind, density, .. }) = checked else {
        return Err(checked.unwrap_err());
    };
    let layout = layout::layout_of(kind, density);
    Disk { image, layout }.list(slot)
}

// The slot of the file with a name and a type.
pub fn find(image: &[u8], name: &[u8], letter: u8) -> Result<usize, Refusal>
    ensures { came (found_of result) [] image.now ≡ call_of image.now (find_call name.now letter) }
{
    let checked = disk::check(image);
    let Ok(Accepted { kind, density, .. }) = checked else {
        return Err(checked.unwrap_err());
    };
    let layout = layout::layout_of(kind, density);
    Disk { image, layout }.judge_name(name, letter)
}

// Bytes of a slot's file from an offset on, to the front of the output.
pub fn page(image: &[u8], slot: usize, offset: usize, out: &mut [u8]) -> Result<Piece, Refusal>
    ensures { came (paged_of result) out.new image.now ≡ call_of image.now (page_call slot offset out.old) }
{
    let checked = disk::check(image);
    let Ok(Accepted { kind, density, .. }) = checked else {
        return Err(checked.unwrap_err());
    };
    let layout = layout::layout_of(kind, density);
    Disk { image, layout }.page(slot, offset, out).paged
}

// The same page, with what it cost.
pub fn metered_page(image: &[u8], slot: usize, offset: usize, out: &mut [u8]) -> Metered
    ensures image_after { came (paged_of result.paged) out.new image.now ≡ call_of image.now (page_call slot offset out.old) }
    ensures cost_value { result.cost ≡ cost_in image.now slot offset (length out.old) }
{
    match disk::check(image) {
        Ok(Accepted { kind, density, .. }) => {
            let layout = layout::layout_of(kind, density);
            Disk { image, layout }.page(slot, offset, out)
        }
        Err(refusal) => unpaged(refusal),
    }
}

// Puts a file: its slot.
pub fn put(image: &mut [u8], name: &[u8], letter: u8, content: &[u8]) -> Result<usize, Refusal>
    ensures { came (found_of result) [] image.new ≡ call_of image.old (put_call name.now letter content.now) }
{
    let checked = disk::check(image);
    let Ok(
        Accepted {
            kind,
            density,
            free,
            ..
        },
    ) = checked
    else {
        return Err(checked.unwrap_err());
    };
    let layout = layout::layout_of(kind, density);
    let slot = Disk { image, layout }.judge_put(free, name, letter, content.len())?;
    let area = names::area_of(layout, name);
    changes::put_slot(image, layout, slot, area, letter, content);
    Ok(slot)
}

// Removes the file with a name and a type.
pub fn remove(image: &mut [u8], name: &[u8], letter: u8) -> Result<(), Refusal>
    ensures { came (removed_of result) [] image.new ≡ call_of image.old (remove_call name.now letter) }
{
    let checked = disk::check(image);
    let Ok(Accepted { kind, density, .. }) = checked else {
        return Err(checked.unwrap_err());
    };
    let layout = layout::layout_of(kind, density);
    let slot = Disk { image, layout }.judge_name(name, letter)?;
    changes::remove_slot(image, layout, slot);
    Ok(())
}

// The salvage run on an image of a known layout: 21.
fn salvage_known(
    image: &mut [u8],
    layout: layout::Layout,
    report: &mut [u8],
) -> Result<usize, Refusal>
    requires { LayoutRight layout × (length image.old ≡ image_length layout) }
    ensures { came (found_of result) report.new image.new ≡ salvage_as layout image.old report.old }
{
    let slots = layout.slots;
    if report.len() < slots {
        return Err(Refusal::OutputTooShort);
    }
    Ok(mend::salvage(image, layout, report))
}

// Mends an image: how many map values are others afterwards; what is said of each slot to the front of the report.
pub fn salvage(image: &mut [u8], report: &mut [u8]) -> Result<usize, Refusal>
    ensures { came (found_of result) report.new image.new ≡ call_of image.old (salvage_call report.old) }
{
    let Format { kind, density } = disk::known(image, image.len())?;
    let layout = layout::layout_of(kind, density);
    salvage_known(image, layout, report)
}
