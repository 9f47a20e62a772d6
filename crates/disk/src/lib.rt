// The check (document 01, "The numbers given back"): refusals 1 to 9 in their order, and what an accepted image shows. Its first step, 1 and 2, is the
// salvage run's too.
#![tactic(auto)]

ghost use Rattle.std.specs.Prelude.{◌≡◌, ◌≤◌, length, Ok, Err, None};
ghost use Rattle.laws.specs.Reader.{bytes};
ghost use Rattle.laws.specs.Scan.{lowest};
ghost use Rattle.laws.specs.Refusals.{refusal_at};
ghost use Rattle.layout.specs.Layouts.{layout_of, head_length};
ghost use Rattle.view.specs.Rules.{bad_system, malformed};
ghost use Rattle.image.specs.Image.{view_of};
ghost use Rattle.slots.specs.Forms.{or_used};
ghost use Rattle.rules.specs.Check.{or_unknown, second_kind, known_kind, known_start, used_count, check_as, check_of, check_start, known_as};

use laws::Refusal;
use layout::{Density, Kind};
use rules::{Accepted, Format};
use slots::Head;

// The head of an image of a kind and a density.
pub fn head_of(bytes: &[u8], kind: Kind, density: Density) -> Head<'_>
    requires { head_length ≤ length bytes.now }
    ensures layout { result.layout ≡ layout_of kind density }
    ensures bytes { result.bytes.now ≡ bytes.now }
{
    Head {
        bytes,
        layout: layout::layout_of(kind, density),
    }
}

// Refusals 5 to 9 of an image that 3 and 4 don't refuse and whose used slots are counted, else what the check tells of it.
fn check_names(head: Head, kind: Kind, density: Density, files: usize) -> Result<Accepted, Refusal>
    requires { (head.layout ≡ layout_of kind density) × (lowest (bad_system head.layout (view_of head.layout (bytes head.bytes.now))) 0 head.layout.system ≡ None) × (Ok files ≡ or_used (lowest (malformed head.layout (view_of head.layout (bytes head.bytes.now))) 0 head.layout.slots) (used_count head.layout (view_of head.layout (bytes head.bytes.now)))) }
    ensures { result ≡ check_as kind density (bytes head.entry.bytes.now) }
{
    if let Some(slot) = head.name_fault() {
        return Err(Refusal::RepeatedName(slot));
    }
    let free = chains::chain_rules(head.bytes, head.layout)?;
    Ok(Accepted {
        kind,
        density,
        files,
        free,
    })
}

// The check of an image of a known kind and density: 3, then 4, then the rest.
fn check_as(image: &[u8], kind: Kind, density: Density) -> Result<Accepted, Refusal>
    requires { head_length ≤ length image.now }
    ensures { result ≡ check_as kind density (bytes image.now) }
{
    let head = head_of(image, kind, density);
    if let Some(block) = chains::system_fault(head) {
        return Err(Refusal::SystemBlock(block));
    }
    let files = head.count_formed()?;
    check_names(head, kind, density, files)
}

// The kind of an image whose first directory is passed over: 2 at low density.
fn second_kind(density: Density) -> Result<Format, Refusal>
    ensures { result ≡ or_unknown (second_kind density) 2 (λ k. known_as k density) }
{
    match density {
        Density::Low => Err(Refusal::UnknownKind),
        Density::High => Ok(Format {
            kind: Kind::S3000,
            density,
        }),
    }
}

// The kind of an image of a known density: slot 0's type tells, then the slots' identities; 2 if they are of none.
fn known_kind(head: &[u8], density: Density) -> Result<Format, Refusal>
    requires { head_length ≤ length head.now }
    ensures { result ≡ known_kind density (bytes head.now) }
{
    if slots::is_passed_over(head) {
        return second_kind(density);
    }
    if head_of(head, Kind::S900, density).has_identity() {
        return Ok(Format {
            kind: Kind::S900,
            density,
        });
    }
    if head_of(head, Kind::S1000, density).has_identity() {
        return Ok(Format {
            kind: Kind::S1000,
            density,
        });
    }
    Err(Refusal::UnknownKind)
}

// What is known of an image by its length, 1, and its directory, 2. The first 17,408 bytes are at hand, or all.
pub fn known(head: &[u8], length: usize) -> Result<Format, Refusal>
    ensures { result ≡ known_start head.now length }
{
    if head.len() < 17408 {
        return Err(Refusal::WrongLength);
    }
    if length == layout::image_length(Density::Low) {
        return known_kind(head, Density::Low);
    }
    if length == layout::image_length(Density::High) {
        return known_kind(head, Density::High);
    }
    Err(Refusal::WrongLength)
}

// The check of an image of which the first 17,408 bytes are at hand, or all, and its length.
pub fn check_head(head: &[u8], length: usize) -> Result<Accepted, Refusal>
    ensures { result ≡ check_start head.now length }
{
    let Format { kind, density } = known(head, length)?;
    check_as(head, kind, density)
}

// The check of an image.
pub fn check(image: &[u8]) -> Result<Accepted, Refusal>
    ensures { result ≡ check_of image.now }
{
    check_head(image, image.len())
}
