// Names and types: AKAII both ways, what is legal on a layout, and a name's area on the disk.
#![tactic(auto)]

ghost use Rattle.std.specs.Prelude.{◌≡◌, true, length, take, drop, get_or, ◌-◌, ◌≤◌, ◌<◌};
ghost use Rattle.laws.specs.Lists.{all_of, same};
ghost use Rattle.laws.specs.Padded.{padded};
ghost use Rattle.laws.specs.Truth.{within};
ghost use Rattle.layout.specs.Right.{LayoutRight};
ghost use Rattle.names.specs.Akaii.{akaii_of, ascii_of, has_image, image_of};
ghost use Rattle.names.specs.Names.{stored_byte, akaii_byte, ascii_byte, given_byte, to_disk, to_ascii, padding, legal_name, legal_type, area_of, legal_area, name_of};

// The AKAII code of an ASCII byte; a small letter has its capital's.
#[tactic(auto, unfolding(crate::specs::Akaii::akaii_of))]
pub fn to_akaii(ascii: u8) -> Option<u8>
    ensures { result ≡ akaii_of ascii }
{
    match ascii {
        48..=57 => Some(ascii - 48),
        65..=90 => Some(ascii - 54),
        97..=122 => Some(ascii - 86),
        32 => Some(10),
        35 => Some(37),
        43 => Some(38),
        45 => Some(39),
        46 => Some(40),
        _ => None,
    }
}

// The ASCII byte of an AKAII code.
#[tactic(auto, unfolding(crate::specs::Akaii::ascii_of))]
pub fn to_ascii(code: u8) -> Option<u8>
    ensures { result ≡ ascii_of code }
{
    match code {
        0..=9 => Some(code + 48),
        11..=36 => Some(code + 54),
        10 => Some(32),
        37 => Some(35),
        38 => Some(43),
        39 => Some(45),
        40 => Some(46),
        _ => None,
    }
}

// Whether a number is an AKAII code, a byte of names in S1000 files.
#[tactic(auto, using(laws::proofs::Tests::within_told, crate::specs::NameLaws::akaii_within))]
pub fn is_akaii(number: usize) -> bool
    ensures { result ≡ akaii_byte number }
{
    (0..=40).contains(&number)
}

// Whether a number is an ASCII byte of names in S900 files.
#[tactic(auto, using(laws::proofs::Tests::within_told), unfolding(crate::specs::Names::ascii_byte))]
pub fn is_ascii(number: usize) -> bool
    ensures { result ≡ ascii_byte number }
{
    (32..=126).contains(&number)
}

// Whether a byte is legal in a name on the disk.
#[tactic(auto, using(laws::proofs::Tests::within_told), unfolding(crate::specs::Names::stored_byte))]
pub fn is_stored(layout: layout::Layout, byte: u8) -> bool
    ensures { result ≡ stored_byte layout byte }
{
    (layout.low..=layout.high).contains(&usize::from(byte))
}

// Whether a byte is legal in a name as callers give it, in ASCII.
#[tactic(auto, unfolding(crate::specs::Names::given_byte))]
pub fn is_given(layout: layout::Layout, byte: u8) -> bool
    ensures { result ≡ given_byte layout byte }
{
    if layout.akaii {
        return to_akaii(byte).is_some();
    }
    is_stored(layout, byte)
}

// Whether a type byte is legal.
#[tactic(auto, using(laws::proofs::Tests::within_told), unfolding(crate::specs::Names::legal_type))]
pub fn is_type(layout: layout::Layout, letter: u8) -> bool
    ensures { result ≡ legal_type layout letter }
{
    (layout.least..=layout.most).contains(&usize::from(letter))
}

// Whether callers may give a name: it has the layout's length, and each byte is legal.
pub fn is_name(layout: layout::Layout, name: &[u8]) -> bool
    ensures { result ≡ legal_name layout name.now }
{
    name.len() == layout.letters && name.iter().all(|&byte| is_given(layout, byte))
}

// A name's byte on the disk.
#[tactic(auto, unfolding(crate::specs::Names::to_disk))]
fn disk_byte(layout: layout::Layout, ascii: u8) -> u8
    ensures { result ≡ to_disk layout ascii }
{
    if layout.akaii {
        return to_akaii(ascii).unwrap_or(0);
    }
    ascii
}

// A name's byte as callers see it.
#[tactic(auto, unfolding(crate::specs::Names::to_ascii))]
fn ascii_byte(layout: layout::Layout, code: u8) -> u8
    ensures { result ≡ to_ascii layout code }
{
    if layout.akaii {
        return to_ascii(code).unwrap_or(0);
    }
    code
}

// A legal name's area on the disk. Find, put and remove call it once `is_name` has passed the name.
pub fn area_of(layout: layout::Layout, name: &[u8]) -> [u8; 16]
    requires { (LayoutRight layout) × (legal_name layout name.now ≡ true) }
    ensures { result ≡ area_of layout name.now }
{
    let mut area = [layout.pad as u8; 16];
    area[15] = layout.last as u8;
    for (i, &byte) in name.iter().enumerate() {
        area[i] = disk_byte(layout, byte);
    }
    area
}

// The name in an area of 16 bytes, in ASCII, then zeros.
pub fn name_of(layout: layout::Layout, area: &[u8]) -> [u8; 12]
    requires { (LayoutRight layout) × (length area.now ≡ 16) }
    ensures { result ≡ padded (name_of layout area.now) 12 }
{
    let mut name = [0u8; 12];
    for i in 0..layout.letters {
        name[i] = ascii_byte(layout, area[i]);
    }
    name
}

// Whether the name's bytes in an area are legal.
fn is_front(layout: layout::Layout, area: &[u8]) -> bool
    requires { (LayoutRight layout) × (length area.now ≡ 16) }
    ensures { result ≡ all_of (stored_byte layout) (take layout.letters area.now) }
{
    let front = &area[..layout.letters];
    front.iter().all(|&byte| is_stored(layout, byte))
}

// Whether the bytes past the name in an area are the padding.
fn is_padding(layout: layout::Layout, area: &[u8]) -> bool
    requires { (LayoutRight layout) × (length area.now ≡ 16) }
    ensures { result ≡ same (drop layout.letters area.now) (padding layout) }
{
    let fill = &area[layout.letters..15];
    fill.iter().all(|&byte| usize::from(byte) == layout.pad) && usize::from(area[15]) == layout.last
}

// Whether the disk may hold a name's area of 16 bytes: legal bytes, then the padding.
#[tactic(auto, unfolding(crate::specs::Names::legal_area))]
pub fn is_area(layout: layout::Layout, area: &[u8]) -> bool
    requires { (LayoutRight layout) × (length area.now ≡ 16) }
    ensures { result ≡ legal_area layout area.now }
{
    is_front(layout, area) && is_padding(layout, area)
}
