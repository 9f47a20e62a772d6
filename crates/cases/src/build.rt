// What the commands store in the image. What lies past it is left out.
use crate::{Image, line};

pub(crate) fn clear(image: &mut Image) {
    *image = [0; 1638401];
}

// Stores a value modulo 256.
pub(crate) fn set_byte(image: &mut Image, at: usize, value: usize) {
    if at < 1638401 {
        image[at] = (value % 256) as u8;
    }
}

pub(crate) fn set_word(image: &mut Image, at: usize, value: usize) {
    if at < 1638401 {
        set_byte(image, at, value);
        set_byte(image, at + 1, value / 256);
    }
}

// Stores a word at `count` offsets, `step` apart.
pub(crate) fn set_words(image: &mut Image, at: usize, value: usize, count: usize, step: usize) {
    let mut next = at;
    for _ in 0..count {
        set_word(image, next, value);
        next = moved(next, step);
    }
}

// An offset and a step added, where both are small; else an offset past every image.
fn moved(at: usize, step: usize) -> usize {
    if at < 1638401 && step < 1638401 {
        at + step
    } else {
        1638401
    }
}

// Where a block's map value lies, its bytes, a slot, and one of the second directory; for a number too large, an offset
// past every image.
fn map_at(block: usize) -> usize {
    if block < 819200 {
        1536 + 2 * block
    } else {
        1638401
    }
}

fn block_at(block: usize) -> usize {
    if block < 1600 { 1024 * block } else { 1638401 }
}

fn slot_at(slot: usize) -> usize {
    if slot < 64 { 24 * slot } else { 1638401 }
}

fn other_at(slot: usize) -> usize {
    if slot < 512 {
        5120 + 24 * slot
    } else {
        1638401
    }
}

pub(crate) fn set_map(image: &mut Image, block: usize, value: usize) {
    set_word(image, map_at(block), value);
}

// Stores the links of `count` blocks in rising order, and a value at the last.
pub(crate) fn set_links(image: &mut Image, block: usize, count: usize, value: usize) {
    let mut next = block;
    for _ in 1..count {
        let link = moved(next, 1);
        set_map(image, next, link);
        next = link;
    }
    set_map(image, next, value);
}

// Stores count bytes from a block on, that count up modulo 251.
pub(crate) fn set_data(image: &mut Image, block: usize, count: usize, first: usize) {
    let at = block_at(block);
    for i in 0..count {
        set_byte(image, moved(at, i), (first % 251 + i % 251) % 251);
    }
}

// A byte in AKAII, 0 if it has no image.
fn akaii(byte: u8) -> usize {
    names::to_akaii(byte).map_or(0, usize::from)
}

// A name's byte as the kind stores it.
fn stored(byte: u8, s1000: bool) -> usize {
    if s1000 {
        akaii(byte)
    } else {
        usize::from(byte)
    }
}

// The byte of a name at an index of its text, spaces past its end.
fn letter_at(text: &[u8], at: usize) -> u8 {
    *text.get(at).unwrap_or(&b' ')
}

// Stores a name, `count` bytes of the text from an index on.
fn set_name(image: &mut Image, at: usize, text: &[u8], from: usize, count: usize, s1000: bool) {
    for i in 0..count {
        let letter = letter_at(text, moved(from, i));
        set_byte(image, moved(at, i), stored(letter, s1000));
    }
}

// What a slot's line says: SLOT TYPE LENGTH START NAME, the name as where it begins.
#[derive(Clone, Copy)]
struct Fields {
    slot: usize,
    letter: u8,
    size: usize,
    start: usize,
    name: usize,
}

fn fields_of(text: &[u8]) -> Fields {
    let slot = line::number(text, line::word_end(text));
    let letter_at = moved(slot.next, 1);
    let letter = line::byte_at(text, letter_at);
    let size = line::number(text, moved(letter_at, 1));
    let start = line::number(text, size.next);
    let name = moved(start.next, 1);
    Fields {
        slot: slot.value,
        letter,
        size: size.value,
        start: start.value,
        name,
    }
}

// Stores what lies after a slot's name alike on every kind of disk: type, length and start.
fn set_file(image: &mut Image, at: usize, byte: usize, size: usize, start: usize) {
    set_byte(image, moved(at, 16), byte);
    set_word(image, moved(at, 17), size);
    set_byte(image, moved(at, 19), size / 65536);
    set_word(image, moved(at, 20), start);
}

// Stores a slot of the first directory but for its identity, as the kind that has such a letter does.
pub(crate) fn set_entry(image: &mut Image, text: &[u8]) {
    let fields = fields_of(text);
    let at = slot_at(fields.slot);
    if fields.letter >= b'a' {
        set_name(image, at, text, fields.name, 12, true);
        set_words(image, moved(at, 12), 8224, 2, 2);
    } else {
        set_name(image, at, text, fields.name, 10, false);
        set_words(image, moved(at, 10), 0, 3, 2);
    }
    set_file(
        image,
        at,
        usize::from(fields.letter),
        fields.size,
        fields.start,
    );
}

// Stores a slot of the second directory, with its identity.
pub(crate) fn set_other(image: &mut Image, text: &[u8]) {
    let fields = fields_of(text);
    let at = other_at(fields.slot);
    set_name(image, at, text, fields.name, 12, true);
    set_word(image, moved(at, 12), 0);
    set_word(image, moved(at, 14), 512);
    let byte = usize::from(fields.letter) + 128;
    set_file(image, at, byte, fields.size, fields.start);
    set_word(image, moved(at, 22), 3072);
}
