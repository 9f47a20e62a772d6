// The listing program (document 01): reads an image on standard input, and writes what it holds or why it is refused.
// `lines` makes all of the text in a lent output, where a promise says what it is; `run` alone reads and writes.
// The functions that put a part of it say which text they put, and where the next one goes; outside, only `cases` calls them.
// Output and index stay apart: the public ones of them (`put_refused`, `put_checked`, `put_file`) promise `Puts` of the index given and of the next.
#![tactic(auto)]

ghost use Rattle.std.specs.Prelude.{◌≡◌, ◌++◌, ◌+◌, ◌≤◌, ◌<◌, length, IfOk, OnErr};
ghost use Rattle.io.specs.Counts.{IsPrefixLen};
ghost use Rattle.laws.specs.Reader.{bytes};
ghost use Rattle.record.specs.Record.{density_number, entry};
ghost use Rattle.listing.specs.Listing.{decimal, density_word, refusal_text, told_by, told_text, letter_of, file_line, slot_line, slot_lines};
ghost use Rattle.listing.specs.Lines.{slot_answer, lines_of};
ghost use Rattle.listing.specs.Puts.{Puts, Fills};

use laws::Refusal;
use rules::Accepted;
use slots::Head;
use std::io::{Print, Read};
use std::rt::{Stdin, Stdout};

// Reads until the buffer is full or the input ends, and says how many bytes came. Where a read fails, some of the buffer may be written.
// A while: each turn goes on by as many bytes as came, which no range counts.
pub fn read_full(input: &mut Stdin, buffer: &mut [u8]) -> std::io::Result<usize>
    ensures ok { IfOk result (λ count. IsPrefixLen count buffer.new) }
    ensures err { OnErr result (length buffer.new ≡ length buffer.old) }
{
    let mut done = 0;
    while done < buffer.len() {
        let more = input.read(&mut buffer[done..])?;
        if more == 0 {
            break;
        }
        done += more;
    }
    Ok(done)
}

// Reads up to 65,536 bytes more, and says how many came.
fn skip_some(input: &mut Stdin) -> std::io::Result<usize>
    ensures { IfOk result (λ count. count ≤ 65536) }
{
    let mut space = [0u8; 65536];
    read_full(input, &mut space)
}

// How many bytes are left on standard input, as far as 64 turns count: that is more than any image has.
fn count_rest(input: &mut Stdin) -> std::io::Result<usize>
    ensures { IfOk result (λ count. count ≤ 4194304) }
{
    let mut total = 0;
    for _ in 0..64usize {
        let more = skip_some(input)?;
        if more == 0 {
            break;
        }
        total += more;
    }
    Ok(total)
}

// Puts a word into the output from an index on, as far as there is room, and gives the index past it.
fn put(word: &[u8], out: &mut [u8], at: usize) -> usize
    requires { (length word.now ≤ 65536) × (at ≤ 65536) }
    ensures { Puts (length word.now) word.now at out.old out.new result }
{
    for (i, &byte) in word.iter().enumerate() {
        if at + i < out.len() {
            out[at + i] = byte;
        }
    }
    at + word.len()
}

// A word, and the number after it.
fn put_number(word: &[u8], number: usize, out: &mut [u8; 24576], at: usize) -> usize
    requires { (length word.now ≤ 32768) × (at ≤ 32768) }
    ensures { Puts (length word.now + 20) (word.now ++ decimal number) at out.old out.new result }
{
    let next = put(word, out, at);
    let mut digits = [0u8; 20];
    let count = io::decimal(number as u64, &mut digits);
    put(&digits[0..count], out, next)
}

// A refusal as its line tells it, by number and place. Both may be any, as in what C gets.
#[derive(Clone, Copy, Debug, PartialEq, Eq)]
pub struct Reason {
    pub number: u32,
    pub place: usize,
}

impl From<Refusal> for Reason {
    ghost use Rattle.std.specs.Prelude.{◌≡◌};
    ghost use Rattle.listing.specs.Listing.{reason_of};

    ghost from_gives = { λ refusal reason. reason ≡ reason_of refusal };

    fn from(refusal: Refusal) -> Reason {
        Reason {
            number: refusal.number(),
            place: refusal.place(),
        }
    }
}

// The check's answer, with its refusal by number and place.
pub fn told(checked: Result<Accepted, Refusal>) -> Result<Accepted, Reason>
    ensures { result ≡ told_by checked }
{
    match checked {
        Ok(disk) => Ok(disk),
        Err(refusal) => Err(Reason::from(refusal)),
    }
}

// A refusal, without its line's end.
pub fn put_refused(refusal: Reason, out: &mut [u8; 24576], at: usize) -> usize
    requires { at ≤ 24576 }
    ensures { Puts 52 (refusal_text refusal) at out.old out.new result }
{
    let next = put_number(b"refused ", refusal.number as usize, out, at);
    put_number(b" at ", refusal.place, out, next)
}

fn put_density(density: layout::Density, out: &mut [u8; 24576], at: usize) -> usize
    requires { at ≤ 24704 }
    ensures { Puts 5 (density_word (density_number density)) at out.old out.new result }
{
    match density {
        layout::Density::Low => put(b" low", out, at),
        layout::Density::High => put(b" high", out, at),
    }
}

// The check's answer, without its line's end.
pub fn put_checked(checked: Result<Accepted, Reason>, out: &mut [u8; 24576], at: usize) -> usize
    requires { at ≤ 24576 }
    ensures { Puts 79 (told_text checked) at out.old out.new result }
{
    match checked {
        Ok(disk) => {
            let next = put_number(b"S", disk.kind as usize, out, at);
            let next = put_density(disk.density, out, next);
            let next = put_number(b" files ", disk.files, out, next);
            put_number(b" free ", disk.free, out, next)
        }
        Err(refusal) => put_refused(refusal, out, at),
    }
}

// What is written of a type byte: its letter, a capital where the byte is that plus 128. A letter has seven bits.
fn letter_of(byte: u8) -> u8
    ensures { result ≡ letter_of byte }
{
    byte & 127
}

// A file's type, length and name, and the line's end.
pub fn put_file(byte: u8, size: usize, name: &[u8], out: &mut [u8; 24576], at: usize) -> usize
    requires { (length name.now ≤ 12) × (at ≤ 24704) }
    ensures { Puts 38 (file_line (entry name.now byte size)) at out.old out.new result }
{
    let letters = [letter_of(byte)];
    let next = put(&letters, out, at);
    let next = put_number(b" ", size, out, next);
    let next = put(b" [", out, next);
    let next = put(name, out, next);
    put(b"]\n", out, next)
}

// The line of a slot, if it is used.
fn put_slot(head: Head, slot: usize, out: &mut [u8; 24576], at: usize) -> usize
    requires { (slot < head.layout.slots) × (at ≤ 24576) }
    ensures { Puts 47 (slot_line slot (slot_answer head.entry.layout (bytes head.entry.bytes.now) slot)) at out.old out.new result }
{
    if !head.is_used(slot) {
        return at;
    }
    let letters = head.layout.letters;
    let from = head.layout.directory + 24 * slot;
    let to = from + 16;
    let name = names::name_of(head.layout, &head.bytes[from..to]);
    let byte = head.type_of(slot);
    let size = head.size_of(slot);
    let next = put_number(b"slot ", slot, out, at);
    let next = put(b" ", out, next);
    put_file(byte, size, &name[0..letters], out, next)
}

// The lines of the used slots, in order.
fn put_slots(head: Head, out: &mut [u8; 24576], at: usize) -> usize
    requires { at ≤ 80 }
    ensures { Puts 24064 (slot_lines (slot_answer head.entry.layout (bytes head.entry.bytes.now)) head.entry.layout.slots) at out.old out.new result }
{
    let mut next = at;
    for slot in 0..head.layout.slots {
        next = put_slot(head, slot, out, next);
    }
    next
}

// Puts the listing of an image, of which the head and the length are at hand, at the front of the output, and gives how
// long it is. 24,576 bytes are enough for every image.
pub fn lines(head: &[u8], length: usize, out: &mut [u8; 24576]) -> usize
    ensures { Fills (lines_of head.now length) out.old out.new result }
{
    let checked = disk::check_head(head, length);
    let next = put_checked(told(checked), out, 0);
    let next = put(b"\n", out, next);
    let Ok(accepted) = checked else {
        return next;
    };
    let next = put_slots(
        disk::head_of(head, accepted.kind, accepted.density),
        out,
        next,
    );
    let next = put_number(b"end ", accepted.files, out, next);
    put(b"\n", out, next)
}

// Lists the image on standard input: of its bytes the first 17,408 are kept, the rest is counted. A read or write that fails is an error.
pub fn run(mut input: Stdin, output: Stdout) -> std::io::Result<()> {
    let mut head = [0u8; 17408];
    let kept = read_full(&mut input, &mut head)?;
    let rest = count_rest(&mut input)?;
    let mut out = [0u8; 24576];
    let count = lines(&head[0..kept], kept + rest, &mut out);
    output.write_all(&out[0..count])
}
