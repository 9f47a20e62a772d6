// The C interface (include/skilletjay.h): each call takes any bytes, and promises every field of its result and every byte of a lent output.
// C has a name for each sampler, so these stand twice here; and no library can stand on an archive, so `skilletjay_c` has each once more.
#![tactic(auto)]

ghost use Rattle.std.specs.Prelude.{◌≡◌};
ghost use Rattle.record.specs.Record.{check, list, find, page, put, remove, salvage};
ghost use Rattle.locate.specs.Locate.{blocks_of};
ghost use Rattle.session.specs.Script.{after_run, run_of};
ghost use Rattle.samples.specs.Samples.{unpack_of, pack_of};
ghost use Rattle.program.specs.Program.{program_of};
ghost use Rattle.skilletjay.specs.Told.{told_of, checked, listed, found, paged, placed, removed, salvaged};
ghost use Rattle.skilletjay.specs.Results.{counted_result};

use calls::{Entry, Piece};
use laws::Refusal;
use rules::Accepted;
use samples::Sampler;

// sj_checked: kind 900 or 1000, density 0 low or 1 high, the number of files and of free blocks.
#[repr(C)]
#[derive(Clone, Copy)]
pub struct CChecked {
    pub refusal: u32,
    pub place: usize,
    pub kind: u32,
    pub density: u32,
    pub files: usize,
    pub free: usize,
}

// sj_listed: the name in ASCII, then zeros; the type byte; the file's length. The field `letter` is C's `type`.
#[repr(C)]
#[derive(Clone, Copy)]
pub struct CListed {
    pub refusal: u32,
    pub place: usize,
    pub name: [u8; 12],
    pub letter: u8,
    pub length: usize,
}

// sj_found
#[repr(C)]
#[derive(Clone, Copy)]
pub struct CFound {
    pub refusal: u32,
    pub place: usize,
    pub slot: usize,
}

// sj_paged: how many bytes were written, and whether the file ends with them.
#[repr(C)]
#[derive(Clone, Copy)]
pub struct CPaged {
    pub refusal: u32,
    pub place: usize,
    pub count: usize,
    pub end: bool,
}

// sj_done
#[repr(C)]
#[derive(Clone, Copy)]
pub struct CDone {
    pub refusal: u32,
    pub place: usize,
}

// sj_counted: blocks of a file, words of a sample, bytes of a file, keygroups of a program, map values changed.
#[repr(C)]
#[derive(Clone, Copy)]
pub struct CCounted {
    pub refusal: u32,
    pub place: usize,
    pub count: usize,
}

// What C gets of the check.
impl From<Result<Accepted, Refusal>> for CChecked {
    ghost use Rattle.std.specs.Prelude.{◌≡◌};
    ghost use Rattle.rules.specs.Check.{answer_of};
    ghost use Rattle.skilletjay.specs.Results.{checked_result};

    ghost from_gives = { λ checked told. told ≡ checked_result (answer_of checked) };

    fn from(checked: Result<Accepted, Refusal>) -> CChecked {
        match checked {
            Ok(disk) => CChecked {
                refusal: 0,
                place: 0,
                kind: disk.kind as u32,
                density: disk.density as u32,
                files: disk.files,
                free: disk.free,
            },
            Err(refusal) => CChecked {
                refusal: refusal.number(),
                place: refusal.place(),
                kind: 0,
                density: 0,
                files: 0,
                free: 0,
            },
        }
    }
}

// What C gets of a listing. Its 12 bytes are zeros but for the name (`Lists`).
impl From<Result<Entry, Refusal>> for CListed {
    ghost use Rattle.std.specs.Prelude.{◌≡◌};
    ghost use Rattle.calls.specs.Answers.{listed_of, name_in};
    ghost use Rattle.skilletjay.specs.Results.{listed_with};

    ghost from_gives = { λ listed told. told ≡ listed_with (listed_of listed) (name_in listed) };

    fn from(listed: Result<Entry, Refusal>) -> CListed {
        match listed {
            Ok(entry) => {
                let name = entry.name;
                CListed {
                    refusal: 0,
                    place: 0,
                    name,
                    letter: entry.letter,
                    length: entry.length,
                }
            }
            Err(refusal) => CListed {
                refusal: refusal.number(),
                place: refusal.place(),
                name: [0; 12],
                letter: 0,
                length: 0,
            },
        }
    }
}

// What C gets of a find or a put.
impl From<Result<usize, Refusal>> for CFound {
    ghost use Rattle.std.specs.Prelude.{◌≡◌};
    ghost use Rattle.calls.specs.Answers.{found_of};
    ghost use Rattle.skilletjay.specs.Results.{found_result};

    ghost from_gives = { λ found told. told ≡ found_result (found_of found) };

    fn from(found: Result<usize, Refusal>) -> CFound {
        match found {
            Ok(slot) => CFound {
                refusal: 0,
                place: 0,
                slot,
            },
            Err(refusal) => CFound {
                refusal: refusal.number(),
                place: refusal.place(),
                slot: 0,
            },
        }
    }
}

// What C gets of a page.
impl From<Result<Piece, Refusal>> for CPaged {
    ghost use Rattle.std.specs.Prelude.{◌≡◌};
    ghost use Rattle.calls.specs.Answers.{paged_of};
    ghost use Rattle.skilletjay.specs.Results.{paged_result};

    ghost from_gives = { λ paged told. told ≡ paged_result (paged_of paged) };

    fn from(paged: Result<Piece, Refusal>) -> CPaged {
        match paged {
            Ok(piece) => CPaged {
                refusal: 0,
                place: 0,
                count: piece.count,
                end: piece.end,
            },
            Err(refusal) => CPaged {
                refusal: refusal.number(),
                place: refusal.place(),
                count: 0,
                end: false,
            },
        }
    }
}

// What C gets of a remove.
impl From<Result<(), Refusal>> for CDone {
    ghost use Rattle.std.specs.Prelude.{◌≡◌};
    ghost use Rattle.calls.specs.Answers.{removed_of};
    ghost use Rattle.skilletjay.specs.Results.{done_result};

    ghost from_gives = { λ removed told. told ≡ done_result (removed_of removed) };

    fn from(removed: Result<(), Refusal>) -> CDone {
        match removed {
            Ok(()) => CDone {
                refusal: 0,
                place: 0,
            },
            Err(refusal) => CDone {
                refusal: refusal.number(),
                place: refusal.place(),
            },
        }
    }
}

// What C gets of a call that gives a count.
impl From<Result<usize, Refusal>> for CCounted {
    ghost use Rattle.std.specs.Prelude.{◌≡◌};
    ghost use Rattle.skilletjay.specs.Results.{counted_result};

    ghost from_gives = { λ counted told. told ≡ counted_result counted };

    fn from(counted: Result<usize, Refusal>) -> CCounted {
        match counted {
            Ok(count) => CCounted {
                refusal: 0,
                place: 0,
                count,
            },
            Err(refused) => CCounted {
                refusal: refused.number(),
                place: refused.place(),
                count: 0,
            },
        }
    }
}

// Whether an image is accepted: refusals 1 to 9. The image is lent and kept.
pub fn sj_check(image: &[u8]) -> CChecked
    ensures { checked result ≡ told_of image.now check }
{
    CChecked::from(disk::check(image))
}

// What a slot holds: refusals 1 to 9, then 10 if it is empty or not there. The image is lent and kept.
pub fn sj_list(image: &[u8], slot: usize) -> CListed
    ensures { listed slot result ≡ told_of image.now (list slot) }
{
    CListed::from(calls::list(image, slot))
}

// The slot of the file with a name and a type: refusals 1 to 9, then 11, then 10. Image and name are lent and kept.
pub fn sj_find(image: &[u8], name: &[u8], letter: u8) -> CFound
    ensures { found name.now letter result ≡ told_of image.now (find name.now letter) }
{
    CFound::from(calls::find(image, name, letter))
}

// A file's bytes from an offset on, to the output's front: refusals 1 to 9, then 10, then 17. The image is lent and kept; the output's other
// bytes are kept, and all of them on a refusal.
pub fn sj_page(image: &[u8], slot: usize, offset: usize, out: &mut [u8]) -> CPaged
    ensures { paged slot offset out.old result out.new ≡ told_of image.now (page slot offset out.old) }
{
    CPaged::from(calls::page(image, slot, offset, out))
}

// The blocks that hold a slot's file, in order, to the output's front, and how many they are: refusals 1 to 9, then 10, then 21. The image is
// lent and kept; the output's other numbers are kept, and all of them on a refusal.
pub fn sj_blocks(image: &[u8], slot: usize, out: &mut [u16]) -> CCounted
    ensures answer { result ≡ counted_result (blocks_of image.now slot out.old).answer }
    ensures output { out.new ≡ (blocks_of image.now slot out.old).output }
{
    CCounted::from(locate::file_blocks(image, slot, out))
}

// Puts a file: its slot is the lowest empty one, its blocks the lowest free ones. Refusals 1 to 9, then 11, 13, 12 at the slot that has
// name and type, 14, 15, 16. Name and content are lent and kept; so is the image on a refusal.
pub fn sj_put(image: &mut [u8], name: &[u8], letter: u8, content: &[u8]) -> CFound
    ensures { placed name.now letter content.now result image.new ≡ told_of image.old (put name.now letter content.now) }
{
    CFound::from(calls::put(image, name, letter, content))
}

// Removes the file with a name and a type: refusals 1 to 9, then 11, then 10. The name is lent and kept; so is the image on a refusal.
pub fn sj_remove(image: &mut [u8], name: &[u8], letter: u8) -> CDone
    ensures { removed name.now letter result image.new ≡ told_of image.old (remove name.now letter) }
{
    CDone::from(calls::remove(image, name, letter))
}

// Mends an image in place, says of each slot what became of it, and gives how many map values are others: refusals 1 and 2, then 21. The report's bytes
// past those of the slots are kept; on a refusal all of them are, and the image too.
pub fn sj_salvage(image: &mut [u8], report: &mut [u8]) -> CCounted
    ensures { salvaged report.old result report.new image.new ≡ told_of image.old (salvage report.old) }
{
    CCounted::from(calls::salvage(image, report))
}

// Makes the calls of a script one after another, and gives how many were made. Script and pool are lent and kept; each call's reply and page
// are written to its own part of the output.
pub fn sj_run(image: &mut [u8], script: &[u8], pool: &[u8], out: &mut [u8]) -> usize
    ensures { after_run result out.new image.new ≡ run_of image.old script.now pool.now out.old }
{
    session::run(image, script, pool, out)
}

// Unpacks a sample file into an array of words, and packs one from its header and words: refusals 18, for packing 19, and 21. What is read is lent
// and kept; so is the output past what is due, and all of it on a refusal.
pub fn sj_s900_unpack(file: &[u8], words: &mut [i16]) -> CCounted
    ensures answer { result ≡ counted_result (unpack_of Sampler.S900 file.now words.old).answer }
    ensures output { words.new ≡ (unpack_of Sampler.S900 file.now words.old).output }
{
    CCounted::from(samples::unpack(Sampler::S900, file, words))
}

pub fn sj_s900_pack(header: &[u8], words: &[i16], out: &mut [u8]) -> CCounted
    ensures answer { result ≡ counted_result (pack_of Sampler.S900 header.now words.now out.old).answer }
    ensures output { out.new ≡ (pack_of Sampler.S900 header.now words.now out.old).output }
{
    CCounted::from(samples::pack(Sampler::S900, header, words, out))
}

pub fn sj_s1000_unpack(file: &[u8], words: &mut [i16]) -> CCounted
    ensures answer { result ≡ counted_result (unpack_of Sampler.S1000 file.now words.old).answer }
    ensures output { words.new ≡ (unpack_of Sampler.S1000 file.now words.old).output }
{
    CCounted::from(samples::unpack(Sampler::S1000, file, words))
}

pub fn sj_s1000_pack(header: &[u8], words: &[i16], out: &mut [u8]) -> CCounted
    ensures answer { result ≡ counted_result (pack_of Sampler.S1000 header.now words.now out.old).answer }
    ensures output { out.new ≡ (pack_of Sampler.S1000 header.now words.now out.old).output }
{
    CCounted::from(samples::pack(Sampler::S1000, header, words, out))
}

// The number of keygroups of an S1000 program file: refusal 20. The file is lent and kept.
pub fn sj_program(file: &[u8]) -> CCounted
    ensures { result ≡ counted_result (program_of file.now) }
{
    CCounted::from(program::check(file))
}
