// The library's calls for C (include/skilletjay.h): each calls the function of its name in `skilletjay`, and promises what that one does.
#![tactic(auto)]

ghost use Rattle.std.specs.Prelude.{◌≡◌};
ghost use Rattle.record.specs.Record.{check, list, find, page, put, remove, salvage};
ghost use Rattle.locate.specs.Locate.{blocks_of};
ghost use Rattle.session.specs.Script.{after_run, run_of};
ghost use Rattle.samples.specs.Samples.{unpack_of, pack_of};
ghost use Rattle.program.specs.Program.{program_of};
ghost use Rattle.skilletjay.specs.Told.{told_of, checked, listed, found, paged, placed, removed, salvaged};
ghost use Rattle.skilletjay.specs.Results.{counted_result};

use samples::Sampler;
use skilletjay::{CChecked, CCounted, CDone, CFound, CListed, CPaged};

// Whether an image is accepted: refusals 1 to 9. The image is lent and kept.
#[unsafe(no_mangle)]
pub extern "C" fn sj_check(image: &[u8]) -> CChecked
    ensures { checked result ≡ told_of image.now check }
{
    skilletjay::sj_check(image)
}

// What a slot holds: refusals 1 to 9, then 10 if it is empty or not there. The image is lent and kept.
#[unsafe(no_mangle)]
pub extern "C" fn sj_list(image: &[u8], slot: usize) -> CListed
    ensures { listed slot result ≡ told_of image.now (list slot) }
{
    skilletjay::sj_list(image, slot)
}

// The slot of the file with a name and a type: refusals 1 to 9, then 11, then 10. Image and name are lent and kept.
#[unsafe(no_mangle)]
pub extern "C" fn sj_find(image: &[u8], name: &[u8], letter: u8) -> CFound
    ensures { found name.now letter result ≡ told_of image.now (find name.now letter) }
{
    skilletjay::sj_find(image, name, letter)
}

// A file's bytes from an offset on, to the output's front: refusals 1 to 9, then 10, then 17. The image is lent and kept; the output's other
// bytes are kept, and all of them on a refusal.
#[unsafe(no_mangle)]
pub extern "C" fn sj_page(image: &[u8], slot: usize, offset: usize, out: &mut [u8]) -> CPaged
    ensures { paged slot offset out.old result out.new ≡ told_of image.now (page slot offset out.old) }
{
    skilletjay::sj_page(image, slot, offset, out)
}

// The blocks that hold a slot's file, in order, to the output's front, and how many they are: refusals 1 to 9, then 10, then 21. The image is
// lent and kept; the output's other numbers are kept, and all of them on a refusal.
#[unsafe(no_mangle)]
pub extern "C" fn sj_blocks(image: &[u8], slot: usize, out: &mut [u16]) -> CCounted
    ensures answer { result ≡ counted_result (blocks_of image.now slot out.old).answer }
    ensures output { out.new ≡ (blocks_of image.now slot out.old).output }
{
    skilletjay::sj_blocks(image, slot, out)
}

// Puts a file: its slot is the lowest empty one, its blocks the lowest free ones. Refusals 1 to 9, then 11, 13, 12 at the slot that has
// name and type, 14, 15, 16. Name and content are lent and kept; so is the image on a refusal.
#[unsafe(no_mangle)]
pub extern "C" fn sj_put(image: &mut [u8], name: &[u8], letter: u8, content: &[u8]) -> CFound
    ensures { placed name.now letter content.now result image.new ≡ told_of image.old (put name.now letter content.now) }
{
    skilletjay::sj_put(image, name, letter, content)
}

// Removes the file with a name and a type: refusals 1 to 9, then 11, then 10. The name is lent and kept; so is the image on a refusal.
#[unsafe(no_mangle)]
pub extern "C" fn sj_remove(image: &mut [u8], name: &[u8], letter: u8) -> CDone
    ensures { removed name.now letter result image.new ≡ told_of image.old (remove name.now letter) }
{
    skilletjay::sj_remove(image, name, letter)
}

// Mends an image in place, says of each slot what became of it, and gives how many map values are others: refusals 1 and 2, then 21. The report's bytes
// past those of the slots are kept; on a refusal all of them are, and the image too.
#[unsafe(no_mangle)]
pub extern "C" fn sj_salvage(image: &mut [u8], report: &mut [u8]) -> CCounted
    ensures { salvaged report.old result report.new image.new ≡ told_of image.old (salvage report.old) }
{
    skilletjay::sj_salvage(image, report)
}

// Makes the calls of a script one after another, and gives how many were made. Script and pool are lent and kept; each call's reply and page
// are written to its own part of the output.
#[unsafe(no_mangle)]
pub extern "C" fn sj_run(image: &mut [u8], script: &[u8], pool: &[u8], out: &mut [u8]) -> usize
    ensures { after_run result out.new image.new ≡ run_of image.old script.now pool.now out.old }
{
    skilletjay::sj_run(image, script, pool, out)
}

// Unpacks a sample file into an array of words, and packs one from its header and words: refusals 18, for packing 19, and 21. What is read is lent
// and kept; so is the output past what is due, and all of it on a refusal.
#[unsafe(no_mangle)]
pub extern "C" fn sj_s900_unpack(file: &[u8], words: &mut [i16]) -> CCounted
    ensures answer { result ≡ counted_result (unpack_of Sampler.S900 file.now words.old).answer }
    ensures output { words.new ≡ (unpack_of Sampler.S900 file.now words.old).output }
{
    skilletjay::sj_s900_unpack(file, words)
}

#[unsafe(no_mangle)]
pub extern "C" fn sj_s900_pack(header: &[u8], words: &[i16], out: &mut [u8]) -> CCounted
    ensures answer { result ≡ counted_result (pack_of Sampler.S900 header.now words.now out.old).answer }
    ensures output { out.new ≡ (pack_of Sampler.S900 header.now words.now out.old).output }
{
    skilletjay::sj_s900_pack(header, words, out)
}

#[unsafe(no_mangle)]
pub extern "C" fn sj_s1000_unpack(file: &[u8], words: &mut [i16]) -> CCounted
    ensures answer { result ≡ counted_result (unpack_of Sampler.S1000 file.now words.old).answer }
    ensures output { words.new ≡ (unpack_of Sampler.S1000 file.now words.old).output }
{
    skilletjay::sj_s1000_unpack(file, words)
}

#[unsafe(no_mangle)]
pub extern "C" fn sj_s1000_pack(header: &[u8], words: &[i16], out: &mut [u8]) -> CCounted
    ensures answer { result ≡ counted_result (pack_of Sampler.S1000 header.now words.now out.old).answer }
    ensures output { out.new ≡ (pack_of Sampler.S1000 header.now words.now out.old).output }
{
    skilletjay::sj_s1000_pack(header, words, out)
}

// The number of keygroups of an S1000 program file: refusal 20. The file is lent and kept.
#[unsafe(no_mangle)]
pub extern "C" fn sj_program(file: &[u8]) -> CCounted
    ensures { result ≡ counted_result (program_of file.now) }
{
    skilletjay::sj_program(file)
}
