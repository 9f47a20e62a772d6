// Runs cases that stand on standard input, 65,536 bytes of them at most, a command to a line, and prints what each
// gives. A command's first letter says what it does; numbers and texts stand one space apart:
//   # TEXT                               prints the line
//   zeros LENGTH                         an image of zeros, at most 1,638,401
//   byte AT VALUE                        stores a byte
//   word AT VALUE                        stores two bytes, the low one first
//   run AT VALUE COUNT STEP              stores a word at COUNT offsets, STEP apart
//   map BLOCK VALUE                      stores a block's map value
//   join BLOCK COUNT VALUE               links COUNT blocks in rising order, and stores VALUE at the last
//   entry SLOT TYPE LENGTH START NAME    stores a slot but for its identity: with a small TYPE letter as the S1000 does
//                                        (AKAII, then four bytes of 32), else as the S900 does (ASCII, then six zeros)
//   other SLOT TYPE LENGTH START NAME    stores a slot of the second directory as the S3000 does: AKAII, then 0,0,0,2; a
//                                        capital TYPE letter plus 128; and identity 0,12
//   data BLOCK COUNT FIRST               stores FIRST, FIRST + 1, .. from a block on, modulo 251
//   check, list SLOT, find TYPE [NAME]   print the answer; TYPE is the type byte itself
//   page SLOT OFFSET SIZE                prints it, the output's first four bytes and a sum over all of its SIZE bytes,
//                                        which held 238 before: those past the count are seen to be kept,
//                                        and all of them on a refusal
//   took SLOT OFFSET SIZE                prints the answer of a page into SIZE bytes, at most 65,536, and what it cost
//   salvage SIZE                         mends the image with a report of SIZE bytes of 9, at most 4,096; prints the
//                                        answer and all bytes of the report, in groups of eight: those past the slots
//                                        are seen to be kept, and all of them on a refusal
#![tactic(auto)]

mod answers;
mod build;
mod line;
mod print;

use std::io;
use std::io::Print;
use std::rt::Stdout;

// Room for the longest image and one byte more, so that one that is too long can be asked about.
pub(crate) type Image = [u8; 1638401];

// Prints the line, with its end.
fn print_text(output: Stdout, text: &[u8]) -> io::Result<()> {
    output.write_all(text)?;
    print::line_end(output)
}

// Runs a command that changes the image, and gives the image's length after it.
fn store(image: &mut Image, length: usize, text: &[u8]) -> usize {
    let a = line::number(text, line::word_end(text));
    let b = line::number(text, a.next);
    let c = line::number(text, b.next);
    let d = line::number(text, c.next);
    match line::byte_at(text, 0) {
        b'z' => {
            build::clear(image);
            return a.value;
        }
        b'b' => build::set_byte(image, a.value, b.value),
        b'w' => build::set_word(image, a.value, b.value),
        b'r' => build::set_words(image, a.value, b.value, c.value, d.value),
        b'm' => build::set_map(image, a.value, b.value),
        b'j' => build::set_links(image, a.value, b.value, c.value),
        b'd' => build::set_data(image, a.value, b.value, c.value),
        b'e' => build::set_entry(image, text),
        b'o' => build::set_other(image, text),
        _ => {}
    }
    length
}

// Runs a command that asks something of the image.
fn ask(output: Stdout, image: &[u8], text: &[u8]) -> io::Result<()> {
    let a = line::number(text, line::word_end(text));
    let b = line::number(text, a.next);
    let c = line::number(text, b.next);
    match line::byte_at(text, 0) {
        b'#' => print_text(output, text),
        b'c' => print::checked(output, disk::check(image)),
        b'l' => answers::print_listed(output, calls::list(image, a.value)),
        b'f' => answers::find(output, image, text, 5),
        b'p' => answers::page(output, image, a.value, b.value, c.value),
        b't' => answers::cost(output, image, a.value, b.value, c.value),
        _ => Ok(()),
    }
}

// Runs a command that mends the image.
fn mend(output: Stdout, image: &mut [u8], text: &[u8]) -> io::Result<()> {
    match line::byte_at(text, 0) {
        b's' => answers::salvage(
            output,
            image,
            line::number(text, line::word_end(text)).value,
        ),
        _ => Ok(()),
    }
}

// Runs one line, and gives the image's length after it. What is asked and mended are the image's first bytes, as many as it has.
// Always inlined, so that the stack for the largest page is made ready once and not at each line.
#[inline(always)]
fn command(output: Stdout, image: &mut Image, length: usize, text: &[u8]) -> io::Result<usize> {
    let after = store(image, length, text);
    if after <= image.len() {
        ask(output, &image[..after], text)?;
        mend(output, &mut image[..after], text)?;
    }
    Ok(after)
}

// Runs the lines of a text.
fn run(output: Stdout, image: &mut Image, text: &[u8]) -> io::Result<()> {
    let mut length: usize = 0;
    for line in text.split(|&byte| byte == b'\n') {
        length = command(output, image, length, line)?;
    }
    Ok(())
}

fn blank() -> Image {
    [0; 1638401]
}

fn main(rt: HostRuntime) -> io::Result<()> {
    let mut image = blank();
    let mut text = [0u8; 65536];
    let count = listing::read_full(&mut rt.stdin(), &mut text)?;
    run(rt.stdout(), &mut image, &text[..count])
}
