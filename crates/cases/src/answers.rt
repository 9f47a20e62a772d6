// The calls' answers as lines.
ghost use Rattle.std.specs.Prelude.{◌<◌};

use crate::print;
use calls::{Entry, Metered, Piece};
use laws::Refusal;
use std::io;
use std::io::Print;
use std::rt::Stdout;

// The line of a slot's listing.
pub(crate) fn print_listed(output: Stdout, listed: Result<Entry, Refusal>) -> io::Result<()> {
    match listed {
        Ok(entry) => print::file(output, entry),
        Err(refusal) => print::refused(output, refusal),
    }
}

fn print_found(output: Stdout, found: Result<usize, Refusal>) -> io::Result<()> {
    match found {
        Ok(slot) => {
            print::number(output, b"slot ", slot)?;
            print::line_end(output)
        }
        Err(refusal) => print::refused(output, refusal),
    }
}

// Finds the file of the type at `at`, its name between the brackets two bytes on and at the text's end, and prints the answer.
pub(crate) fn find(output: Stdout, image: &[u8], text: &[u8], at: usize) -> io::Result<()> {
    let end = text.len();
    if at < end && end - at >= 4 {
        print_found(output, calls::find(image, &text[at + 3..end - 1], text[at]))?;
    }
    Ok(())
}

// A sum over all of the output: 31 times that of the bytes before, and the byte, modulo 65,521. A fold's closure would not know that the sum is small.
fn sum_of(out: &[u8]) -> usize {
    let mut sum: usize = 0;
    for &byte in out {
        sum = (31 * sum + usize::from(byte)) % 65521;
    }
    sum
}

// The first four bytes, each after a space.
fn print_front(output: Stdout, out: &[u8]) -> io::Result<()> {
    for &byte in out.iter().take(4) {
        print::number(output, b" ", usize::from(byte))?;
    }
    Ok(())
}

// A page's answer, without its line's end.
fn print_answer(output: Stdout, paged: Result<Piece, Refusal>) -> io::Result<()> {
    match paged {
        Ok(piece) => {
            print::number(output, b"count ", piece.count)?;
            if piece.end {
                output.write_all(b" end")
            } else {
                output.write_all(b" more")
            }
        }
        Err(refusal) => print::refusal(output, refusal),
    }
}

// The line of a page: the answer, then the output, which a refusal must have kept.
fn print_paged(output: Stdout, paged: Result<Piece, Refusal>, out: &[u8]) -> io::Result<()> {
    print_answer(output, paged)?;
    print_front(output, out)?;
    print::number(output, b" sum ", sum_of(out))?;
    print::line_end(output)
}

// Pages into `size` bytes of 238, at most 4,096, and prints the answer.
pub(crate) fn page(
    output: Stdout,
    image: &[u8],
    slot: usize,
    offset: usize,
    size: usize,
) -> io::Result<()> {
    let mut out = [238u8; 4096];
    if size <= 4096 {
        let paged = calls::page(image, slot, offset, &mut out[..size]);
        print_paged(output, paged, &out[..size])?;
    }
    Ok(())
}

// The line of a page's cost: the answer, then the cost.
fn print_metered(output: Stdout, metered: Metered) -> io::Result<()> {
    print_answer(output, metered.paged)?;
    print::number(output, b" links ", metered.cost.links)?;
    print::number(output, b" runs ", metered.cost.runs)?;
    print::line_end(output)
}

// Pages into `size` bytes, at most 65,536, and prints what that cost.
pub(crate) fn cost(
    output: Stdout,
    image: &[u8],
    slot: usize,
    offset: usize,
    size: usize,
) -> io::Result<()> {
    let mut out = [0u8; 65536];
    if size <= 65536 {
        print_metered(
            output,
            calls::metered_page(image, slot, offset, &mut out[..size]),
        )?;
    }
    Ok(())
}

// The answer of a salvage run, without its line's end.
fn print_counted(output: Stdout, counted: Result<usize, Refusal>) -> io::Result<()> {
    match counted {
        Ok(count) => print::number(output, b"count ", count),
        Err(refusal) => print::refusal(output, refusal),
    }
}

// All bytes of a report in groups of eight, each group after a space.
fn print_report(output: Stdout, report: &[u8]) -> io::Result<()> {
    for (i, &said) in report.iter().enumerate() {
        if i % 8 == 0 {
            output.write_all(b" ")?;
        }
        output.print(usize::from(said))?;
    }
    Ok(())
}

// Mends the image with a report of `size` bytes of 9, at most 4,096, and prints the answer and the report, which a refusal must have kept.
pub(crate) fn salvage(output: Stdout, image: &mut [u8], size: usize) -> io::Result<()> {
    let mut report = [9u8; 4096];
    if size <= 4096 {
        let counted = calls::salvage(image, &mut report[..size]);
        print_counted(output, counted)?;
        print_report(output, &report[..size])?;
        print::line_end(output)?;
    }
    Ok(())
}
