// Answers on standard output: the listing program's functions make their text, and it is written here.
use calls::Entry;
use laws::Refusal;
use listing::Reason;
use rules::Accepted;
use std::io;
use std::io::Print;
use std::rt::Stdout;

// A word, and the number after it.
pub(crate) fn number(output: Stdout, word: &[u8], number: usize) -> io::Result<()> {
    output.write_all(word)?;
    output.print(number)
}

// Every line ends with one line feed.
pub(crate) fn line_end(output: Stdout) -> io::Result<()> {
    output.write_all(b"\n")
}

// The first bytes of what was put, as far as there are so many.
fn first(output: Stdout, out: &[u8], count: usize) -> io::Result<()> {
    if count <= out.len() {
        output.write_all(&out[..count])?;
    }
    Ok(())
}

// A refusal, without its line's end.
pub(crate) fn refusal(output: Stdout, answer: Refusal) -> io::Result<()> {
    let mut out = [0u8; 24576];
    let count = listing::put_refused(Reason::from(answer), &mut out, 0);
    first(output, &out, count)
}

// The line of a refusal.
pub(crate) fn refused(output: Stdout, answer: Refusal) -> io::Result<()> {
    refusal(output, answer)?;
    line_end(output)
}

// The line of the check's answer.
pub(crate) fn checked(output: Stdout, answer: Result<Accepted, Refusal>) -> io::Result<()> {
    let mut out = [0u8; 24576];
    let count = listing::put_checked(listing::told(answer), &mut out, 0);
    first(output, &out, count)?;
    line_end(output)
}

// A file's line; a name has at most twelve letters.
pub(crate) fn file(output: Stdout, entry: Entry) -> io::Result<()> {
    let name = entry.name;
    if entry.letters <= 12 {
        let mut out = [0u8; 24576];
        let count = listing::put_file(
            entry.letter,
            entry.length,
            &name[..entry.letters],
            &mut out,
            0,
        );
        first(output, &out, count)?;
    }
    Ok(())
}
