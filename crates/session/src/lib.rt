// A whole script of calls on one image: decoded from lent bytes, made in order, each answer and page written to its own part of a lent output.
#![tactic(auto)]

ghost use Rattle.std.specs.Prelude.{◌≡◌, ◌≤◌, List, ℕ, length};
ghost use Rattle.laws.specs.Splice.{splice, part};
ghost use Rattle.record.specs.Record.{paged};
ghost use Rattle.session.specs.Script.{fits, flag, reply_of, reply_bytes, put_entry, named_entry, entry_call, after_entry, entered, after_run, run_of};
ghost use Rattle.session.specs.Replied.{replied, replied_by};

use calls::{Entry, Piece};
use laws::Refusal;

// An answer with the fields of all answers: refusal or 0, place or value, type, whether the end is reached, name.
#[derive(Clone, Copy)]
pub struct Reply {
    pub number: usize,
    pub value: usize,
    pub letter: u8,
    pub end: bool,
    pub name: [u8; 12],
}

impl Reply {
    // A value, and whether the end is reached.
    fn of(value: usize, end: bool) -> Reply
        ensures { result ≡ reply_of (paged value end) }
    {
        Reply {
            number: 0,
            value,
            letter: 0,
            end,
            name: [0; 12],
        }
    }
}

// A refusal's number and place.
impl From<Refusal> for Reply {
    ghost use Rattle.std.specs.Prelude.{◌≡◌};
    ghost use Rattle.record.specs.Record.{refused_by};
    ghost use Rattle.session.specs.Script.{reply_of};

    ghost from_gives = { λ refusal reply. reply ≡ reply_of (refused_by refusal) };

    fn from(refusal: Refusal) -> Reply {
        Reply {
            number: refusal.number() as usize,
            value: refusal.place(),
            letter: 0,
            end: false,
            name: [0; 12],
        }
    }
}

// What list answers, with the name's 12 bytes.
impl From<Result<Entry, Refusal>> for Reply {
    ghost use Rattle.std.specs.Prelude.{◌≡◌};
    ghost use Rattle.calls.specs.Answers.{listed_of, name_in};
    ghost use Rattle.session.specs.Script.{reply_with};

    ghost from_gives = { λ listed reply. reply ≡ reply_with (listed_of listed) (name_in listed) };

    fn from(listed: Result<Entry, Refusal>) -> Reply {
        match listed {
            Ok(entry) => {
                let name = entry.name;
                Reply {
                    number: 0,
                    value: entry.length,
                    letter: entry.letter,
                    end: false,
                    name,
                }
            }
            Err(refusal) => Reply::from(refusal),
        }
    }
}

// What find and put answer.
impl From<Result<usize, Refusal>> for Reply {
    ghost use Rattle.std.specs.Prelude.{◌≡◌};
    ghost use Rattle.calls.specs.Answers.{found_of};
    ghost use Rattle.session.specs.Script.{reply_of};

    ghost from_gives = { λ found reply. reply ≡ reply_of (found_of found) };

    fn from(found: Result<usize, Refusal>) -> Reply {
        match found {
            Ok(slot) => Reply::of(slot, false),
            Err(refusal) => Reply::from(refusal),
        }
    }
}

// What a page answers.
impl From<Result<Piece, Refusal>> for Reply {
    ghost use Rattle.std.specs.Prelude.{◌≡◌};
    ghost use Rattle.calls.specs.Answers.{paged_of};
    ghost use Rattle.session.specs.Script.{reply_of};

    ghost from_gives = { λ paged reply. reply ≡ reply_of (paged_of paged) };

    fn from(paged: Result<Piece, Refusal>) -> Reply {
        match paged {
            Ok(piece) => Reply::of(piece.count, piece.end),
            Err(refusal) => Reply::from(refusal),
        }
    }
}

// What remove answers.
impl From<Result<(), Refusal>> for Reply {
    ghost use Rattle.std.specs.Prelude.{◌≡◌};
    ghost use Rattle.calls.specs.Answers.{removed_of};
    ghost use Rattle.session.specs.Script.{reply_of};

    ghost from_gives = { λ removed reply. reply ≡ reply_of (removed_of removed) };

    fn from(removed: Result<(), Refusal>) -> Reply {
        match removed {
            Ok(()) => Reply::of(0, false),
            Err(refusal) => Reply::from(refusal),
        }
    }
}

// Writes a name's 12 bytes behind a reply's other fields.
fn write_name(shown: &mut [u8], name: [u8; 12])
    requires { 20 ≤ length shown.old }
    ensures { shown.new ≡ splice shown.old 8 name }
{
    blocks::copy_part(&name, 0, shown, 8, 12);
}

// Writes a reply's 20 bytes to the front of a call's part of the output.
fn write_reply(shown: &mut [u8], reply: Reply)
    requires { 20 ≤ length shown.old }
    ensures { shown.new ≡ splice shown.old 0 (reply_bytes reply) }
{
    let name = reply.name;
    let end = reply.end;
    blocks::store::<3>(shown, 0, reply.number);
    blocks::store::<3>(shown, 3, reply.value);
    shown[6] = reply.letter;
    shown[7] = u8::from(end);
    write_name(shown, name);
}

// Whether n bytes from an offset on lie in as many as there are.
fn is_in(size: usize, at: usize, n: usize) -> bool
    ensures { result ≡ fits size at n }
{
    at <= size && n <= size - at
}

// The calls by an entry's first byte. An enum would be made of it only to be matched on at once.
const LIST: u8 = 0;

const PAGE: u8 = 1;

const FIND: u8 = 2;

const REMOVE: u8 = 3;

const PUT: u8 = 4;

// Puts with a content from the pool, if it lies there. Only a page is written behind its reply.
fn run_put(image: &mut [u8], name: &[u8], entry: &[u8; 20], pool: &[u8]) -> Option<Reply>
    ensures { (shown : List ℕ) → replied result shown image.new ≡ replied_by (put_entry name.now entry.now pool.now) image.old shown }
{
    let at = blocks::number::<4>(entry, 12);
    let size = blocks::number::<4>(entry, 16);
    if !is_in(pool.len(), at, size) {
        return None;
    }
    let stop = at + size;
    let found = calls::put(image, name, entry[1], &pool[at..stop]);
    Some(Reply::from(found))
}

// A call that names a file.
fn run_named(image: &mut [u8], name: &[u8], entry: &[u8; 20], pool: &[u8]) -> Option<Reply>
    ensures { (shown : List ℕ) → replied result shown image.new ≡ replied_by (named_entry name.now entry.now pool.now) image.old shown }
{
    match entry[0] {
        FIND => {
            let found = calls::find(image, name, entry[1]);
            Some(Reply::from(found))
        }
        REMOVE => {
            let removed = calls::remove(image, name, entry[1]);
            Some(Reply::from(removed))
        }
        PUT => run_put(image, name, entry, pool),
        _ => None,
    }
}

// One entry's call: its reply, none if it is no call. A page is written behind the place of the reply.
fn call_entry(image: &mut [u8], entry: &[u8; 20], pool: &[u8], shown: &mut [u8]) -> Option<Reply>
    requires { 1044 ≤ length shown.old }
    ensures { replied result shown.new image.new ≡ replied_by (entry_call entry.now pool.now (part shown.old 20 1024)) image.old shown.old }
{
    let a = blocks::number::<4>(entry, 4);
    let b = blocks::number::<4>(entry, 8);
    match entry[0] {
        LIST => {
            let listed = calls::list(image, a);
            Some(Reply::from(listed))
        }
        PAGE => {
            let paged = calls::page(image, a, b, &mut shown[20..1044]);
            Some(Reply::from(paged))
        }
        _ => {
            if !is_in(pool.len(), a, b) {
                return None;
            }
            let stop = a + b;
            run_named(image, &pool[a..stop], entry, pool)
        }
    }
}

// One entry: whether it is a call. If not, nothing is written.
fn run_entry(image: &mut [u8], entry: &[u8; 20], pool: &[u8], shown: &mut [u8]) -> bool
    requires { 1044 ≤ length shown.old }
    ensures { after_entry result shown.new image.new ≡ entered image.old entry.now pool.now shown.old }
{
    let Some(reply) = call_entry(image, entry, pool, shown) else {
        return false;
    };
    write_reply(shown, reply);
    true
}

// Runs a script on an image, and says how many calls were made: it ends before the first entry that is no call, at the script's end, or where
// the output has no part left. `entry_call` (specs/Script.antt) has an entry's bytes, `reply_bytes` a reply's.
pub fn run(image: &mut [u8], script: &[u8], pool: &[u8], out: &mut [u8]) -> usize
    ensures { after_run result out.new image.new ≡ run_of image.old script.now pool.now out.old }
{
    let (entries, _) = script.as_chunks::<20>();
    let n = entries.len().min(out.len() / 1044);
    for k in 0..n {
        let entry = &entries[k];
        let at = 1044 * k;
        let end = at + 1044;
        let made = run_entry(image, entry, pool, &mut out[at..end]);
        if !made {
            return k;
        }
    }
    n
}
