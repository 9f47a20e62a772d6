// S900 and S1000 sample files: unpacked to words, and packed. The two calls ask nothing of their caller; the other functions are theirs alone.
#![tactic(auto)]

ghost use Rattle.std.specs.Prelude.{◌≡◌, map, ◌+◌, ◌*◌, ◌/◌, ◌%◌, ◌≤◌, ◌<◌, eqb, length};
ghost use Rattle.std.proofs.lemmas.List.Edits.{sets};
ghost use Rattle.laws.specs.Truth.{both};
ghost use Rattle.laws.specs.Scan.{lowest, all};
ghost use Rattle.laws.specs.Splice.{splice};
ghost use Rattle.laws.specs.Reader.{bytes, tab};
ghost use Rattle.blocks.specs.Numbers.{Number};
ghost use Rattle.words.specs.Words.{parts, bits_of, word_of, first_bits, second_bits, pair_at, upper_bits, packed900, unpacked900};
ghost use Rattle.laws.specs.Refusals.{filled};
ghost use Rattle.samples.specs.Samples.{header_size, count_offset, table_of, data_size, is_whole, packed1000, unpacked1000, packed, unpacked, head_fault, file_fault, header_fault, is_short, is_outside, range_fault, unpack_of, pack_of};

use headers::Table;
use laws::Refusal;

#[derive(Debug, Clone, Copy, PartialEq, Eq)]
pub enum Sampler {
    S900,
    S1000,
}

// ---- unpacking

// Two bytes as one number. A function of its own, so that the compiler makes them one load before a caller takes a part of it: without it the second
// half's low bits are read byte by byte, which takes S900 data twice the time.
fn pair(source: &[u8], at: usize) -> u16
    requires { at + 2 ≤ length source.now }
    ensures { Number 2 (bytes source.now) at result }
{
    blocks::number::<2>(source, at) as u16
}

// A word of the first half, and one of the second: a pair of bytes has the first one's upper eight bits, and below them the lower four of either.
fn first_word(pair: u16) -> i16
    ensures { result ≡ word_of 4096 (pair / 16) }
{
    words::word::<12>(pair / 16)
}

fn second_word(upper: u8, pair: u16) -> i16
    ensures { result ≡ word_of 4096 (16 * upper + pair % 16) }
{
    words::word::<12>(16 * u16::from(upper) + pair % 16)
}

// Fills the first half of the words of S900 data, the second half, and both. A loop for each half has no branch, and a pair of bytes read as one
// number lets the compiler load many at a time.
fn fill_first(source: &[u8], half: usize, words: &mut [i16])
    requires { (2 * half ≤ length source.now) × (half ≤ length words.old) }
    ensures { words.new ≡ sets words.old 0 (map (word_of 4096) (tab (first_bits (bytes source.now)) 0 half)) }
{
    for i in 0..half {
        words[i] = first_word(pair(source, 2 * i));
    }
}

fn fill_second(source: &[u8], half: usize, words: &mut [i16])
    requires { (3 * half ≤ length source.now) × (2 * half ≤ length words.old) }
    ensures { words.new ≡ sets words.old half (map (word_of 4096) (tab (second_bits (bytes source.now) half) 0 half)) }
{
    for i in 0..half {
        words[half + i] = second_word(source[2 * half + i], pair(source, 2 * i));
    }
}

// Both halves. What the samplers store differs in more than a number, words in halves or one after another: so each has its own fill and store.
fn fill900(source: &[u8], count: usize, words: &mut [i16])
    requires { (count + count / 2 ≤ length source.now) × (count ≤ length words.old) }
    ensures { words.new ≡ sets words.old 0 (unpacked900 (bytes source.now) count) }
{
    fill_first(source, count / 2, words);
    fill_second(source, count / 2, words);
}

// Fills the words of S1000 data, two bytes each.
fn fill1000(source: &[u8], count: usize, words: &mut [i16])
    requires { (2 * count ≤ length source.now) × (count ≤ length words.old) }
    ensures { words.new ≡ sets words.old 0 (unpacked1000 (bytes source.now) count) }
{
    for i in 0..count {
        words[i] = words::word::<16>(pair(source, 2 * i));
    }
}

// ---- packing

// The low four bits of two words, the first one's above the second's, and the upper eight of a word.
fn low_byte(first: i16, second: i16) -> u8
    ensures { result ≡ 16 * (bits_of 4096 first % 16) + bits_of 4096 second % 16 }
{
    (16 * (words::bits::<12>(first) % 16) + words::bits::<12>(second) % 16) as u8
}

fn high_byte(word: i16) -> u8
    ensures { result ≡ bits_of 4096 word / 16 }
{
    (words::bits::<12>(word) / 16) as u8
}

// Stores the pairs of bytes of S900 data from an offset on, the upper bytes of the second half, and both one after the other.
fn store_pairs(words: &[i16], half: usize, out: &mut [u8], at: usize)
    requires { (2 * half ≤ length words.now) × (at + 2 * half ≤ length out.old) }
    ensures { out.new ≡ splice out.old at (parts (pair_at words.now half) 0 half) }
{
    for i in 0..half {
        out[at + 2 * i] = low_byte(words[i], words[half + i]);
        out[at + 2 * i + 1] = high_byte(words[i]);
    }
}

fn store_uppers(words: &[i16], half: usize, out: &mut [u8], at: usize)
    requires { (2 * half ≤ length words.now) × (at + half ≤ length out.old) }
    ensures { out.new ≡ splice out.old at (tab (upper_bits words.now half) 0 half) }
{
    for i in 0..half {
        out[at + i] = high_byte(words[half + i]);
    }
}

fn store900(words: &[i16], out: &mut [u8], at: usize)
    requires { at + (length words.now + length words.now / 2) ≤ length out.old }
    ensures { out.new ≡ splice out.old at (packed900 words.now) }
{
    let half = words.len() / 2;
    store_pairs(words, half, out, at);
    store_uppers(words, half, out, at + 2 * half);
}

// Stores S1000 data from an offset on, two bytes a word.
fn store1000(words: &[i16], out: &mut [u8], at: usize)
    requires { at + 2 * length words.now ≤ length out.old }
    ensures { out.new ≡ splice out.old at (packed1000 words.now) }
{
    for (i, &word) in words.iter().enumerate() {
        blocks::store::<2>(out, at + 2 * i, usize::from(words::bits::<16>(word)));
    }
}

// ---- what differs between the samplers

impl Sampler {
    // The size of a header, where in it the number of words stands, and the table of its rules.
    fn header_size(self) -> usize
        ensures { (result ≡ header_size self) × (result ≤ 150) }
    {
        match self {
            Sampler::S900 => 60,
            Sampler::S1000 => 150,
        }
    }

    fn count_offset(self) -> usize
        ensures { result ≡ count_offset self }
    {
        match self {
            Sampler::S900 => 16,
            Sampler::S1000 => 26,
        }
    }

    fn table(self) -> Table
        ensures { result ≡ table_of self }
    {
        match self {
            Sampler::S900 => Table::Sample900,
            Sampler::S1000 => Table::Sample1000,
        }
    }

    // The bytes of so many words, exact for every number that four bytes give, and whether the sampler has that many.
    fn data_size(self, count: usize) -> usize
        requires { count < 4294967296 }
        ensures { (result ≡ data_size self count) × (result < 8589934592) }
    {
        match self {
            Sampler::S900 => count + count / 2,
            Sampler::S1000 => 2 * count,
        }
    }

    fn is_whole(self, count: usize) -> bool
        ensures { result ≡ is_whole self count }
    {
        match self {
            Sampler::S900 => count % 2 == 0,
            Sampler::S1000 => true,
        }
    }

    // Fills the words of data.
    fn fill(self, source: &[u8], count: usize, words: &mut [i16])
        requires { (data_size self count ≤ length source.now) × (count ≤ length words.old) }
        ensures { words.new ≡ sets words.old 0 (unpacked self (bytes source.now) count) }
    {
        match self {
            Sampler::S900 => fill900(source, count, words),
            Sampler::S1000 => fill1000(source, count, words),
        }
    }

    // Stores the data of words from an offset on.
    fn store(self, words: &[i16], out: &mut [u8], at: usize)
        requires { at + data_size self (length words.now) ≤ length out.old }
        ensures { out.new ≡ splice out.old at (packed self words.now) }
    {
        match self {
            Sampler::S900 => store900(words, out, at),
            Sampler::S1000 => store1000(words, out, at),
        }
    }

    // Where refusal 19 finds a fault.
    fn range_fault(self, words: &[i16]) -> Option<usize>
        ensures { result ≡ range_fault self words.now }
    {
        match self {
            Sampler::S900 => {
                if are_short(words) {
                    return None;
                }
                lowest_outside(words)
            }
            Sampler::S1000 => None,
        }
    }
}

// ---- refusals

// The number of words that a header gives.
fn count_in(sampler: Sampler, header: &[u8]) -> usize
    requires { length header.now ≡ header_size sampler }
    ensures { Number 4 (bytes header.now) (count_offset sampler) result }
{
    blocks::number::<4>(header, sampler.count_offset())
}

// Whether a number of words is one that the sampler has, and what it makes due is what there is.
fn is_right(sampler: Sampler, count: usize, there: usize, due: usize) -> bool
    ensures { result ≡ both (is_whole sampler count) (eqb there due) }
{
    sampler.is_whole(count) && there == due
}

// Where refusal 18 finds a fault: in a header whose number of words is right or not, in a file, and in a header to pack.
#[tactic(auto, unfolding(crate::specs::Samples::head_fault))]
fn head_fault(sampler: Sampler, header: &[u8], right: bool) -> Option<usize>
    ensures { result ≡ head_fault sampler header.now right }
{
    if right {
        return headers::fault(header, 0, sampler.table());
    }
    Some(sampler.count_offset())
}

#[tactic(auto, unfolding(crate::specs::Samples::file_fault))]
fn file_fault(sampler: Sampler, file: &[u8]) -> Option<usize>
    ensures { result ≡ file_fault sampler file.now }
{
    let size = sampler.header_size();
    let there = file.len();
    if there < size {
        return Some(0);
    }
    let header = &file[0..size];
    let count = count_in(sampler, header);
    let due = size + sampler.data_size(count);
    head_fault(sampler, header, is_right(sampler, count, there, due))
}

#[tactic(auto, unfolding(crate::specs::Samples::header_fault))]
fn header_fault(sampler: Sampler, header: &[u8], given: usize) -> Option<usize>
    ensures { result ≡ header_fault sampler header.now given }
{
    if header.len() != sampler.header_size() {
        return Some(0);
    }
    let count = count_in(sampler, header);
    head_fault(sampler, header, is_right(sampler, count, count, given))
}

// Whether 12 bits hold every word. It looks at all of them, which the compiler does many at a time.
fn are_short(words: &[i16]) -> bool
    ensures { result ≡ all (is_short words.now) 0 (length words.now) }
{
    let mut short = true;
    for &word in words {
        short &= words::is_short(word);
    }
    short
}

// The lowest word that 12 bits do not hold.
fn lowest_outside(words: &[i16]) -> Option<usize>
    ensures { result ≡ lowest (is_outside words.now) 0 (length words.now) }
{
    words.iter().position(|&word| !words::is_short(word))
}

// ---- the calls

// Fills the words of a sample file into a lent array, and gives their number.
pub fn unpack(sampler: Sampler, file: &[u8], words: &mut [i16]) -> Result<usize, Refusal>
    ensures { filled result words.new ≡ unpack_of sampler file.now words.old }
{
    if let Some(place) = file_fault(sampler, file) {
        return Err(Refusal::BadSample(place));
    }
    let size = sampler.header_size();
    let count = count_in(sampler, &file[0..size]);
    if words.len() < count {
        return Err(Refusal::OutputTooShort);
    }
    sampler.fill(&file[size..], count, words);
    Ok(count)
}

// Stores the sample file of a header and words, and gives the file's length.
pub fn pack(
    sampler: Sampler,
    header: &[u8],
    words: &[i16],
    out: &mut [u8],
) -> Result<usize, Refusal>
    ensures { filled result out.new ≡ pack_of sampler header.now words.now out.old }
{
    if let Some(place) = header_fault(sampler, header, words.len()) {
        return Err(Refusal::BadSample(place));
    }
    if let Some(place) = sampler.range_fault(words) {
        return Err(Refusal::WordOutside(place));
    }
    let size = sampler.header_size();
    let due = size + sampler.data_size(count_in(sampler, header));
    if out.len() < due {
        return Err(Refusal::OutputTooShort);
    }
    blocks::copy_part(header, 0, out, 0, size);
    sampler.store(words, out, size);
    Ok(due)
}
