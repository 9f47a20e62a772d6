// The tables of the headers of sample and program files (document 01, "The files"), and the lowest place where a header breaks its table.
#![tactic(auto)]

ghost use Rattle.std.specs.Prelude.{◌≡◌, ◌<◌};
ghost use Rattle.rows.specs.Rows.{rows_fault};
ghost use Rattle.headers.specs.Tables.{rows_of};

use rows::Row;

#[derive(Debug, Clone, Copy, PartialEq, Eq)]
pub enum Table {
    Sample900,
    Sample1000,
    Program,
    Keygroup,
}

// The rows of each table, offsets from 0. What the paper gives no range for is carried and has no row.

// S900 sample (section 3).
const SAMPLE900: [Row; 8] = [
    Row::Ascii(0, 10), // filename
    Row::Zeros(10, 6), // 0
    Row::Zeros(24, 2), // 0
    Row::OneOf(26, 79, 76, 65), // loop mode: O, L or A
    Row::Zeros(27, 1), // 0
    Row::AtMost(28, 16), // end marker, at most N at 16
    Row::AtMost(32, 28), // start marker, at most the end at 28
    Row::AtMost(36, 28), // loop length, at most the end at 28
];

// S1000 sample (section 5).
const SAMPLE1000: [Row; 10] = [
    Row::Only(0, 3), // 3
    Row::From(2, 0, 127), // MIDI root note
    Row::Name(3, 12), // filename
    Row::Only(15, 128), // 128
    Row::From(16, 0, 8), // number of active loops
    Row::From(19, 0, 3), // loop mode
    Row::Within(20, 50), // cents tune
    Row::Within(21, 50), // semi tune
    Row::AtMost(30, 34), // start marker, at most the end at 34
    Row::AtMost(34, 26), // end marker, at most N at 26
];

// S1000 program (section 6).
const PROGRAM: [Row; 46] = [
    Row::Only(0, 1), // program ID
    Row::Word(1, 150), // first keygroup address
    Row::Name(3, 12), // program name
    Row::From(15, 0, 127), // MIDI program number
    Row::OrOff(16, 15), // MIDI channel, 255 is OMNI
    Row::From(17, 1, 16), // polyphony
    Row::From(18, 0, 3), // priority
    Row::From(19, 24, 127), // low key
    Row::From(20, 24, 127), // high key
    Row::Within(21, 2), // octave shift
    Row::OrOff(22, 7), // aux output select, 255 is OFF
    Row::From(23, 0, 99), // mix output level
    Row::Within(24, 50), // mix output pan
    Row::From(25, 0, 99), // volume
    Row::Within(26, 50), // vel>volume
    Row::Within(27, 50), // key>volume
    Row::Within(28, 50), // pres>volume
    Row::From(29, 0, 99), // pan lfo rate
    Row::From(30, 0, 99), // pan lfo depth
    Row::From(31, 0, 99), // pan lfo delay
    Row::Within(32, 50), // key>pan
    Row::From(33, 0, 99), // lfo rate
    Row::From(34, 0, 99), // lfo depth
    Row::From(35, 0, 99), // lfo delay
    Row::From(36, 0, 99), // mod>lfo depth
    Row::From(37, 0, 99), // pres>lfo depth
    Row::From(38, 0, 99), // vel>lfo depth
    Row::From(39, 0, 12), // bend>pitch
    Row::Within(40, 12), // pres>pitch
    Row::From(41, 0, 1), // keygroup crossfade
    Row::From(42, 1, 99), // number of keygroups
    Row::AllWithin(44, 12, 25), // key temperament
    Row::From(56, 0, 1), // fx output
    Row::Within(57, 50), // mod>pan
    Row::From(58, 0, 1), // stereo coherence
    Row::From(59, 0, 1), // lfo desync
    Row::From(61, 0, 1), // voice re-assign
    Row::From(62, 0, 99), // softped>volume
    Row::From(63, 0, 99), // softped>attack
    Row::From(64, 0, 99), // softped>filt
    Row::Within(66, 50), // tune semitones
    Row::Within(67, 50), // key>lfo rate
    Row::Within(68, 50), // key>lfo depth
    Row::Within(69, 50), // key>lfo delay
    Row::From(70, 0, 2), // voice output scale
    Row::From(71, 0, 1), // stereo output scale
];

// S1000 keygroup (section 6).
const KEYGROUP: [Row; 67] = [
    Row::Only(0, 2), // keygroup ID
    Row::Past(1, 150), // next keygroup address
    Row::From(3, 24, 127), // low key
    Row::From(4, 24, 127), // high key
    Row::Within(6, 50), // tune semitones
    Row::From(7, 0, 99), // filter
    Row::From(8, 0, 24), // key>filter
    Row::Within(9, 50), // vel>filt
    Row::Within(10, 50), // pres>filt
    Row::Within(11, 50), // env2>filt
    Row::From(12, 0, 99), // env1 attack
    Row::From(13, 0, 99), // env1 decay
    Row::From(14, 0, 99), // env1 sustain
    Row::From(15, 0, 99), // env1 release
    Row::Within(16, 50), // env1 vel>attack
    Row::Within(17, 50), // env1 vel>release
    Row::Within(18, 50), // env1 offvel>release
    Row::Within(19, 50), // env1 key>dec&rel
    Row::From(20, 0, 99), // env2 attack
    Row::From(21, 0, 99), // env2 decay
    Row::From(22, 0, 99), // env2 sustain
    Row::From(23, 0, 99), // env2 release
    Row::Within(24, 50), // env2 vel>attack
    Row::Within(25, 50), // env2 vel>release
    Row::Within(26, 50), // env2 offvel>release
    Row::Within(27, 50), // env2 key>dec&rel
    Row::Within(28, 50), // vel>env2>filter
    Row::Within(29, 50), // env2>pitch
    Row::From(30, 0, 1), // vel zone crossfade
    Row::Name(34, 12), // sample 1 name
    Row::From(46, 0, 127), // sample 1 low vel
    Row::From(47, 0, 127), // sample 1 high vel
    Row::Within(49, 50), // sample 1 tune semitones
    Row::Within(50, 50), // sample 1 loudness
    Row::Within(51, 50), // sample 1 filter
    Row::Within(52, 50), // sample 1 pan
    Row::From(53, 0, 4), // sample 1 loop mode
    Row::Name(58, 12), // sample 2 name
    Row::From(70, 0, 127), // sample 2 low vel
    Row::From(71, 0, 127), // sample 2 high vel
    Row::Within(73, 50), // sample 2 tune semitones
    Row::Within(74, 50), // sample 2 loudness
    Row::Within(75, 50), // sample 2 filter
    Row::Within(76, 50), // sample 2 pan
    Row::From(77, 0, 4), // sample 2 loop mode
    Row::Name(82, 12), // sample 3 name
    Row::From(94, 0, 127), // sample 3 low vel
    Row::From(95, 0, 127), // sample 3 high vel
    Row::Within(97, 50), // sample 3 tune semitones
    Row::Within(98, 50), // sample 3 loudness
    Row::Within(99, 50), // sample 3 filter
    Row::Within(100, 50), // sample 3 pan
    Row::From(101, 0, 4), // sample 3 loop mode
    Row::Name(106, 12), // sample 4 name
    Row::From(118, 0, 127), // sample 4 low vel
    Row::From(119, 0, 127), // sample 4 high vel
    Row::Within(121, 50), // sample 4 tune semitones
    Row::Within(122, 50), // sample 4 loudness
    Row::Within(123, 50), // sample 4 filter
    Row::Within(124, 50), // sample 4 pan
    Row::From(125, 0, 4), // sample 4 loop mode
    Row::Within(130, 50), // beat detune
    Row::From(131, 0, 1), // hold attack until loop
    Row::AllFrom(132, 4, 0, 1), // sample 1-4 key tracking
    Row::AllFrom(136, 4, 0, 7), // sample 1-4 aux out offset
    Row::WordsWithin(140, 4, 9999), // vel>sample start
    Row::Within(148, 50), // vel>volume offset
];

#[tactic(auto, unfolding(crate::specs::Tables::rows_of))]
fn rows_of(table: Table) -> &'static [Row]
    ensures { result.now ≡ rows_of table }
{
    match table {
        Table::Sample900 => &SAMPLE900,
        Table::Sample1000 => &SAMPLE1000,
        Table::Program => &PROGRAM,
        Table::Keygroup => &KEYGROUP,
    }
}

// The lowest place, an offset of the file, where a header that starts at offset `base` breaks its table. The unpackers and packers of samples
// call it at 0, the check of a program at 150 k for part k.
pub fn fault(header: &[u8], base: usize, table: Table) -> Option<usize>
    requires { base < 4294967296 }
    ensures { result ≡ rows_fault header.now base (rows_of table) }
{
    for &row in rows_of(table) {
        let fault = rows::row_fault(header, base, row);
        if fault.is_some() {
            return fault;
        }
    }
    None
}
