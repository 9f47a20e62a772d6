// Rules for the numbers of a header, as rows of a table (document 01, "The files"), and the lowest place where a row is broken.
// Only the check of a header by its table calls these. An offset past the header's end reads as 0, as `bytes` does.
#![tactic(auto)]

ghost use Rattle.std.specs.Prelude.{◌≡◌, ◌+◌, ◌*◌, ◌<◌};
ghost use Rattle.laws.specs.Reader.{bytes};
ghost use Rattle.blocks.specs.Numbers.{Number, top};
ghost use Rattle.rows.specs.Rows.{size_of, byte_run, each_run, group_run, Read, legal, breaks, place_of, run_fault, row_fault};

// How many bytes a number has: 1, 2 or 4.
#[derive(Debug, Clone, Copy, PartialEq, Eq)]
pub enum Width {
    One,
    Two,
    Four,
}

// What a number must be.
#[derive(Debug, Clone, Copy, PartialEq, Eq)]
pub enum Rule {
    // From the first to the second.
    From(u16, u16),
    // From -n to n, in two's complement.
    Within(u16),
    // From 0 to n, or 255.
    OrOff(u16),
    // One of three.
    OneOf(u16, u16, u16),
    // At most the number in the four bytes at this offset of the header.
    AtMost(u16),
    // The file's offset so many bytes past the header's first.
    Past(u16),
    // A byte of names in AKAII.
    Akaii,
    // A byte of names in ASCII.
    Ascii,
}

// A row of a table: its offset, how many numbers where there are several, and what they must be.
#[derive(Debug, Clone, Copy, PartialEq, Eq)]
pub enum Row {
    // A byte that is this number.
    Only(u16, u16),
    // A byte from the first to the second.
    From(u16, u16, u16),
    // A byte from -n to n.
    Within(u16, u16),
    // A byte from 0 to n, or 255.
    OrOff(u16, u16),
    // A byte that is one of three.
    OneOf(u16, u16, u16, u16),
    // So many AKAII bytes, each its own place.
    Name(u16, u16),
    // So many ASCII bytes, each its own place.
    Ascii(u16, u16),
    // So many zeros, each its own place.
    Zeros(u16, u16),
    // So many bytes from the first to the second; the place is the first byte's.
    AllFrom(u16, u16, u16, u16),
    // So many bytes from -n to n; the place is the first byte's.
    AllWithin(u16, u16, u16),
    // Two bytes that are this number.
    Word(u16, u16),
    // Two bytes: the file's offset so many bytes past the header's first.
    Past(u16, u16),
    // So many numbers of two bytes from -n to n; the place is the first byte's.
    WordsWithin(u16, u16, u16),
    // Four bytes, at most the four bytes at the second offset.
    AtMost(u16, u16),
}

// A row as numbers under one rule: so many of a width from an offset on. Where `own` is set each is its own place, else the first.
#[derive(Debug, Clone, Copy, PartialEq, Eq)]
pub struct Run {
    pub at: u16,
    pub count: u16,
    pub width: Width,
    pub own: bool,
    pub rule: Rule,
}

// A header, and the offset of its file where it starts, low enough that no place in it wraps.
#[derive(Clone, Copy)]
struct Header<'a> {
    content: &'a [u8],
    base: usize,
    ghost near: { base < 4294967296 },
}

impl Width {
    // How many values a number of a width can have.
    fn values(self) -> usize
        ensures { result ≡ top (size_of self) }
    {
        match self {
            Width::One => 256,
            Width::Two => 65536,
            Width::Four => 4294967296,
        }
    }

    // Where number j of those from an offset on stands.
    fn offset_of(self, at: usize, j: usize) -> usize
        requires { (at < 65536) × (j < 65536) }
        ensures { (result ≡ at + size_of self * j) × (result < 2147483648) }
    {
        match self {
            Width::One => at + j,
            Width::Two => at + 2 * j,
            Width::Four => at + 4 * j,
        }
    }
}

fn place_of(base: usize, run: Run, j: usize) -> usize
    requires { (base < 4294967296) × (j < 65536) }
    ensures { result ≡ place_of base run j }
{
    let at = usize::from(run.at);
    if run.own { base + at + j } else { base + at }
}

impl Header<'_> {
    fn byte(self, at: usize) -> usize
        ensures { (result ≡ bytes self.entry.content.now at) × (result < 256) }
    {
        self.content.get(at).map_or(0, |&byte| usize::from(byte))
    }

    fn word(self, at: usize) -> usize
        requires { at < 4294967296 }
        ensures { Number 2 (bytes self.entry.content.now) at result }
    {
        self.byte(at) + 256 * self.byte(at + 1)
    }

    fn long(self, at: usize) -> usize
        requires { at < 2147483648 }
        ensures { Number 4 (bytes self.entry.content.now) at result }
    {
        self.byte(at) + 256 * (self.byte(at + 1) + 256 * self.word(at + 2))
    }

    fn number(self, at: usize, width: Width) -> usize
        requires { at < 2147483648 }
        ensures { Read self.entry.content.now at width result }
    {
        match width {
            Width::One => self.byte(at),
            Width::Two => self.word(at),
            Width::Four => self.long(at),
        }
    }

    // Whether a number of the header keeps a rule.
    #[tactic(auto, unfolding(crate::specs::Rows::legal))]
    fn is_legal(self, width: Width, rule: Rule, v: usize) -> bool
        requires { v < 4294967296 }
        ensures { result ≡ legal self.entry.content.now self.entry.base (size_of width) rule v }
    {
        match rule {
            Rule::From(low, high) => (usize::from(low)..=usize::from(high)).contains(&v),
            Rule::Within(n) => v <= usize::from(n) || width.values() <= v + usize::from(n),
            Rule::OrOff(n) => v <= usize::from(n) || v == 255,
            Rule::OneOf(a, b, d) => v == usize::from(a)
                || v == usize::from(b)
                || v == usize::from(d),
            Rule::AtMost(other) => v <= self.long(usize::from(other)),
            Rule::Past(n) => v == self.base + usize::from(n),
            Rule::Akaii => names::is_akaii(v),
            Rule::Ascii => names::is_ascii(v),
        }
    }

    // Whether number j of a run breaks the run's rule.
    #[tactic(auto, unfolding(crate::specs::Rows::keeps))]
    fn is_broken(self, run: Run, j: usize) -> bool
        requires { j < 65536 }
        ensures { result ≡ breaks self.entry.content.now self.entry.base run j }
    {
        let at = run.width.offset_of(usize::from(run.at), j);
        let v = self.number(at, run.width);
        !self.is_legal(run.width, run.rule, v)
    }

    // The lowest place of a run where its rule is broken.
    fn run_fault(self, run: Run) -> Option<usize>
        ensures { result ≡ run_fault self.entry.content.now self.entry.base run }
    {
        (0..usize::from(run.count))
            .find(|&j| self.is_broken(run, j))
            .map(|j| place_of(self.base, run, j))
    }

    // One byte, without a run: most rows are such, and with a run for each the check of a program takes 1.4 times as long.
    fn byte_fault(self, at: u16, rule: Rule) -> Option<usize>
        ensures { result ≡ run_fault self.entry.content.now self.entry.base (byte_run at rule) }
    {
        let place = usize::from(at);
        if self.is_legal(Width::One, rule, self.byte(place)) {
            None
        } else {
            Some(self.base + place)
        }
    }

    // Bytes, each its own place.
    fn each_fault(self, at: u16, count: u16, rule: Rule) -> Option<usize>
        ensures { result ≡ run_fault self.entry.content.now self.entry.base (each_run at count rule) }
    {
        self.run_fault(Run {
            at,
            count,
            width: Width::One,
            own: true,
            rule,
        })
    }

    // Numbers whose place is the first's.
    fn group_fault(self, at: u16, count: u16, width: Width, rule: Rule) -> Option<usize>
        ensures { result ≡ run_fault self.entry.content.now self.entry.base (group_run at count width rule) }
    {
        self.run_fault(Run {
            at,
            count,
            width,
            own: false,
            rule,
        })
    }
}

// The lowest place where a header breaks a row.
pub fn row_fault(header: &[u8], base: usize, row: Row) -> Option<usize>
    requires { base < 4294967296 }
    ensures { result ≡ row_fault header.now base row }
{
    let header = Header {
        content: header,
        base,
    };
    match row {
        Row::Only(at, v) => header.byte_fault(at, Rule::From(v, v)),
        Row::From(at, low, high) => header.byte_fault(at, Rule::From(low, high)),
        Row::Within(at, n) => header.byte_fault(at, Rule::Within(n)),
        Row::OrOff(at, n) => header.byte_fault(at, Rule::OrOff(n)),
        Row::OneOf(at, a, b, d) => header.byte_fault(at, Rule::OneOf(a, b, d)),
        Row::Name(at, count) => header.each_fault(at, count, Rule::Akaii),
        Row::Ascii(at, count) => header.each_fault(at, count, Rule::Ascii),
        Row::Zeros(at, count) => header.each_fault(at, count, Rule::From(0, 0)),
        Row::AllFrom(at, count, low, high) => {
            header.group_fault(at, count, Width::One, Rule::From(low, high))
        }
        Row::AllWithin(at, count, n) => {
            header.group_fault(at, count, Width::One, Rule::Within(n))
        }
        Row::Word(at, v) => header.group_fault(at, 1, Width::Two, Rule::From(v, v)),
        Row::Past(at, n) => header.group_fault(at, 1, Width::Two, Rule::Past(n)),
        Row::WordsWithin(at, count, n) => {
            header.group_fault(at, count, Width::Two, Rule::Within(n))
        }
        Row::AtMost(at, other) => header.group_fault(at, 1, Width::Four, Rule::AtMost(other)),
    }
}
