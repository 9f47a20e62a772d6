// What stands on a line: words, numbers, texts.
ghost use Rattle.std.specs.Prelude.{◌≤◌, ◌<◌, length, IfSome};

// A number, and where it ends.
#[derive(Clone, Copy)]
pub(crate) struct Parsed {
    pub value: usize,
    pub next: usize,
}

// The byte at an index, or a line's end.
pub(crate) fn byte_at(text: &[u8], at: usize) -> u8 {
    *text.get(at).unwrap_or(&b'\n')
}

// The value of a digit.
fn digit(byte: u8) -> Option<usize>
    ensures { IfSome result (λ value. value < 10) }
{
    match byte {
        b'0'..=b'9' => Some(usize::from(byte - b'0')),
        _ => None,
    }
}

// A number with one digit more; where the last digit might not fit, the largest of 64 bits.
fn longer(value: usize, digit: usize) -> usize
    requires { digit < 10 }
{
    if value < 1844674407370955161 {
        value * 10 + digit
    } else {
        usize::MAX
    }
}

// The number after the space at an index. It ends at whatever is no digit, so the loop says where it stands.
pub(crate) fn number(text: &[u8], at: usize) -> Parsed {
    let mut value: usize = 0;
    let mut next = at;
    while next < text.len() {
        next += 1;
        let Some(digit) = digit(byte_at(text, next)) else {
            break;
        };
        value = longer(value, digit);
    }
    Parsed { value, next }
}

// Where the first word ends: at a space, or with the text.
pub(crate) fn word_end(text: &[u8]) -> usize {
    match text.iter().position(|&byte| byte == b' ') {
        Some(at) => at,
        None => text.len(),
    }
}
