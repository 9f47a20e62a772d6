// Bytes: numbers of some of them, copies, and the block writer. Each promise is an equation with `splice` or `part`.
// Only the crates above call these; each `requires` is a bound that they have from the image's checked length or their own arguments.
#![tactic(auto)]

ghost use Rattle.std.specs.Prelude.{◌≡◌, ◌+◌, ◌-◌, ◌≤◌, ◌<◌, min, length, replicate};
ghost use Rattle.laws.specs.Splice.{splice, part};
ghost use Rattle.laws.specs.Padded.{padded};
ghost use Rattle.laws.specs.Reader.{bytes};
ghost use Rattle.blocks.specs.Numbers.{Number, digits};

// The number in N bytes from an offset on, the least significant first.
pub fn number<const N: usize>(source: &[u8], at: usize) -> usize
    requires width { N ≤ 8 }
    requires room { at + N ≤ length source.now }
    ensures { Number N (bytes source.now) at result }
{
    let mut number = 0;
    for i in (0..N).rev() {
        number = usize::from(source[at + i]) + 256 * number;
    }
    number
}

// Stores the N lowest bytes of a number, the least significant first.
pub fn store<const N: usize>(target: &mut [u8], at: usize, value: usize)
    requires { at + N ≤ length target.old }
    ensures { target.new ≡ splice target.old at (digits N value) }
{
    let mut rest = value;
    for i in 0..N {
        target[at + i] = (rest % 256) as u8;
        rest /= 256;
    }
}

// Copies bytes over as many others. By a loop, since the compiler makes a copy of parts that don't overlap of it: the library's method makes one of any two,
// and the archive would need `memmove` of whoever links it.
fn copy_run(target: &mut [u8], source: &[u8])
    requires { length target.old ≡ length source.now }
    ensures { target.new ≡ source.now }
{
    for i in 0..source.len() {
        target[i] = source[i];
    }
}

// Copies n bytes of the source into a part of the target.
pub fn copy_part(source: &[u8], from: usize, target: &mut [u8], at: usize, n: usize)
    requires { (from + n ≤ length source.now) × (at + n ≤ length target.old) }
    ensures { target.new ≡ splice target.old at (part source.now from n) }
{
    copy_run(&mut target[at..at + n], &source[from..from + n]);
}

// Sets n bytes from an offset on to zero.
pub fn clear(target: &mut [u8], at: usize, n: usize)
    requires { at + n ≤ length target.old }
    ensures { target.new ≡ splice target.old at (replicate n 0) }
{
    target[at..at + n].fill(0);
}

// The block writer: content at the front of a block, and zeros after it.
pub fn write_block(block: &mut [u8], content: &[u8])
    requires { length content.now ≤ length block.old }
    ensures { block.new ≡ padded content.now (length block.old) }
{
    let n = content.len();
    copy_run(&mut block[..n], content);
    block[n..].fill(0);
}
