// Blocks that a function collects: an array, since nothing here takes memory from a heap.
ghost use Rattle.std.specs.Prelude.{◌≡◌, ◌≤◌, take};

// The first `count` of the list. At 3,208 bytes it is moved and never copied, and filled where it lies: an array that is moved into it would lie on the stack
// beside it.
#[derive(Drop)]
pub struct Blocks {
    pub list: [u16; 1600],
    pub count: usize,
    pub ghost few: { count ≤ 1600 },
}

impl Blocks {
    // The blocks themselves.
    pub fn as_slice(&self) -> &[u16]
        ensures { result.now ≡ take self.now.count self.now.list }
    {
        &self.list[..self.count]
    }
}
