// The check of S1000 program files (document 01, "The files"): a header and keygroups of 150 bytes each, every part by its table.
#![tactic(auto)]

ghost use Rattle.std.specs.Prelude.{◌≡◌, ◌*◌, ◌≤◌, length};
ghost use Rattle.program.specs.Program.{table_of, parts_fault, program_of};

use headers::Table;
use laws::Refusal;

// Part 0 is the program's header, the others are keygroups.
fn table_of(part: usize) -> Table
    ensures { result ≡ table_of part }
{
    if part == 0 {
        Table::Program
    } else {
        Table::Keygroup
    }
}

// The lowest offset of the file where one of so many parts breaks its table.
fn parts_fault(file: &[u8], parts: usize) -> Option<usize>
    requires { (parts ≤ 100) × (150 * parts ≤ length file.now) }
    ensures { result ≡ parts_fault file.now 0 parts }
{
    for part in 0..parts {
        let at = 150 * part;
        let fault = headers::fault(&file[at..at + 150], at, table_of(part));
        if fault.is_some() {
            return fault;
        }
    }
    None
}

// The number of keygroups, or refusal 20: at 0 for a file shorter than its header, at 42 for that number or the length, else at the lowest
// failing offset.
#[tactic(auto, unfolding(crate::specs::Program::program_of))]
pub fn check(file: &[u8]) -> Result<usize, Refusal>
    ensures { result ≡ program_of file.now }
{
    if file.len() < 150 {
        return Err(Refusal::BadProgram(0));
    }
    let keygroups = usize::from(file[42]);
    let parts = keygroups + 1;
    if !(1..=99).contains(&keygroups) || file.len() != 150 * parts {
        return Err(Refusal::BadProgram(42));
    }
    match parts_fault(file, parts) {
        Some(place) => Err(Refusal::BadProgram(place)),
        None => Ok(keygroups),
    }
}
