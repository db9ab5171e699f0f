// Reads the file of a list from standard input and prints the report on it.
#![tactic(auto)]

use ranking::reports::report;
use std::io;
use std::io::Read;

// The longest file, and one byte more, by which a longer input shows.
const LONGEST_INPUT: u64 = 209;

fn main(rt: HostRuntime) -> io::Result<()> {
    let mut file = Vec::new(rt.alloc());
    rt.stdin().take(LONGEST_INPUT).read_to_end(&mut file)?;
    let text = report(rt.alloc(), file.as_slice())?;
    print!(rt; "{text}")
}
