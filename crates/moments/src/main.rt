// Prints the answers to the questions of the log on standard input, or why the log is refused.
#![tactic(auto)]

use host::{read_input, write_bytes};
use std::io;

fn main(rt: HostRuntime) -> io::Result<()> {
    let mut input = [0u8; print::INPUT];
    let got = read_input(&rt, &mut input)?;
    let mut out = [0u8; print::PRINTED];
    let size = print::run(&input, got, &mut out);
    write_bytes(&rt, &out[..size])
}
