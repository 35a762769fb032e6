// The program: a bench file on standard input is run, and what it prints goes to standard output. One byte more than a file may have is
// read, so that a file which is too long is seen to be.
#![tactic(auto)]

use runner::Printed;
use std::io;
use std::io::Read;

fn main(rt: HostRuntime) -> io::Result<()> {
    let mut file = [0u8; 32769];
    let mut out = [0u8; Printed::OUTPUT];
    // `copy` promises no bound on what it read, so `min` gives one
    let read = io::copy(&mut rt.stdin().take(32769), &mut file.as_mut_slice())?;
    let size = read.min(32769) as usize;
    match runner::run(&file[..size], &mut out) {
        Ok(printed) => rt.write_all(&out[..printed.bytes]),
        // the list is as long as is asked
        Err(_) => Ok(()),
    }
}
