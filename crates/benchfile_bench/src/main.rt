// Takes a bench file on standard input, reads and writes it 1,000 times each, and prints how many numbers and bytes that made. The file
// that stands beside the program has 32 units, 24 groups, 2,564 events and 32,768 bytes.
// The first argument names one of the two; with none, or another word, both are run.
#![tactic(auto)]

use benchfile::Content;
use std::env::Env;
use std::io;
use std::io::Read;

// What is written where the file is refused.
const NOTHING: Content = Content {
    units: 0,
    count: 0,
    groups: [0; 24],
    build: false,
    parents: [255; 32],
    events: 0,
};

// Reads the file so many times; the numbers written in all, none where it is refused.
fn reads(file: &[u8], list: &mut [u32], times: usize) -> u64 {
    let mut sum: u64 = 0;
    for _ in 0..times {
        let numbers = benchfile::read(file, list).map_or(0, |read| read.numbers);
        sum = sum.saturating_add(numbers as u64);
    }
    sum
}

// Reads the file, and writes it so many times; the bytes written in all.
fn writes(file: &[u8], list: &mut [u32], out: &mut [u8], times: usize) -> u64 {
    let content = benchfile::read(file, list).map_or(NOTHING, |read| read.content);
    let mut sum: u64 = 0;
    for _ in 0..times {
        let bytes = benchfile::write(content, list, out).unwrap_or(0);
        sum = sum.saturating_add(bytes as u64);
    }
    sum
}

fn print(rt: &impl Print, name: &str, sum: u64) -> io::Result<()> {
    println!(rt; "{name} {sum}")
}

fn run_reads(rt: &impl Print, file: &[u8]) -> io::Result<()> {
    let mut list = [0u32; 9000];
    print(rt, "read", reads(file, &mut list, 1000))
}

fn run_writes(rt: &impl Print, file: &[u8]) -> io::Result<()> {
    let mut list = [0u32; 9000];
    let mut out = [0u8; 32768];
    print(rt, "write", writes(file, &mut list, &mut out, 1000))
}

// Runs what the word names.
fn run_named(rt: &impl Print, word: &[u8], file: &[u8]) -> io::Result<()> {
    match word {
        b"read" => run_reads(rt, file),
        b"write" => run_writes(rt, file),
        _ => {
            run_reads(rt, file)?;
            run_writes(rt, file)
        }
    }
}

fn main(rt: HostRuntime) -> io::Result<()> {
    let mut word = [0u8; 16];
    // a longer word names neither
    let length = rt.arg(1, &mut word).unwrap_or(0);
    let mut file = [0u8; 32768];
    // `copy` promises no bound on what it read, so `min` gives one
    let read = io::copy(&mut rt.stdin().take(32768), &mut file.as_mut_slice())?;
    let size = read.min(32768) as usize;
    run_named(&rt, &word[..length], &file[..size])
}
