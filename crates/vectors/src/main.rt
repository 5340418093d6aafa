//! Runs the cases on standard input, 256 bytes each, and prints a line for each. tests/vectors/cases.py says what a case and its line hold.
#![tactic(auto)]

mod answers;
mod buffers;
mod output;

use answers::answer;
use buffers::{change, read_list};
use output::print;
use std::io::{self, Read};

/// A read that fails counts as the end of the input; a write that fails ends the program with the error.
fn main(rt: HostRuntime) -> io::Result<()> {
    run(rt, &mut [0u8; 256], &mut [0u32; 300], &mut zeros())
}

/// The flash at first.
fn zeros() -> [u8; 2097152] {
    [0u8; 2097152]
}

/// Each case changes a part of the flash, or the list, or neither, and is answered with them.
fn run(rt: HostRuntime, case: &mut [u8], list: &mut [u32], flash: &mut [u8]) -> io::Result<()> {
    let mut input = rt.reader();
    let mut count = 0;
    // kept: the input is read to its end, and the proof that this ends needs a bound
    for _ in 0..100000u32 {
        if input.read_exact(case).is_err() {
            return Ok(());
        }
        change(case, flash);
        count = read_list(count, case, list);
        print(rt, case, &answer(case, &list[..count], flash))?;
    }
    Ok(())
}
