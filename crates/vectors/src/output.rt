//! Lines of output, and the number that stands for many bytes in them.
use crate::buffers::part;
use otadata::word_at;
use std::io::{self, Write};

/// A line: the name of the kind of case, of eight letters, and the numbers.
pub(crate) fn print(rt: HostRuntime, case: &[u8], numbers: &[u32]) -> io::Result<()> {
    let names =
        b"flash   check   slot    version raise   read    make    list    part    factory image   digest  pieces  ";
    io::writer(&rt).write_all(part(names, 8 * (word_at(case, 0) as usize % 256), 8))?;
    for number in numbers {
        print!(rt; " {number}")?;
    }
    println!(rt; "")
}

/// A number that changes with any byte: the bytes are the digits of a number to the base 257, taken modulo a prime.
pub(crate) fn sum(bytes: &[u8]) -> u32 {
    let mut sum: u64 = 0;
    for &byte in bytes {
        sum = (sum * 257 + u64::from(byte)) % 4_294_967_291;
    }
    sum as u32
}

/// A number, and the sum of a record or a digest.
pub(crate) fn with_sum(number: u32, found: &[u8; 32]) -> [u32; 5] {
    [number, sum(found), 0, 0, 0]
}
