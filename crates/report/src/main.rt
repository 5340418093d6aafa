//! Prints the report on the 8,192 bytes of otadata on standard input. Input of another length prints `refused 2`. A read that fails
//! counts as the end of the input; a write that fails ends the program with the error.
#![tactic(auto)]

use std::io::{self, Read, Write};

fn main(rt: HostRuntime) -> io::Result<()> {
    let mut input = rt.reader();
    let mut otadata = [0u8; 8192];
    let mut beyond = [0u8; 1];
    if input.read_exact(&mut otadata).is_err() || input.read_exact(&mut beyond).is_ok() {
        return io::writer(&rt).write_all(b"refused 2\n");
    }
    let (first, second) = otadata.split_at(sectors::SECTOR_SIZE);
    let report = report_text::report(sectors::readings(first, second));
    io::writer(&rt).write_all(report.as_bytes())
}
