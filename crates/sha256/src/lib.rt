//! SHA-256, as FIPS 180-4 defines it: of a whole message, and of one that comes in pieces.
#![tactic(auto)]

mod block;
mod functions;
mod laws;
mod message;
mod padding;

pub use laws::{published_digests, standard_laws};
pub use message::{digest, fed, finished, fresh};

/// The size of a block in bytes.
pub(crate) const BLOCK: usize = 64;

/// Eight words: a hash value, or the working variables a to h of the rounds.
#[derive(Clone, Copy, Debug, PartialEq, Eq)]
pub struct State {
    a: u32,
    b: u32,
    c: u32,
    d: u32,
    e: u32,
    f: u32,
    g: u32,
    h: u32,
}

/// Sixteen words of the message schedule, one after the other.
#[derive(Clone, Copy, Debug, PartialEq, Eq)]
pub(crate) struct Sixteen {
    w0: u32,
    w1: u32,
    w2: u32,
    w3: u32,
    w4: u32,
    w5: u32,
    w6: u32,
    w7: u32,
    w8: u32,
    w9: u32,
    w10: u32,
    w11: u32,
    w12: u32,
    w13: u32,
    w14: u32,
    w15: u32,
}

/// What a round works on: the working variables, and the sixteen words of the schedule from its own on.
#[derive(Clone, Copy, Debug, PartialEq, Eq)]
pub(crate) struct Working {
    state: State,
    words: Sixteen,
}

/// A message that comes in pieces, as far as it has come: the hash value of its whole blocks, the bytes after them in front of the buffer,
/// and the number of its bytes, modulo 2^64. Only `fresh` and `fed` make one.
#[derive(Clone, Copy, Debug)]
pub struct Hasher {
    state: State,
    buffer: [u8; 64],
    total: u64,
}
