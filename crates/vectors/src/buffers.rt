//! Parts of buffers, and what a case changes in them. What is past the end of a slice is left out.
ghost use Rattle.std.specs.Prelude.{◌≤◌, length};

use otadata::word_at;

/// Fills a part of the flash, where the case says so.
pub(crate) fn change(case: &[u8], flash: &mut [u8]) {
    if word_at(case, 0) % 256 != 0 {
        return;
    }
    let at = word_at(case, 4) as usize;
    let changed = part_mut(flash, at, word_at(case, 8) as usize);
    let front = part(case, 16, word_at(case, 12) as usize);
    fill(changed, front, word_at(case, 124));
}

/// Reads the words of a list, where the case has one, and gives the number of the list's words.
pub(crate) fn read_list(count: usize, case: &[u8], list: &mut [u32]) -> usize
    requires { count ≤ length list.old }
    ensures { result ≤ length list.old }
{
    if word_at(case, 0) % 256 != 7 {
        return count;
    }
    for (i, word) in list.iter_mut().enumerate() {
        *word = word_at(case, 16 + 4 * i);
    }
    let words = word_at(case, 2) as usize % 65536;
    words.min(list.len())
}

/// The end of a piece of n bytes from `at` on, or of so many bytes in all if that is less.
pub(crate) fn piece_end(whole: usize, at: usize, n: usize) -> usize
    requires { at ≤ whole }
    ensures { (at ≤ result) × (result ≤ whole) }
{
    whole.min(at.saturating_add(n))
}

/// At most n bytes from `at` on.
pub(crate) fn part(bytes: &[u8], at: usize, n: usize) -> &[u8] {
    let start = at.min(bytes.len());
    &bytes[start..piece_end(bytes.len(), start, n)]
}

/// The same, to be written.
pub(crate) fn part_mut(bytes: &mut [u8], at: usize, n: usize) -> &mut [u8] {
    let start = at.min(bytes.len());
    let end = piece_end(bytes.len(), start, n);
    &mut bytes[start..end]
}

/// Fills a slice: the bytes of `front`, and the filler after them.
pub(crate) fn fill(bytes: &mut [u8], front: &[u8], filler: u32) {
    for (i, byte) in bytes.iter_mut().enumerate() {
        *byte = filled(front, i, filler);
    }
}

/// Byte i of a filled slice. After the front it is by the filler's next to lowest byte: with 0 the lowest byte; with 1 that and a number that
/// differs from place to place, and from unit to unit of 256 and of 65,536 bytes; with 2 the word at each multiple of 4 is its place.
fn filled(front: &[u8], i: usize, filler: u32) -> u8 {
    if let Some(&byte) = front.get(i) {
        return byte;
    }
    let start = filler as usize % 256;
    let step = filler / 256 % 256;
    let byte = match step {
        0 => start,
        1 => start + i % 256 * 7 + i / 256 % 256 * 13 + i / 65536 % 256 * 29,
        _ => match i % 4 {
            0 => i,
            1 => i / 256,
            2 => i / 65536,
            _ => i / 16777216,
        },
    };
    (byte % 256) as u8
}
