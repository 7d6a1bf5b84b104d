// Bytes copied into a slice, four at a time and then what is left. Nothing is written past an end, and nothing at all where not all fit.
// Assumes nothing of its callers.

#![tactic(auto)]

ghost use Rattle.words.specs.Words.{Stored};

// All of src, from at on; all or none, and then the place is the one that was given (`Stored`). Four bytes are stored together, one by one: a
// checksum that reads four together would wait for single stores, and `copy_from_slice` of four took twice to sixteen times as long.
pub fn copy(out: &mut [u8], at: usize, src: &[u8]) -> usize
    ensures { Stored at src.now out.old out.new result }
{
    if out.len() < at || out.len() - at < src.len() {
        return at;
    }
    let mut to = at;
    let mut rest = src;
    while let &[a, b, c, d, ref behind @ ..] = rest {
        out[to] = a;
        out[to + 1] = b;
        out[to + 2] = c;
        out[to + 3] = d;
        to += 4;
        rest = behind;
    }
    for byte in rest {
        out[to] = *byte;
        to += 1;
    }
    to
}
