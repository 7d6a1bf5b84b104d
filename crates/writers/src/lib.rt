// What the writers of answers share, those with readings and those without: what each leaves of the lent bytes and answers, the inputs and
// relays in the order of their channels, and the writer by which each goes through the lent bytes.

#![tactic(auto)]

ghost use Rattle.std.specs.Prelude.{◌≡◌, ◌+◌, ◌≤◌, length};
ghost use Rattle.laws.specs.Put.{put};
ghost use Rattle.words.specs.Words.{bytes_of};
ghost use Rattle.writers.specs.Writers.{one_when};

// These bytes, from a place on: as many as the caller names, so that they are stored without a call.
fn copy(out: &mut [u8], at: usize, bytes: &[u8])
    requires { at + length bytes.now ≤ length out.old }
    ensures { out.new ≡ put at bytes.now out.old }
{
    out[at..at + bytes.len()].copy_from_slice(bytes);
}

// As many of the bytes as there is room for, stored one by one where there is: the compiler would make a call of `memcpy`, which is not there on
// every board, of a loop that stores all that it goes through.
fn copy_cut(out: &mut [u8], at: usize, bytes: &[u8])
    requires { at ≤ length out.old }
    ensures { out.new ≡ put at bytes.now out.old }
{
    let room = out.len() - at;
    for i in 0..bytes.len() {
        if i < room {
            out[at + i] = bytes[i];
        }
    }
}

// Lent bytes, and how many of them are written, from the front. What does not fit is left out.
#[derive(Drop)]
pub struct Writer<'a> {
    out: &'a mut [u8],
    pub at: usize,
    ghost within: { at ≤ length out.now },
}

impl<'a> Writer<'a> {
    ghost use Rattle.writers.specs.Writing.{Wrote};

    // A writer at the front of the lent bytes.
    pub fn new(out: &'a mut [u8]) -> Self
        ensures same { result.out.ghost_name ≡ out.entry.ghost_name }
        ensures bytes { result.out.now ≡ out.old }
        ensures place { result.at ≡ 0 }
    {
        Writer { out, at: 0 }
    }

    // These bytes.
    pub fn bytes(&mut self, bytes: &[u8])
        ensures { Wrote bytes.now self.old self.new }
    {
        let from = self.at;
        let room = self.out.len() - from;
        if bytes.len() <= room {
            self.at = from + bytes.len();
            copy(self.out, from, bytes);
        } else {
            self.at = from + room;
            copy_cut(self.out, from, bytes);
        }
    }

    // A number of one byte, of two, of eight, the highest byte first.
    pub fn u8(&mut self, number: u8)
        ensures { Wrote (bytes_of 1 number) self.old self.new }
    {
        self.bytes(&[number]);
    }

    pub fn u16(&mut self, count: u16)
        ensures { Wrote (bytes_of 2 count) self.old self.new }
    {
        self.bytes(&count.to_be_bytes());
    }

    pub fn u64(&mut self, number: u64)
        ensures { Wrote (bytes_of 8 number) self.old self.new }
    {
        self.bytes(&number.to_be_bytes());
    }

    // A level, a relay's state or an alarm as a byte.
    pub fn flag(&mut self, on: bool)
        ensures { Wrote (one_when on) self.old self.new }
    {
        self.bytes(&[u8::from(on)]);
    }
}
