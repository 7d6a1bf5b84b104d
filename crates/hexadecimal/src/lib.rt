// Hexadecimal: the bytes of a line of digits, and the digits of an answer and of the relays. Takes every line and every board.

#![tactic(auto)]

ghost use Rattle.std.specs.Prelude.{◌≡◌, ◌/◌, ◌%◌, ◌≤◌, ◌<◌, length, option_map};
ghost use Rattle.laws.specs.Put.{put, Wrote};
ghost use Rattle.hexadecimal.specs.Digits.{is_digit, digit_of, all_digits, feeds, pairs, parsed};
ghost use Rattle.hexadecimal.specs.Digits.{bytes_in, glyph as Digits·glyph, closed_bit, relay_bits, all_relays, shown_of};

use records::Relay;
use rows::Board;

// ---- a line

// Digits are read and made by hand, both ways: there is no heap to print into, and which digits feed a line is the definition's to say.

#[tactic(auto, unfolding(crate::specs::Digits::is_digit))]
fn is_digit(c: u8) -> bool
    ensures { result ≡ is_digit c }
{
    matches!(c, b'0'..=b'9' | b'A'..=b'F')
}

#[tactic(auto, unfolding(crate::specs::Digits::digit_of))]
fn digit(c: u8) -> u8
    ensures { (result ≡ digit_of c) × (result < 16) }
{
    match c {
        b'0'..=b'9' => c - b'0',
        b'A'..=b'F' => c - b'A' + 10,
        _ => 0,
    }
}

fn all_digits(line: &[u8]) -> bool
    ensures { result ≡ all_digits line.now }
{
    line.iter().all(|&c| is_digit(c))
}

// Whether a line is not empty, even, at most 2,058 characters, and all digits.
#[tactic(auto, unfolding(crate::specs::Digits::feeds))]
fn is_frame(line: &[u8]) -> bool
    ensures { result ≡ feeds line.now }
{
    !line.is_empty() && line.len() % 2 == 0 && line.len() <= 2058 && all_digits(line)
}

// The bytes of a line of digits, from the front of out on.
fn unpack(line: &[u8], out: &mut [u8; 1029]) -> usize
    requires { length line.now ≤ 2058 }
    ensures { Wrote 0 (pairs line.now) out.old out.new result }
{
    for (place, pair) in line.chunks_exact(2).enumerate() {
        out[place] = digit(pair[0]) * 16 + digit(pair[1]);
    }
    line.len() / 2
}

// A line that can be fed becomes its bytes, at the front of out, and gives how many they are; a bad line gives none and leaves out as it is.
// Their count and not their slice: with out lent on in the answer, `out_after` could not say what it holds.
pub fn parse(line: &[u8], out: &mut [u8; 1029]) -> Option<usize>
    ensures value { result ≡ option_map length (parsed line.now) }
    ensures out_after { out.new ≡ put 0 (bytes_in (parsed line.now)) out.old }
{
    if !is_frame(line) {
        return None;
    }
    Some(unpack(line, out))
}

// ---- an answer in digits

fn closed_bit(relay: Relay) -> u16
    ensures { (result ≡ closed_bit relay) × (result < 2) }
{
    u16::from(relay.closed)
}

// The relays as a number, the last first, so that relay 1 ends as the lowest bit.
pub fn relay_number(board: &Board) -> u16
    ensures { result ≡ relay_bits (all_relays board.now) }
{
    let mut number = 0;
    for k in (1..=16).rev() {
        number = number * 2 + closed_bit(board.relay_at(k));
    }
    number
}

fn glyph(d: u8) -> u8
    requires { d < 16 }
    ensures { result ≡ Digits·glyph d }
{
    if d < 10 { b'0' + d } else { b'A' + (d - 10) }
}

// The digit of a number that has this weight: 1, 16, 256 or 4,096.
fn digit_of(number: u16, weight: u16) -> u8
    requires { 0 < weight }
    ensures { result ≡ Digits·glyph (number / weight % 16) }
{
    glyph((number / weight % 16) as u8)
}

#[tactic(auto, unfolding(crate::specs::Digits::shown_of))]
pub fn digits(answer: u8, relays: u16) -> [u8; 7]
    ensures { result ≡ shown_of answer relays }
{
    [
        digit_of(u16::from(answer), 16),
        digit_of(u16::from(answer), 1),
        digit_of(relays, 4096),
        digit_of(relays, 256),
        digit_of(relays, 16),
        digit_of(relays, 1),
        b'\n',
    ]
}
