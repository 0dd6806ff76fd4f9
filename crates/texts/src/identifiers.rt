// Identifiers: a letter, and a number in eleven digits of base 62.
ghost use Rattle.std.specs.Prelude.{◌≡◌, ◌+◌, ◌<◌, ◌≤◌};
ghost use Rattle.std.specs.Option.{option_map};
ghost use Rattle.texts.specs.Identifiers.{digit, worth, id_of, order_id_text, execution_id_text, execution_number, execution_of, after, number_of, Returns};

use crate::fixed::FixedText;

/// How many sequence numbers a partition has: the step between two partitions in the number of an Execution ID.
pub const SEQUENCES: u64 = 4_294_967_296;

/// An order's number, which its identifier writes behind an O.
#[derive(Clone, Copy, Debug, PartialEq)]
pub struct OrderId {
    pub number: u64,
}

/// A report's partition and sequence number, which its Execution ID writes behind an E.
#[derive(Clone, Copy, Debug, PartialEq)]
pub struct ExecutionId {
    pub partition: u8,
    pub sequence: u32,
}

// The digits of base 62, each at its worth.
const DIGITS: [u8; 62] = *b"0123456789ABCDEFGHIJKLMNOPQRSTUVWXYZabcdefghijklmnopqrstuvwxyz";

// What each byte is worth as a digit; 62 where it is none.
const WORTHS: [u8; 256] = [
    62, 62, 62, 62, 62, 62, 62, 62, 62, 62, 62, 62, 62, 62, 62, 62, 62, 62, 62, 62, 62, 62, 62, 62,
    62, 62, 62, 62, 62, 62, 62, 62, 62, 62, 62, 62, 62, 62, 62, 62, 62, 62, 62, 62, 62, 62, 62, 62,
    0, 1, 2, 3, 4, 5, 6, 7, 8, 9, 62, 62, 62, 62, 62, 62, 62, 10, 11, 12, 13, 14, 15, 16, 17, 18,
    19, 20, 21, 22, 23, 24, 25, 26, 27, 28, 29, 30, 31, 32, 33, 34, 35, 62, 62, 62, 62, 62, 62, 36,
    37, 38, 39, 40, 41, 42, 43, 44, 45, 46, 47, 48, 49, 50, 51, 52, 53, 54, 55, 56, 57, 58, 59, 60,
    61, 62, 62, 62, 62, 62, 62, 62, 62, 62, 62, 62, 62, 62, 62, 62, 62, 62, 62, 62, 62, 62, 62, 62,
    62, 62, 62, 62, 62, 62, 62, 62, 62, 62, 62, 62, 62, 62, 62, 62, 62, 62, 62, 62, 62, 62, 62, 62,
    62, 62, 62, 62, 62, 62, 62, 62, 62, 62, 62, 62, 62, 62, 62, 62, 62, 62, 62, 62, 62, 62, 62, 62,
    62, 62, 62, 62, 62, 62, 62, 62, 62, 62, 62, 62, 62, 62, 62, 62, 62, 62, 62, 62, 62, 62, 62, 62,
    62, 62, 62, 62, 62, 62, 62, 62, 62, 62, 62, 62, 62, 62, 62, 62, 62, 62, 62, 62, 62, 62, 62, 62,
    62, 62, 62, 62, 62, 62, 62, 62, 62, 62, 62, 62, 62, 62,
];

#[tactic(auto, using(crate::proofs::Tables::digit_at))]
fn digit_of(d: u8) -> u8
    requires { d < 62 }
    ensures { result ≡ digit d }
{
    DIGITS[usize::from(d)]
}

#[tactic(auto, using(crate::proofs::Tables::worth_at))]
fn worth_of(c: u8) -> u8
    ensures { result ≡ worth c }
{
    WORTHS[usize::from(c)]
}

// Zeros stand already where the number has no digits.
fn write_id(letter: u8, number: u64) -> [u8; 12]
    ensures { result ≡ id_of letter number }
{
    let mut out = [b'0'; 12];
    out[0] = letter;
    let mut n = number;
    let mut k = 11;
    while k > 0 && n > 0 {
        out[k] = digit_of((n % 62) as u8);
        n /= 62;
        k -= 1;
    }
    out
}

// The number that digits write, if they are digits and it fits.
fn number_of(digits: &[u8]) -> Option<u64>
    ensures { result ≡ after 0 digits.now }
{
    let mut n: u64 = 0;
    for c in digits {
        let d = worth_of(*c);
        if d >= 62 {
            return None;
        }
        n = n.checked_mul(62)?.checked_add(u64::from(d))?;
    }
    Some(n)
}

fn read_id(letter: u8, bytes: &[u8]) -> Option<u64>
    ensures { result ≡ number_of letter bytes.now }
{
    if bytes.len() != 12 || bytes[0] != letter {
        return None;
    }
    number_of(&bytes[1..])
}

// The twelve bytes of an identifier are text.
fn id_text(letter: u8, number: u64) -> FixedText<12>
    requires le_letter { 65 ≤ letter }
    requires letter_bound { letter ≤ 90 }
    ensures text { result.bytes ≡ id_of letter number }
    ensures returns { Returns letter number }
{
    FixedText {
        bytes: write_id(letter, number),
        end: 12,
    }
}

impl OrderId {
    /// The identifier: an O and eleven digits, which name this order and no other.
    pub fn text(self) -> FixedText<12>
        ensures text { result.bytes ≡ order_id_text self.number }
        ensures returns { Returns 79 self.number }
    {
        id_text(b'O', self.number)
    }

    /// The order that an identifier names, if it is one: an O, then eleven digits of a number below 2^64.
    pub fn read(bytes: &[u8]) -> Option<OrderId>
        ensures { option_map (λ i. i.number) result ≡ number_of 79 bytes.now }
    {
        read_id(b'O', bytes).map(|number| OrderId { number })
    }
}

impl ExecutionId {
    /// The identifier: an E and eleven digits, which name this report and no other.
    pub fn text(self) -> FixedText<12>
        ensures text { result.bytes ≡ execution_id_text self.partition self.sequence }
        ensures returns { Returns 69 (execution_number self.partition self.sequence) }
    {
        id_text(
            b'E',
            u64::from(self.partition) * SEQUENCES + u64::from(self.sequence),
        )
    }

    /// The report that an identifier names, if it is one: an E, then eleven digits of a number with a partition's byte.
    pub fn read(bytes: &[u8]) -> Option<ExecutionId>
        ensures { result ≡ execution_of (number_of 69 bytes.now) }
    {
        let number = read_id(b'E', bytes)?;
        let partition = u8::try_from(number / SEQUENCES).ok()?;
        Some(ExecutionId {
            partition,
            sequence: (number % SEQUENCES) as u32,
        })
    }
}
