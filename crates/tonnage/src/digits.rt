// Runs of decimal digits.
ghost use Rattle.std.specs.Prelude.{◌≡◌, ◌+◌, ◌*◌, ◌-◌, ◌≤◌, ◌<◌, min, length, false};
ghost use Rattle.std.specs.List.{list_all};
ghost use Rattle.std.proofs.lemmas.List.Edits.{sets};
ghost use Rattle.std.proofs.Math.Seq.{slice};
ghost use Rattle.lists.specs.Search.{some_in};
ghost use Rattle.tonnage.specs.Text.{other, follow, digits, width, too_large};
ghost use Rattle.tonnage.specs.Grammar.{digit};

// The first number that no figure of signed 64 bits reaches, with or without a minus: a ceiling that sums stay at, so that a
// text of any length is one loop without an exit.
pub const BEYOND: u64 = 9223372036854775809;

// The greatest number that with one more digit stays at or below it.
const MOST_BEFORE: u64 = 922337203685477580;

// Whether each character is a digit.
pub(crate) fn all(text: &[u8]) -> bool
    ensures { result ≡ list_all digit text.now }
{
    text.iter().all(|c| c.is_ascii_digit())
}

// A number with one more digit behind it; BEYOND for all that is as large or larger. One test, since the saturating methods
// test twice for each digit, and then the longest text is read more slowly than Rust reads it.
fn with_digit(n: u64, digit: u8) -> u64
    requires { (48 ≤ digit) × (digit ≤ 57) }
    ensures { result ≡ min too_large (10 * n + (digit - 48)) }
{
    if n > MOST_BEFORE {
        return BEYOND;
    }
    10 * n + (digit - b'0') as u64
}

// The number that the digits from `from` up to `to` write after the number `n`; BEYOND for all that is as large or larger.
// By the text's own indexes: over a slice two counters go up for each digit, and the longest text is read more slowly than
// Rust reads it.
pub(crate) fn follow(text: &[u8], from: usize, to: usize, n: u64) -> u64
    requires from_le_to { (from ≤ to) × (to ≤ length text.now) }
    requires n_le_too_large { n ≤ too_large }
    requires digits { some_in (other text.now) from to ≡ false }
    ensures { result ≡ min too_large (follow n (slice from to text.now)) }
{
    let mut sum = n;
    for i in from..to {
        sum = with_digit(sum, text[i]);
    }
    sum
}

// How many digits `n` has, one at least.
pub fn width(n: u64) -> usize
    ensures { (result ≡ width n) × (result ≤ 20) }
{
    match n.checked_ilog10() {
        Some(power) => power as usize + 1,
        None => 1,
    }
}

// Writes the lowest `count` digits of `n` from `at` on, the highest of them first.
pub fn put(text: &mut [u8], at: usize, count: usize, n: u64)
    requires { at + count ≤ length text.old }
    ensures { text.new ≡ sets text.old at (digits count n) }
{
    let mut left = n;
    for i in (0..count).rev() {
        text[at + i] = b'0' + (left % 10) as u8;
        left /= 10;
    }
}
