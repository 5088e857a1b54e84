// The form of a tonnage text.
ghost use Rattle.std.specs.Prelude.{◌≡◌};
ghost use Rattle.tonnage.specs.Text.{minus, tonnes_at, laid};

use crate::digits;

// How many bytes the comma and the three digits behind it take.
pub const TAIL: usize = 4;

// Whether a text begins with a minus.
pub fn minus(text: &[u8]) -> bool
    ensures { result ≡ minus text.now }
{
    text.starts_with(b"-")
}

// Where the whole tonnes begin.
pub fn start(text: &[u8]) -> usize
    ensures { result ≡ tonnes_at text.now }
{
    usize::from(minus(text))
}

// Whether a text is an optional minus, whole tonnes without needless zeros, a comma and three digits.
pub fn laid(text: &[u8]) -> bool
    ensures { result ≡ laid text.now }
{
    let start = start(text);
    if text.len() <= start + TAIL {
        return false;
    }
    let point = text.len() - TAIL;
    digits::all(&text[start..point])
        && (text[start] != b'0' || start + 1 == point)
        && text[point] == b','
        && digits::all(&text[point + 1..])
}
