// A signed figure in kilograms as its sign, whole tonnes and three digits.
ghost use Rattle.std.specs.Prelude.{◌≡◌, true, false, ◌≤◌, ◌<◌};
ghost use Rattle.tonnage.specs.Text.{signed, below0, tonnes, rest};

// The kilograms of a tonne.
const TONNE: u64 = 1000;

// The sign, the whole tonnes, and the kilograms beyond them, 0 to 999, as document 01 splits a figure.
#[derive(Clone, Copy)]
pub struct Parts {
    pub minus: bool,
    pub tonnes: u64,
    pub rest: u64,
}

// The parts of a figure.
pub fn split(kilograms: i64) -> Parts
    ensures { result ≡ record { minus = below0 kilograms; tonnes = tonnes kilograms; rest = rest kilograms } }
{
    let size = kilograms.unsigned_abs();
    Parts {
        minus: kilograms.is_negative(),
        tonnes: size / TONNE,
        rest: size % TONNE,
    }
}

// The figure of a sign and a size, apart as document 01 splits it: above 0 with a minus, and within 64 bits.
pub fn with_sign(minus: bool, size: u64) -> i64
    requires size_nonzero { minus ≡ true → (0 < size) × (size ≤ 9223372036854775808) }
    requires size_bound { minus ≡ false → size ≤ 9223372036854775807 }
    ensures { result ≡ signed minus size }
{
    if minus {
        0i64.strict_sub_unsigned(size)
    } else {
        size as i64
    }
}
