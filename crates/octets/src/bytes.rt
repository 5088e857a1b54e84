// Numbers in bytes, lowest byte first, and loops over the bytes of a page.
ghost use Rattle.std.specs.Prelude.{◌≡◌, ◌+◌, ◌≤◌, ◌==◌, not, length, take, drop, position};
ghost use Rattle.std.proofs.lemmas.List.Edits.{sets};
ghost use Rattle.std.specs.Int.{w64};
ghost use Rattle.std.proofs.Common.{to_z, of_z};
ghost use Rattle.lists.specs.Search.{first_in, some_in};
ghost use Rattle.octets.specs.Bytes.{field, set?, le};

// How many values a byte has.
const VALUES: u64 = 256;

// The N bytes of `p` from `at` on.
fn bytes_at<const N: usize>(p: &[u8], at: usize) -> [u8; N]
    requires { at + N ≤ length p.now }
    ensures { result ≡ take N (drop at p.now) }
{
    *p[at..at + N].as_array().unwrap()
}

// The number in the two bytes of `p` from `at` on. A line for each width: the library converts by a function of each type.
pub fn le2(p: &[u8], at: usize) -> u16
    requires { at + 2 ≤ length p.now }
    ensures { result ≡ field p.now at 2 }
{
    u16::from_le_bytes(bytes_at(p, at))
}

// The number in four bytes.
pub fn le4(p: &[u8], at: usize) -> u32
    requires { at + 4 ≤ length p.now }
    ensures { result ≡ field p.now at 4 }
{
    u32::from_le_bytes(bytes_at(p, at))
}

// The number in eight bytes.
pub fn le8(p: &[u8], at: usize) -> u64
    requires { at + 8 ≤ length p.now }
    ensures { result ≡ field p.now at 8 }
{
    u64::from_le_bytes(bytes_at(p, at))
}

// Whether a byte from `from` up to, not including, `to` is not zero. Two ends and no slice: its promise speaks of the page's
// indexes.
// All are joined, and no byte ends the loop, so it is vector code.
pub fn any_set(p: &[u8], from: usize, to: usize) -> bool
    requires { (from ≤ to) × (to ≤ length p.now) }
    ensures { result ≡ some_in (set? p.now) from to }
{
    let mut all = 0;
    for b in &p[from..to] {
        all |= *b;
    }
    all != 0
}

// The first byte that is not zero.
fn first(p: &[u8]) -> Option<usize>
    ensures { result ≡ position (λ b. not (b == 0)) p.now }
{
    p.iter().position(|b| *b != 0)
}

// The first byte from `from` up to, not including, `to` that is not zero; `to` where none is. A public name, whose promise has
// the page's indexes and this end.
pub fn first_set(p: &[u8], from: usize, to: usize) -> usize
    requires { (from ≤ to) × (to ≤ length p.now) }
    ensures { result ≡ first_in (set? p.now) from to }
{
    match first(&p[from..to]) {
        Some(i) => from + i,
        None => to,
    }
}

// Copies all bytes of `from`. By hand: of the library's `copy_from_slice` the compiler makes a move for lists that may overlap,
// and a caller in C then has to bring `memmove`.
pub fn copy(from: &[u8], to: &mut [u8])
    requires { length from.now ≡ length to.old }
    ensures { to.new ≡ from.now }
{
    for i in 0..from.len() {
        to[i] = from[i];
    }
}

// Writes `v` in the `count` bytes from `at` on.
pub fn put(p: &mut [u8], at: usize, count: usize, v: u64)
    requires { at + count ≤ length p.old }
    ensures { p.new ≡ sets p.old at (le count v) }
{
    let mut rest = v;
    for b in &mut p[at..at + count] {
        *b = (rest % VALUES) as u8;
        rest /= VALUES;
    }
}

// The signed number whose bits `n` is. This and the next are public names for the library's functions.
pub fn signed(n: u64) -> i64
    ensures { result ≡ to_z w64 n }
{
    n.cast_signed()
}

// The bits of a signed number.
pub fn bits(v: i64) -> u64
    ensures { result ≡ of_z w64 v }
{
    v.cast_unsigned()
}
