// A transaction's reads and writes in arrays of 32, one for each field, as C lends them. A function for reads and one for
// writes: their arrays differ in type and in what they hold, and a trait over both would be longer than the second loop.
ghost use Rattle.std.specs.Prelude.{◌≡◌, ℕ, ◌+◌, ◌*◌, ◌≤◌, ◌<◌, length, replicate, pos};
ghost use Rattle.std.proofs.lemmas.List.Edits.{sets};
ghost use Rattle.lists.specs.Tables.{flat};
ghost use Rattle.ledger.specs.Tx.{ReadFits, WriteFits};
ghost use Rattle.ledger.specs.Page.{read_bytes, write_bytes};
ghost use Rattle.node.specs.Lent.{arrays_on, read_in, write_in};

use ledger::page::{content, fill};
use ledger::{Page, Read, Version, Write, layout};

// Fills three arrays of zeros with the reads of a page.
pub fn fill_reads(page: Page<'_>, keys: &mut [u16], places: &mut [u16], blocks: &mut [u32])
    requires { (keys.old ≡ replicate 32 0) × (places.old ≡ replicate 32 0) × (blocks.old ≡ replicate 32 0) }
    ensures keys_after { keys.new ≡ (arrays_on page.entry.bytes.now).read_keys }
    ensures places_after { places.new ≡ (arrays_on page.entry.bytes.now).read_places }
    ensures blocks_after { blocks.new ≡ (arrays_on page.entry.bytes.now).read_blocks }
{
    for i in 0..page.reads() {
        let x = page.read(i);
        keys[i] = x.key;
        places[i] = x.version.place;
        blocks[i] = x.version.block;
    }
}

// Fills three arrays of zeros with the writes of a page.
pub fn fill_writes(page: Page<'_>, keys: &mut [u16], kinds: &mut [u16], values: &mut [i64])
    requires { (keys.old ≡ replicate 32 0) × (kinds.old ≡ replicate 32 0) × (values.old ≡ replicate 32 (pos 0)) }
    ensures keys_after { keys.new ≡ (arrays_on page.entry.bytes.now).write_keys }
    ensures kinds_after { kinds.new ≡ (arrays_on page.entry.bytes.now).write_kinds }
    ensures values_after { values.new ≡ (arrays_on page.entry.bytes.now).write_values }
{
    let from = layout::writes_at(page.reads());
    for i in 0..page.writes() {
        let x = content::write_at(page.bytes, from + layout::WRITE * i);
        keys[i] = x.key;
        kinds[i] = x.kind;
        let value = x.value;
        values[i] = value;
    }
}

// A count as it is lent.
pub fn count(n: u32) -> usize
    ensures { result ≡ n }
{
    n as usize
}

// Lays out the first `count` reads in three arrays, behind the head.
pub fn lay_reads(p: &mut [u8], keys: &[u16], places: &[u16], blocks: &[u32], count: usize)
    requires count_bound { (count ≤ 32) × (8 + 8 * count ≤ length p.old) }
    requires keys_len { (length keys.now ≡ 32) × (length places.now ≡ 32) × (length blocks.now ≡ 32) }
    ensures p_after { p.new
        ≡ sets p.old 8
        (flat count (λ i. read_bytes (read_in keys.now places.now blocks.now i))) }
    ensures by_index { (i : ℕ) → i < count → ReadFits (read_in keys.now places.now blocks.now i) }
{
    for i in 0..count {
        let x = Read {
            key: keys[i],
            version: Version {
                block: blocks[i],
                place: places[i],
            },
        };
        fill::put_read(p, layout::HEAD + layout::READ * i, x);
    }
}

// Lays out the first `count` writes in three arrays, from `at` on.
pub fn lay_writes(
    p: &mut [u8],
    at: usize,
    keys: &[u16],
    kinds: &[u16],
    values: &[i64],
    count: usize,
)
    requires count_bound { (count ≤ 32) × (at + 12 * count ≤ length p.old) }
    requires keys_len { (length keys.now ≡ 32) × (length kinds.now ≡ 32) × (length values.now ≡ 32) }
    ensures p_after { p.new
        ≡ sets p.old at
        (flat count (λ i. write_bytes (write_in keys.now kinds.now values.now i))) }
    ensures by_index { (i : ℕ) → i < count → WriteFits (write_in keys.now kinds.now values.now i) }
{
    for i in 0..count {
        let x = Write {
            key: keys[i],
            kind: kinds[i],
            value: values[i],
        };
        fill::put_write(p, at + layout::WRITE * i, x);
    }
}
