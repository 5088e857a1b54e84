// A transaction as bytes, and the 512 bytes of a page filled in place.
ghost use Rattle.std.specs.Prelude.{◌≡◌, ◌+◌, ◌*◌, ◌^◌, ◌≤◌, ◌<◌, length, get_or};
ghost use Rattle.std.proofs.lemmas.List.Edits.{sets};
ghost use Rattle.lists.specs.Tables.{flat};
ghost use Rattle.octets.specs.Bytes.{le, weighed};
ghost use Rattle.ledger.specs.Tx.{value_tx};
ghost use Rattle.ledger.specs.Page.{read_bytes, write_bytes, head_bytes, laid_of, size};

use crate::page::entry::PageEntry;
use crate::{Read, Transaction, Write, layout};
use octets::{bytes, weight};

// The eight bytes of a read.
pub fn put_read(p: &mut [u8], at: usize, x: Read)
    requires { at + 8 ≤ length p.old }
    ensures { p.new ≡ sets p.old at (read_bytes x) }
{
    bytes::put(p, at, 2, x.key as u64);
    bytes::put(p, at + 2, 2, x.version.place as u64);
    bytes::put(p, at + 4, 4, x.version.block as u64);
}

// The twelve bytes of a write.
pub fn put_write(p: &mut [u8], at: usize, x: Write)
    requires { at + 12 ≤ length p.old }
    ensures { p.new ≡ sets p.old at (write_bytes x) }
{
    bytes::put(p, at, 2, x.key as u64);
    bytes::put(p, at + 2, 2, x.kind as u64);
    bytes::put(p, at + 4, 8, bytes::bits(x.value));
}

// The bytes of the first `count` entries, one after the other. By value and by index: of a slice the whole transaction
// would be copied first.
fn put_all<E: PageEntry>(p: &mut [u8], at: usize, xs: [E; layout::MOST_ENTRIES], count: usize)
    requires { (count ≤ 32) × (at + E.SIZE * count ≤ length p.old) }
    ensures { p.new ≡ sets p.old at (flat count (λ i. E.bytes (get_or xs i E.NONE))) }
{
    for i in 0..count {
        xs[i].put(p, at + E::SIZE * i);
    }
}

// The first eight bytes: the counts, and a ticket of 32 bits.
pub fn put_head(p: &mut [u8], r: usize, w: usize, ticket: u32)
    requires { (8 ≤ length p.old) × (r ≤ 32) × (w ≤ 32) }
    ensures p_after { p.new ≡ sets p.old 0 (head_bytes r w ticket) }
    ensures ticket_bound { ticket < 2 ^ 32 }
{
    p[0] = layout::MARK;
    p[layout::READ_COUNT] = r as u8;
    p[layout::WRITE_COUNT] = w as u8;
    p[layout::ZERO] = 0;
    bytes::put(p, layout::TICKET, 4, ticket as u64);
}

// The head, the reads and the writes of a transaction.
pub fn lay(p: &mut [u8], t: Transaction)
    requires { (length p.old ≡ 512) × (t.r ≤ 32) × (t.w ≤ 32) × (size t.r t.w ≤ 500) }
    ensures { p.new ≡ sets p.old 0 (laid_of (value_tx t)) }
{
    put_head(p, t.r, t.w, t.ticket);
    put_all(p, layout::HEAD, t.reads, t.r);
    put_all(p, layout::writes_at(t.r), t.writes, t.w);
}

// The whole page: the bytes that are laid out, and their check.
pub fn fill(p: &mut [u8], laid: &[u8])
    requires { (length p.old ≡ 512) × (length laid.now ≡ 512) }
    ensures { p.new ≡ sets laid.now 508 (le 4 (weighed laid.now 508)) }
{
    bytes::copy(laid, p);
    let sum = weight::weigh(p);
    bytes::put(p, layout::CHECK, 4, sum as u64);
}
