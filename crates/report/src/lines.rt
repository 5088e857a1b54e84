// The lines of the listing, each put behind the text so far.
ghost use Rattle.std.specs.Prelude.{◌+◌, ◌*◌, ◌≤◌, ◌<◌, ◌≡◌, [], length, get_or, position, eqb, cond};
ghost use Rattle.lists.specs.Tables.{flat};
ghost use Rattle.ledger.specs.Version.{is_present};
ghost use Rattle.ledger.specs.State.{lent, keys};
ghost use Rattle.ledger.specs.Inner.{Level};
ghost use Rattle.ledger.specs.Gate.{pages, tx_at};
ghost use Rattle.report.specs.Put.{Puts};
ghost use Rattle.report.specs.Listing.{header, place_text, page_line, state_line, key_line, refusal};

use crate::put::Text;
use ledger::page::content;
use ledger::{Entry, State, Version, layout};

// The line of a refusal, for any number, as `fill_refusal` promises.
pub fn put_refusal(text: &mut Text, number: u32, place: u32)
    requires { text.old.end + 64 ≤ length text.old.out.now }
    ensures { Puts 64 (refusal number place) text.old text.new }
{
    text.put_bytes(b"refused ");
    text.put_number(number);
    text.put_byte(b' ');
    text.put_number(place);
    text.put_byte(b'\n');
}

// The first line.
pub fn put_header(text: &mut Text, n: u32, m: u32, k: u32)
    requires { text.old.end + 64 ≤ length text.old.out.now }
    ensures { Puts 64 (header n m k) text.old text.new }
{
    text.put_bytes(b"block ");
    text.put_number(n);
    text.put_bytes(b" pages ");
    text.put_number(m);
    text.put_bytes(b" kept ");
    text.put_number(k);
    text.put_byte(b'\n');
}

// The place of page `i` in the order.
fn find_place(order: &[u8], i: usize) -> Option<usize>
    ensures { result ≡ position (λ page. eqb page i) order.now }
{
    order.iter().position(|page| *page as usize == i)
}

// That place, or a hyphen. That an order has 64 pages at most is a clause, here and below: a type would be made at each call.
fn put_place(text: &mut Text, order: &[u8], i: usize)
    requires room { text.old.end + 10 ≤ length text.old.out.now }
    requires few { length order.now ≤ 64 }
    ensures { Puts 10 (place_text order.now (length order.now) i) text.old text.new }
{
    match find_place(order, i) {
        Some(place) => text.put_number(place as u32),
        None => text.put_byte(b'-'),
    }
}

// The line of page `i`, its verdict a number as in a lent list.
fn put_page(text: &mut Text, ticket: u32, verdict: u8, order: &[u8], i: usize)
    requires room { text.old.end + 32 ≤ length text.old.out.now }
    requires few { length order.now ≤ 64 }
    ensures { Puts 32 (page_line ticket verdict (place_text order.now (length order.now) i)) text.old text.new }
{
    text.put_number(ticket);
    text.put_byte(b' ');
    text.put_word(verdict);
    text.put_byte(b' ');
    put_place(text, order, i);
    text.put_byte(b'\n');
}

// The lines of the pages.
pub fn put_pages(text: &mut Text, batch: &[u8], verdicts: &[u8], order: &[u8])
    requires room { text.old.end + 32 * pages batch.now ≤ length text.old.out.now }
    requires batch_in_bounds { (pages batch.now ≤ length verdicts.now) × (length batch.now ≤ 32768) }
    requires few { length order.now ≤ 64 }
    ensures { let m = pages batch.now in
        Puts (32 * m) (flat m (λ i. page_line (tx_at batch.now i).ticket (get_or verdicts.now i 0)
        (place_text order.now (length order.now) i))) text.old text.new }
{
    let m = batch.len() / layout::PAGE;
    for (i, verdict) in verdicts[..m].iter().enumerate() {
        let ticket = content::ticket(layout::page_at(batch, i));
        put_page(text, ticket, *verdict, order, i);
    }
}

// The line of a key that is present.
fn put_state(text: &mut Text, key: usize, version: Version, value: i64)
    requires { (text.old.end + 60 ≤ length text.old.out.now) × (key < 1024) }
    ensures { Puts 60 (state_line key (record { version = version; value = value })) text.old text.new }
{
    text.put_number(key as u32);
    text.put_byte(b' ');
    text.put_number(version.block);
    text.put_byte(b'.');
    text.put_number(version.place as u32);
    text.put_byte(b' ');
    text.put_tonnes(value);
    text.put_byte(b'\n');
}

// The line of a key; nothing where it is not present.
fn put_key(text: &mut Text, key: usize, e: Entry)
    requires { (text.old.end + 60 ≤ length text.old.out.now) × (key < 1024) }
    ensures { Puts 60 (cond (is_present e.version) (state_line key e) []) text.old text.new }
{
    let version = e.version;
    if version.is_present() {
        put_state(text, key, version, e.value);
    }
}

// The lines of the keys.
pub fn put_keys(text: &mut Text, state: State<'_>)
    requires room { text.old.end + 60 * keys (lent state) ≤ length text.old.out.now }
    requires few { keys (lent state) ≤ 1024 }
    requires level { Level (lent state) }
    ensures { let s = lent state.entry in
        Puts (60 * keys s) (flat (keys s) (key_line s)) text.old text.new }
{
    for key in 0..state.keys() {
        put_key(text, key, state.entry(key));
    }
}
