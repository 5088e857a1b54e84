// The check's sum over a page, by columns: rows of 48 bytes from the last to the first; 16-bit sums are vector code.
ghost use Rattle.std.specs.Prelude.{◌≡◌, ◌+◌, ◌*◌, ◌≤◌, length, false};
ghost use Rattle.lists.specs.Search.{some_in};
ghost use Rattle.octets.specs.Bytes.{weighed, set?};
ghost use Rattle.octets.specs.Columns.{Lanes, Room, Added, by_columns};

// The bytes of a row, the whole rows before the check, and where the bytes behind them begin.
const COLUMNS: usize = 48;

const ROWS: usize = 10;

const TAIL: usize = ROWS * COLUMNS;

// The rows that are weighed where a page uses no byte behind them: of a small page, and of a page that is half full.
const SMALL: usize = 1;

const HALF: usize = 6;

// The bytes that are summed: 0 to 507.
pub const SUMMED: usize = 508;

// What each row before it adds to a byte's weight.
const STEP: u32 = 48;

// The columns of the rows added so far: each one's sum, and the sum of the sums that it had before each row.
#[derive(Drop)]
struct Totals {
    sums: [u16; COLUMNS],
    runs: [u16; COLUMNS],
}

impl Totals {
    // One row more: the running sums take the sums, and the sums the row's bytes, so that a byte of row r is run r times.
    fn add(&mut self, row: &[u8])
        requires { Room row.now self.old.sums self.old.runs }
        ensures { Added row.now self.old.sums self.old.runs self.new.sums self.new.runs }
    {
        for c in 0..COLUMNS {
            self.runs[c] += self.sums[c];
            self.sums[c] += row[c] as u16;
        }
    }

    // The weighted sum of the columns.
    fn weigh(&self) -> u32
        requires { Lanes self.now.sums self.now.runs }
        ensures { result ≡ by_columns self.now.sums self.now.runs 48 }
    {
        let mut total = 0;
        for c in 0..COLUMNS {
            total += (c as u32 + 1) * (self.sums[c] as u32) + STEP * (self.runs[c] as u32);
        }
        total
    }
}

// The sum over the bytes behind the rows of (offset + 1) times the byte.
fn tail(p: &[u8]) -> u32
    requires { 508 ≤ length p.now }
    ensures { weighed p.now 480 + result ≡ weighed p.now 508 }
{
    let mut sum = 0;
    for i in TAIL..SUMMED {
        sum += (i as u32 + 1) * (p[i] as u32);
    }
    sum
}

// The sum over the first rows of (offset + 1) times the byte.
fn weigh_rows(p: &[u8], rows: usize) -> u32
    requires { (rows ≤ 10) × (rows * 48 ≤ length p.now) }
    ensures { result ≡ weighed p.now (rows * 48) }
{
    let mut totals = Totals {
        sums: [0; COLUMNS],
        runs: [0; COLUMNS],
    };
    for r in (0..rows).rev() {
        let start = r * COLUMNS;
        totals.add(&p[start..start + COLUMNS]);
    }
    totals.weigh()
}

// The sum over the bytes before the check of (offset + 1) times the byte.
pub fn weigh(p: &[u8]) -> u32
    requires { 508 ≤ length p.now }
    ensures { result ≡ weighed p.now 508 }
{
    weigh_rows(p, ROWS) + tail(p)
}

// The same sum where the bytes from `used` on are zero: rows of zeros are left out.
// The number of rows is one of three constants, so that each sum is vector code in registers.
pub fn weigh_used(p: &[u8], used: usize) -> u32
    requires { (508 ≤ length p.now) × (some_in (set? p.now) used 508 ≡ false) }
    ensures { result ≡ weighed p.now 508 }
{
    if used <= SMALL * COLUMNS {
        return weigh_rows(p, SMALL);
    }
    if used <= HALF * COLUMNS {
        return weigh_rows(p, HALF);
    }
    weigh(p)
}
