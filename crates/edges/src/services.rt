// The seven services, each run on what a case lends: right where what it gives and every element that it leaves are due.
ghost use Rattle.std.specs.Prelude.{◌≤◌, length};

use crate::cases::Case;
use crate::given;
use ledger::{Read, State, StateMut, Transaction, Version, Write};

// What a list that is lent to be filled holds before.
const LENT: u8 = 0xaa;

// The longest such list.
const MOST_BYTES: usize = 34816;

// More keys than the 1024 that are taken.
const MOST_KEYS: usize = 1100;

// The transaction that a case has for a refusal: one of zeros.
const NO_TRANSACTION: Transaction = Transaction {
    ticket: 0,
    r: 0,
    w: 0,
    reads: [Read {
        key: 0,
        version: Version { block: 0, place: 0 },
    }; 32],
    writes: [Write {
        key: 0,
        kind: 0,
        value: 0,
    }; 32],
};

// The services in document 01's order, and last the joined call.
#[derive(Clone, Copy)]
pub enum Service {
    ReadPage,
    WritePage,
    Plan,
    Commit,
    ReadTonnage,
    WriteTonnage,
    PlanAndCommit,
}

pub const SERVICES: [Service; 7] = [
    Service::ReadPage,
    Service::WritePage,
    Service::Plan,
    Service::Commit,
    Service::ReadTonnage,
    Service::WriteTonnage,
    Service::PlanAndCommit,
];

impl Service {
    pub fn name(self) -> &'static str {
        match self {
            Service::ReadPage => "read page",
            Service::WritePage => "write page",
            Service::Plan => "plan",
            Service::Commit => "commit",
            Service::ReadTonnage => "read tonnage",
            Service::WriteTonnage => "write tonnage",
            Service::PlanAndCommit => "plan and commit",
        }
    }

    // Runs a case of the service, in lists of its own. They are locals, since a struct of them is copied whole.
    pub fn run(self, case: &Case<'_>) -> bool {
        let mut blocks: [u32; MOST_KEYS] = case.blocks();
        let mut places: [u16; MOST_KEYS] = case.places();
        let mut values: [i64; MOST_KEYS] = case.values();
        let mut verdicts = [LENT; MOST_BYTES];
        let mut order = [LENT; MOST_BYTES];
        let mut out = [LENT; MOST_BYTES];
        let lengths = case.lengths;
        let lent = Lent {
            blocks: front(&mut blocks, lengths.blocks),
            places: front(&mut places, lengths.places),
            values: front(&mut values, lengths.values),
            verdicts: front(&mut verdicts, lengths.verdicts),
            order: front(&mut order, lengths.order),
            out: front(&mut out, lengths.out),
        };
        match self {
            Service::ReadPage => read_page(case),
            Service::WritePage => write_page(case, lent),
            Service::Plan => plan(case, lent),
            Service::Commit => commit(case, lent),
            Service::ReadTonnage => read_tonnage(case),
            Service::WriteTonnage => write_tonnage(case, lent),
            Service::PlanAndCommit => plan_and_commit(case, lent),
        }
    }
}

// The lists in the lengths of a case; a page or a text is written in the verdicts' list. No `StateMut` within: the toolchain
// does not cover a struct of lent lists in another.
#[derive(Drop)]
struct Lent<'a> {
    blocks: &'a mut [u32],
    places: &'a mut [u16],
    values: &'a mut [i64],
    verdicts: &'a mut [u8],
    order: &'a mut [u8],
    out: &'a mut [u8],
}

// The front of a list, but no more than there is: a case with a longer list comes out wrong.
fn front<T, const N: usize>(list: &mut [T; N], asked: usize) -> &mut [T]
    ensures { length result.now ≤ N }
{
    let end = asked.min(N);
    &mut list[..end]
}

fn read_page(case: &Case<'_>) -> bool {
    let answer = ledger::page::read::read_page(case.bytes());
    answer.unwrap_or(NO_TRANSACTION) == case.due
        && case.is_right(given::answered(answer), case.left())
}

fn write_page(case: &Case<'_>, lent: Lent<'_>) -> bool {
    let answer = ledger::page::write::write_page(lent.verdicts, case.index(), case.lent);
    let mut left = case.left();
    left.meets(lent.verdicts) && case.is_right(given::answered(answer), left)
}

fn plan(case: &Case<'_>, lent: Lent<'_>) -> bool {
    let Lent {
        blocks,
        places,
        values,
        verdicts,
        order,
        out,
    } = lent;
    let state = State {
        blocks,
        places,
        values,
    };
    let answer = planner::plan::plan_batch(
        case.bytes(),
        state,
        case.number(),
        verdicts,
        order,
        out,
    );
    let mut left = case.left();
    left.meets(verdicts)
        && left.meets(order)
        && left.meets(out)
        && case.is_right(given::answered(answer), left)
}

fn commit(case: &Case<'_>, lent: Lent<'_>) -> bool {
    let Lent {
        blocks,
        places,
        values,
        verdicts,
        ..
    } = lent;
    let mut state = StateMut {
        blocks,
        places,
        values,
    };
    let answer = ledger::commit::commit_batch(case.bytes(), &mut state, case.number(), verdicts);
    let mut left = case.left();
    left.meets(verdicts)
        && left.meets(state.blocks)
        && left.meets(state.places)
        && left.meets(state.values)
        && case.is_right(given::answered(answer), left)
}

fn read_tonnage(case: &Case<'_>) -> bool {
    let answer = tonnage::text::read_tonnage(case.bytes());
    case.is_right(given::answered(answer), case.left())
}

fn write_tonnage(case: &Case<'_>, lent: Lent<'_>) -> bool {
    let answer = tonnage::text::write_tonnage(lent.verdicts, case.kilograms());
    let mut left = case.left();
    left.meets(lent.verdicts) && case.is_right(given::answered(answer), left)
}

fn plan_and_commit(case: &Case<'_>, lent: Lent<'_>) -> bool {
    let Lent {
        blocks,
        places,
        values,
        verdicts,
        order,
        ..
    } = lent;
    let mut state = StateMut {
        blocks,
        places,
        values,
    };
    let answer = planner::joined::plan_and_commit(
        case.bytes(),
        &mut state,
        case.number(),
        verdicts,
        order,
    );
    let mut left = case.left();
    left.meets(verdicts)
        && left.meets(order)
        && left.meets(state.blocks)
        && left.meets(state.places)
        && left.meets(state.values)
        && case.is_right(given::answered(answer), left)
}
