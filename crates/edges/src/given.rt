// What each service gives, in one form for all seven.
use ledger::Transaction;
use refusals::Refusal;

// A refusal's number and place, or number 0 with the count or the figure that is given. The four numbers as a case has them,
// and no enum: a case that is due to give both would come out right by what an enum leaves out.
#[derive(Clone, Copy, PartialEq, Eq)]
pub struct Given {
    pub number: u32,
    pub place: u32,
    pub count: usize,
    pub figure: i64,
}

// What a service gives where it has neither a count nor a figure to give.
const NOTHING: Given = Given {
    number: 0,
    place: 0,
    count: 0,
    figure: 0,
};

impl From<usize> for Given {
    fn from(count: usize) -> Given {
        Given { count, ..NOTHING }
    }
}

impl From<i64> for Given {
    fn from(figure: i64) -> Given {
        Given { figure, ..NOTHING }
    }
}

impl From<()> for Given {
    fn from(_nothing: ()) -> Given {
        NOTHING
    }
}

// A transaction is compared by itself; the count says how many entries it has.
impl From<Transaction> for Given {
    fn from(transaction: Transaction) -> Given {
        Given::from(transaction.r.wrapping_add(transaction.w))
    }
}

impl From<Refusal> for Given {
    fn from(refusal: Refusal) -> Given {
        Given {
            number: refusal.reason.number(),
            place: refusal.place,
            ..NOTHING
        }
    }
}

// What a service answered.
pub fn answered<T: Into<Given>>(answer: Result<T, Refusal>) -> Given {
    match answer {
        Ok(value) => value.into(),
        Err(refusal) => Given::from(refusal),
    }
}
