// What an operation answers, a Result whose error is the refusal, and what each answer puts on the receipt.
#![tactic(auto)]

ghost use Rattle.std.specs.Prelude.{◌≡◌};
ghost use Rattle.receipt.specs.Receipt.{number_of, named_clause, outcome_number, settling_number, refusal, receipt, refused_receipt};
ghost use Rattle.receipt.specs.Answers.{checked_receipt, settling_receipt, searching_receipt, indexing_receipt, adding_receipt, added_length, taking_back_receipt, length_left, reading_receipt, read_variables, read_length, saving_receipt, listing_receipt, rows_written, says_more};

use literal::ClauseNumber;

// Why a call is refused: the rows of document 01's table of numbers that refuse, in its order, then those of document 02.
// An unknown variable comes with the number of its group.
#[derive(Clone, Copy)]
pub enum Fault {
    TooManyVariables,
    TooManyClauses,
    TooManyLiterals,
    OpenClause,
    UnknownVariable(ClauseNumber),
    PlanShort,
    TrailShort,
    HeadsShort,
    ReceiptShort,
    UsedLengthWrong,
    StateShort,
    UnknownMark,
    CutStrip,
    OutOfTurn,
    TableShort,
    StripTooLong,
    StripShort,
    UnmentionedVariable,
    ReasonsShort,
    RowsShort,
    NoClause,
}

impl Fault {
    // The number on the receipt.
    pub fn number(self) -> u32
        ensures { result ≡ number_of self }
    {
        match self {
            Fault::TooManyVariables => 1,
            Fault::TooManyClauses => 2,
            Fault::TooManyLiterals => 3,
            Fault::OpenClause => 4,
            Fault::UnknownVariable(_) => 5,
            Fault::PlanShort => 6,
            Fault::TrailShort => 7,
            Fault::HeadsShort => 8,
            Fault::ReceiptShort => 9,
            Fault::UsedLengthWrong => 12,
            Fault::StateShort => 14,
            Fault::UnknownMark => 20,
            Fault::CutStrip => 21,
            Fault::OutOfTurn => 22,
            Fault::TableShort => 23,
            Fault::StripTooLong => 24,
            Fault::StripShort => 25,
            Fault::UnmentionedVariable => 26,
            Fault::ReasonsShort => 19,
            Fault::RowsShort => 27,
            Fault::NoClause => 28,
        }
    }

    // The group that it names: "for all other numbers it is 0".
    pub fn clause(self) -> ClauseNumber
        ensures { result ≡ named_clause self }
    {
        match self {
            Fault::UnknownVariable(clause) => clause,
            _ => ClauseNumber(0),
        }
    }
}

// Why, and where: document 01's place.
#[derive(Clone, Copy)]
pub struct Refusal {
    pub fault: Fault,
    pub place: usize,
}

// What a call puts on the receipt.
#[derive(Clone, Copy)]
pub struct Receipt {
    pub number: u32,
    pub place: usize,
    pub count: u32,
    pub clause: ClauseNumber,
}

// What names no group.
fn plain(number: u32, place: usize, count: u32) -> Receipt
    ensures { result ≡ receipt number place count }
{
    Receipt {
        number,
        place,
        count,
        clause: ClauseNumber(0),
    }
}

impl Refusal {
    pub fn new(fault: Fault, place: usize) -> Refusal
        ensures { result ≡ refusal fault place }
    {
        Refusal { fault, place }
    }

    pub fn receipt(self) -> Receipt
        ensures { result ≡ refused_receipt self }
    {
        Receipt {
            number: self.fault.number(),
            place: self.place,
            count: 0,
            clause: self.fault.clause(),
        }
    }
}

// Document 02's "18, done": the number of each of its operations that has no outcome of its own.
const DONE: u32 = 18;

// How a search ends that is not refused.
#[derive(Clone, Copy, PartialEq, Eq)]
pub enum Outcome {
    LaidOut,
    NoLayout,
    Stopped,
}

impl Outcome {
    pub fn number(self) -> u32
        ensures { result ≡ outcome_number self }
    {
        match self {
            Outcome::LaidOut => 0,
            Outcome::NoLayout => 10,
            Outcome::Stopped => 11,
        }
    }
}

// What each operation answers ----------------------------------------------------------------------------------------

// Check: nothing beside the number, "18, done".
pub fn checked_receipt(answer: Result<(), Refusal>) -> Receipt
    ensures { result ≡ checked_receipt answer }
{
    answer.map_or_else(|refusal| refusal.receipt(), |()| plain(DONE, 0, 0))
}

// How settling ends that is not refused.
#[derive(Clone, Copy, PartialEq, Eq)]
pub enum Settling {
    Settled,
    NoLayout,
}

impl Settling {
    pub fn number(self) -> u32
        ensures { result ≡ settling_number self }
    {
        match self {
            Settling::Settled => 13,
            Settling::NoLayout => 10,
        }
    }
}

pub fn settling_receipt(answer: Result<Settling, Refusal>) -> Receipt
    ensures { result ≡ settling_receipt answer }
{
    answer.map_or_else(
        |refusal| refusal.receipt(),
        |settling| plain(settling.number(), 0, 0),
    )
}

// Search: an outcome with its count of splits.
#[derive(Clone, Copy)]
pub struct Searched {
    pub outcome: Outcome,
    pub count: u32,
}

pub fn searching_receipt(answer: Result<Searched, Refusal>) -> Receipt
    ensures { result ≡ searching_receipt answer }
{
    answer.map_or_else(
        |refusal| refusal.receipt(),
        |searched| plain(searched.outcome.number(), 0, searched.count),
    )
}

pub fn indexing_receipt(answer: Result<(), Refusal>) -> Receipt
    ensures { result ≡ indexing_receipt answer }
{
    answer.map_or_else(|refusal| refusal.receipt(), |()| plain(17, 0, 0))
}

// What Index stores of a group: the index of its first element, of its 0 if it is empty, and its number of entries.
#[derive(Clone, Copy)]
pub struct Head {
    pub start: usize,
    pub entries: usize,
}

// Add: the new used length.
pub fn adding_receipt(answer: Result<usize, Refusal>) -> Receipt
    ensures { result ≡ adding_receipt answer }
{
    answer.map_or_else(|refusal| refusal.receipt(), |_| plain(15, 0, 0))
}

// Taking back: the new used length.
pub fn taking_back_receipt(answer: Result<usize, Refusal>) -> Receipt
    ensures { result ≡ taking_back_receipt answer }
{
    answer.map_or_else(|refusal| refusal.receipt(), |_| plain(DONE, 0, 0))
}

// Of Add and of taking back: "0 on refusal", and where the only group is taken back. The number tells which.
pub fn used_length(answer: Result<usize, Refusal>) -> usize
    ensures added { result ≡ added_length answer }
    ensures left { result ≡ length_left answer }
{
    answer.unwrap_or(0)
}

// Read: the number of placements and the used length, "both 0 on refusal".
#[derive(Clone, Copy)]
pub struct Read {
    pub variables: usize,
    pub used: usize,
}

pub fn reading_receipt(answer: Result<Read, Refusal>) -> Receipt
    ensures { result ≡ reading_receipt answer }
{
    answer.map_or_else(|refusal| refusal.receipt(), |_| plain(16, 0, 0))
}

pub fn read_variables(answer: Result<Read, Refusal>) -> usize
    ensures { result ≡ read_variables answer }
{
    answer.map_or(0, |read| read.variables)
}

pub fn read_length(answer: Result<Read, Refusal>) -> usize
    ensures { result ≡ read_length answer }
{
    answer.map_or(0, |read| read.used)
}

// Save: the number of bytes written.
pub fn saving_receipt(answer: Result<usize, Refusal>) -> Receipt
    ensures { result ≡ saving_receipt answer }
{
    answer.map_or_else(|refusal| refusal.receipt(), |length| plain(DONE, length, 0))
}

// List: an outcome with the rows written, whether there is a layout more than those, and its count of splits.
#[derive(Clone, Copy)]
pub struct Listed {
    pub outcome: Outcome,
    pub rows: usize,
    pub more: bool,
    pub count: u32,
}

pub fn listing_receipt(answer: Result<Listed, Refusal>) -> Receipt
    ensures { result ≡ listing_receipt answer }
{
    answer.map_or_else(
        |refusal| refusal.receipt(),
        |listed| plain(listed.outcome.number(), listed.rows, listed.count),
    )
}

// "place is the rows written": none on refusal, where the place is another.
pub fn rows_written(answer: Result<Listed, Refusal>) -> usize
    ensures { result ≡ rows_written answer }
{
    answer.map_or(0, |listed| listed.rows)
}

// "the answer says "more" when a further one exists and otherwise not".
pub fn says_more(answer: Result<Listed, Refusal>) -> bool
    ensures { result ≡ says_more answer }
{
    answer.is_ok_and(|listed| listed.more)
}
