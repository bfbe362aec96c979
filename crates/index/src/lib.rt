// Index: a head for each group of a table, in a lent list.
#![tactic(auto)]

ghost use Rattle.std.specs.Prelude.{◌≡◌, ◌≤◌};
ghost use Rattle.literal.specs.Literal.{max_clauses};
ghost use Rattle.theory.specs.Calls.{index_call};
ghost use Rattle.index.specs.Index.{next_head, due_of, called, index_first, index_array};

use literal::Literal;
use receipt::{Fault, Head, Refusal};
use table::Pass;

// A group's head, and the index after the 0 that closes the group.
#[derive(Clone, Copy)]
pub struct Next {
    pub head: Head,
    pub next: usize,
}

// The head of the group that begins at index `at`. At the end of the table there is nothing to pass.
pub fn next_head(table: &[i16], at: usize) -> Next
    ensures { result ≡ next_head table.now at }
{
    for i in at..table.len() {
        if literal::size(table[i]) == 0 {
            let head = Head {
                start: at,
                entries: i - at,
            };
            return Next { head, next: i + 1 };
        }
    }
    let next = table.len().max(at);
    let head = Head {
        start: at,
        entries: next - at,
    };
    Next { head, next }
}

// "Tables: 1, 2, 3, 4, 5, then .. 8 (index)", with room for so many heads; else how many heads are stored.
pub fn due_of(table: &[i16], n: usize, room: usize) -> Result<usize, Refusal>
    ensures { result ≡ due_of n table.now room }
{
    let pass = Pass::begin(n).after(table);
    pass.verdict()?;
    let clauses = pass.clauses as usize;
    table::at_most(clauses, room, Fault::HeadsShort)?;
    Ok(clauses)
}

// "The index fills a lent list of heads": the loop only stores.
pub fn index(table: &[i16], n: usize, heads: &mut [Head]) -> Result<(), Refusal>
    ensures { called result heads.new ≡ index_call n table.now heads.old }
{
    let due = due_of(table, n, heads.len())?;
    let mut at = 0;
    for head in &mut heads[..due] {
        let next = next_head(table, at);
        *head = next.head;
        at = next.next;
    }
    Ok(())
}

// The answer, and the array after the call, which a refused call leaves as it was.
#[derive(Drop)]
pub struct Filled {
    pub answer: Result<(), Refusal>,
    pub heads: [Head; Literal::MAX_CLAUSES],
}

// Index of an array by value, the first `room` heads of which are lent.
fn index_first(table: &[i16], n: usize, heads: [Head; Literal::MAX_CLAUSES], room: usize) -> Filled
    requires { room ≤ max_clauses }
    ensures { called result.answer result.heads ≡ index_first n table.now heads room }
{
    let mut heads = heads;
    let answer = index(table, n, &mut heads[..room]);
    Filled { answer, heads }
}

// The same for any room: no table has more groups than the array has heads.
pub fn index_array(
    table: &[i16],
    n: usize,
    heads: [Head; Literal::MAX_CLAUSES],
    room: usize,
) -> Filled
    ensures { called result.answer result.heads ≡ index_array n table.now heads room }
{
    index_first(table, n, heads, room.min(Literal::MAX_CLAUSES))
}
