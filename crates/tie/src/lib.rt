// A tie: the class of one open root goes over to a lower one, and two rings become one. Rules 4 and 5 follow where both stood.
#![tactic(auto)]

ghost use Rattle.std.specs.Prelude.{◌≡◌, ◌/◌, ◌<◌, ◌≤◌, is_err};
ghost use Rattle.literal.specs.Literal.{code_of, literal_at, max_variables, max_literals, max_clauses};
ghost use Rattle.theory.specs.State.{replace};
ghost use Rattle.occurrences.specs.Index.{Indexed, clause_count};
ghost use Rattle.notes.specs.Notes.{max_blocks};
ghost use Rattle.gather.specs.Gathering.{AtRoot};
ghost use Rattle.tie.specs.Turning.{Turnable, Turned, Joined, with_swapped};
ghost use Rattle.tie.specs.Listing.{block_between, ListedBy};
ghost use Rattle.tie.specs.Keeping.{are_long, Stamped, StampedBy, WideWith, StampedAll, Keeping, Kept};
ghost use Rattle.tie.specs.Tying.{Tieable, TieOf};

use literal::Literal;
use moves::DeadEnd;
use notes::{Block, Notes};
use occurrences::Index;
use tally::Tally;

// Where both classes stand -------------------------------------------------------------------------------------------

// A clause of so many literals is read faster than the clauses of a class are stamped; where there are many, each literal fewer is worth so many more.
const SHORT: usize = 5;

const MANY: usize = 8;

// Which clauses are stamped.
type Stamps = [bool; Literal::MAX_CLAUSES];

// Whether n clauses such as clause g are long.
#[tactic(auto, using(occurrences::proofs::Slices::literals_long))]
fn are_long(index: &Index, g: usize, n: usize) -> bool
    requires indexed { Indexed index.now }
    requires g_bound { g < clause_count index.now }
    requires n_le_max_literals { n ≤ max_literals }
    ensures { result ≡ are_long index.now g n }
{
    SHORT < index.literals_of(g).len() + n / MANY
}

// Stamps the clauses that hold variable p.
#[tactic(auto, using(crate::proofs::Stamping::stamping_laws))]
fn stamp_variable(index: &Index, stamps: &mut Stamps, p: usize)
    requires indexed { Indexed index.now }
    requires p_le_max_variables { p ≤ max_variables }
    ensures { StampedBy index.now stamps.old p stamps.new }
{
    for &occurrence in index.occurrences_of(p) {
        stamps[(occurrence / 2) as usize] = true;
    }
}

// Stamps the clauses that hold the class of root r.
fn stamp_class(index: &Index, state: &Tally, r: u16) -> Stamps
    requires { AtRoot index.now state.now r }
    ensures { StampedAll index.now state.now r result }
{
    let mut stamps = [false; Literal::MAX_CLAUSES];
    let mut p = state.link_of(r as usize);
    loop {
        stamp_variable(index, &mut stamps, p as usize);
        if p == r {
            return stamps;
        }
        p = state.link_of(p as usize);
    }
}

// Brings the stamped ones of the first n gathered clauses to the front, and says how many there are. A clause without a stamp is overwritten.
fn keep_stamped(work: &mut Notes, n: usize, stamps: &Stamps) -> usize
    requires { Keeping work.old max_clauses n }
    ensures { Kept (Stamped stamps.now) work.old n work.new result }
{
    let mut end = 0;
    for i in 0..n {
        let g = work.gathered_at(i);
        work.gathered[end] = g;
        end += stamps[g as usize] as usize;
    }
    end
}

// Keeps of the first n gathered clauses those that hold the class of root r too, or all where they are short, and says how many.
fn keep_both(index: &Index, state: &Tally, work: &mut Notes, n: usize, r: u16) -> usize
    requires at_root { AtRoot index.now state.now r }
    requires keeping { Keeping work.old (clause_count index.now) n }
    ensures { Kept (WideWith index.now state.now r) work.old n work.new result }
{
    if n == 0 {
        return 0;
    }
    if are_long(index, work.gathered_at(0) as usize, n) {
        let stamps = stamp_class(index, state, r);
        return keep_stamped(work, n, &stamps);
    }
    n
}

// Ties ---------------------------------------------------------------------------------------------------------------

// The pairs of a clause that holds the class of root q and a clause that holds the class of root r: each ring is a stretch from its root's link to the root.
fn block_between(state: &Tally, q: u16, r: u16) -> Block
    requires q_le_max_variables { q ≤ max_variables }
    requires r_le_max_variables { r ≤ max_variables }
    ensures { result ≡ block_between state.now q r }
{
    Block {
        first: state.link_of(q as usize),
        last: q,
        from: state.link_of(r as usize),
        to: r,
    }
}

// Lists a block, where any clauses were gathered for it.
#[tactic(auto, using(crate::proofs::Listings::listed_last))]
fn list_block(work: &mut Notes, gathered: usize, block: Block)
    requires { work.old.blocks_end < max_blocks }
    ensures { ListedBy work.old gathered block work.new }
{
    if gathered == 0 {
        return;
    }
    let end = work.blocks_end;
    work.blocks[end] = block;
    work.blocks_end = end + 1;
}

// What a literal v of the variable of x stands for once x stands for t.
#[tactic(auto, using(crate::proofs::Codes::turned_same, crate::proofs::Codes::turned_opposite))]
fn turned(v: u16, x: u16, t: u16) -> u16
    requires { v / 2 ≡ x / 2 }
    ensures { result ≡ code_of (replace (literal_at x) (literal_at t) (literal_at v)) }
{
    if v == x { t } else { tally::opposite(t) }
}

// The open root of x becomes t, and its class follows; the links stay.
fn turn(state: &mut Tally, x: u16, t: u16)
    requires { Turnable state.old x t }
    ensures { Turned state.old x t state.new }
{
    let root = (x / 2) as usize;
    let mut p = root;
    loop {
        let v = state.value_of(p);
        state.set_value(p, turned(v, x, t));
        p = state.link_of(p) as usize;
        if p == root {
            return;
        }
    }
}

// The rings of p and q, which differ, become one.
fn swap_links(state: &mut Tally, p: usize, q: usize)
    requires p_le_max_variables { p ≤ max_variables }
    requires q_le_max_variables { q ≤ max_variables }
    ensures { state.new ≡ with_swapped p q state.old }
{
    let a = state.link_of(p);
    let b = state.link_of(q);
    state.set_link(p, b);
    state.set_link(q, a);
}

// The class of x goes over to that of t.
fn join(state: &mut Tally, x: u16, t: u16)
    requires { Turnable state.old x t }
    ensures { Joined state.old x t state.new }
{
    turn(state, x, t);
    swap_links(state, (t / 2) as usize, (x / 2) as usize);
}

// Rules 6 and 8: exactly one of `low` and `high` is true, literals of open roots of which high's is the higher; it becomes the opposite of low.
// Clauses that held the higher root are gathered before it goes over: of the pairs that it makes meet each has one of them and one that held the lower root,
// and in those that held both the lower one stands twice now.
pub fn tie(
    index: &Index,
    state: &mut Tally,
    work: &mut Notes,
    low: u16,
    high: u16,
) -> Result<(), DeadEnd>
    requires { Tieable index.now state.old work.old low high }
    ensures { TieOf index.now state.old work.old state.new work.new (is_err result) }
{
    let n = gather::gather(index, state, work, high / 2);
    let both = keep_both(index, state, work, n, low / 2);
    let block = block_between(state, high / 2, low / 2);
    join(state, high, tally::opposite(low));
    list_block(work, n, block);
    undouble::undoubles(index, state, work, both, low / 2)
}
