// The table check of document 01: refusals 1 to 5, from one pass over the table, which may be handed over in parts (document 02, A4).
#![tactic(auto)]

ghost use Rattle.std.specs.Prelude.{◌≡◌};
ghost use Rattle.theory.specs.Table.{check, refused};
ghost use Rattle.theory.specs.Refusing.{at_most};
ghost use Rattle.table.specs.Pass.{begin, one_more, clause_next, unknown_next, next, after, verdict};

use literal::{ClauseNumber, Literal};
use receipt::{Fault, Refusal};

// An entry whose size is above n: its index, and the number of its clause.
#[derive(Clone, Copy)]
pub struct Unknown {
    pub place: usize,
    pub clause: ClauseNumber,
}

// A pass over a table, wherever it stands: the number of variables; of the elements so far the closed clauses and the literals, each counted up to one past its limit,
// whether the last one was not 0, and the first unknown variable.
#[derive(Clone, Copy)]
pub struct Pass {
    pub variables: usize,
    pub clauses: u16,
    pub literals: u16,
    pub unclosed: bool,
    pub unknown: Option<Unknown>,
}

// One past each limit. A table that has so many is refused, whatever follows, so no count goes further, and no list is too long.
const ENOUGH_CLAUSES: u16 = Literal::MAX_CLAUSES as u16 + 1;

const ENOUGH_LITERALS: u16 = Literal::MAX_LITERALS as u16 + 1;

fn one_more(count: u16, enough: u16) -> u16
    ensures { result ≡ one_more count enough }
{
    if count < enough { count + 1 } else { count }
}

pub fn refused(fault: Fault, place: usize) -> Result<(), Refusal>
    ensures { result ≡ refused fault place }
{
    Err(Refusal::new(fault, place))
}

// A count above its limit is refused, at place 0.
pub fn at_most(count: usize, limit: usize, fault: Fault) -> Result<(), Refusal>
    ensures { result ≡ at_most count limit fault }
{
    if limit < count {
        refused(fault, 0)
    } else {
        Ok(())
    }
}

impl Pass {
    // The state at the beginning, for a filing of n placements.
    pub fn begin(n: usize) -> Pass
        ensures { result ≡ begin n }
    {
        Pass {
            variables: n,
            clauses: 0,
            literals: 0,
            unclosed: false,
            unknown: None,
        }
    }

    // The number of the clause that the next element stands in. Past the limit of clauses nobody asks for it.
    pub fn clause_next(self) -> ClauseNumber
        ensures { result ≡ clause_next self }
    {
        ClauseNumber(one_more(self.clauses, ENOUGH_CLAUSES))
    }

    // The next element, of this size, where its variable is unknown. The counts add up to its index; past a limit they don't, and 2 or 3 speaks first. The size of
    // -32768 is 32768, so it is above every n that is allowed.
    fn unknown_next(self, size: u16) -> Option<Unknown>
        ensures { result ≡ unknown_next self size }
    {
        if self.variables < size as usize {
            Some(Unknown {
                place: self.clauses as usize + self.literals as usize,
                clause: self.clause_next(),
            })
        } else {
            None
        }
    }

    // One element more, by its size. The first unknown variable stays.
    #[tactic(auto, unfolding(crate::specs::Pass::next))]
    fn next(self, size: u16) -> Pass
        ensures { result ≡ next self size }
    {
        // Made anew from its parts: a copy of the option would go through memory at each element.
        let unknown = match self.unknown {
            Some(Unknown { place, clause }) => Some(Unknown { place, clause }),
            None => self.unknown_next(size),
        };
        if size == 0 {
            Pass {
                clauses: one_more(self.clauses, ENOUGH_CLAUSES),
                unclosed: false,
                unknown,
                ..self
            }
        } else {
            Pass {
                literals: one_more(self.literals, ENOUGH_LITERALS),
                unclosed: true,
                unknown,
                ..self
            }
        }
    }

    // The state after one more part.
    pub fn after(self, part: &[i16]) -> Pass
        ensures { result ≡ after self part.now }
    {
        let mut pass = self;
        for &entry in part {
            pass = pass.next(literal::size(entry));
        }
        pass
    }

    // "Tables: 1, 2, 3, 4, 5": each refusal is over the whole table before the next.
    #[tactic(auto, unfolding(crate::specs::Pass::verdict))]
    pub fn verdict(self) -> Result<(), Refusal>
        ensures { result ≡ verdict self }
    {
        at_most(
            self.variables,
            Literal::MAX_VARIABLES,
            Fault::TooManyVariables,
        )?;
        at_most(
            self.clauses as usize,
            Literal::MAX_CLAUSES,
            Fault::TooManyClauses,
        )?;
        at_most(
            self.literals as usize,
            Literal::MAX_LITERALS,
            Fault::TooManyLiterals,
        )?;
        if self.unclosed {
            return refused(Fault::OpenClause, 0);
        }
        match self.unknown {
            Some(unknown) => refused(Fault::UnknownVariable(unknown.clause), unknown.place),
            None => Ok(()),
        }
    }
}

// What every operation asks of a table first.
#[tactic(auto, using(crate::proofs::Passes::verdict_check))]
pub fn check_table(table: &[i16], n: usize) -> Result<(), Refusal>
    ensures { result ≡ check n table.now }
{
    Pass::begin(n).after(table).verdict()
}
