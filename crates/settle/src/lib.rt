// Settle: what settling knows of each placement of a table, and which group settled or tied it.
#![tactic(auto)]

ghost use Rattle.std.specs.Prelude.{◌≡◌, ◌≤◌, length};
ghost use Rattle.general.specs.Lists.{up_to};
ghost use Rattle.literal.specs.Literal.{var, max_variables};
ghost use Rattle.theory.specs.Calls.{over, state_entry, settle_call};
ghost use Rattle.theory.specs.Table.{Accepted};
ghost use Rattle.state.specs.State.{state_of};
ghost use Rattle.propagate.specs.Code.{reasons_of};
ghost use Rattle.settle.specs.Settle.{called};

use literal::{Literal, Variable};
use receipt::{Fault, Refusal, Settling};
use state::State;

// What Settle writes for a placement that is taken, and for one that is left out.
pub const TAKEN: i16 = Literal::MAX_VARIABLES as i16 + 1;

pub const LEFT_OUT: i16 = -TAKEN;

// +p open, +r or -r tied to r.
fn state_entry(x: Literal) -> i16
    requires { var x ≤ max_variables }
    ensures { result ≡ state_entry x }
{
    if x.is_open() {
        x.entry()
    } else if x == Literal::TRUE {
        TAKEN
    } else {
        LEFT_OUT
    }
}

// What each placement from 1 to n stands for.
fn write_state(list: &mut [i16], n: usize, state: &State)
    requires n_in_bounds { n ≤ length list.old }
    requires n_le_max_variables { n ≤ max_variables }
    ensures { list.new ≡ over n (up_to (λ p. state_entry (state_of state.now.values p)) n) list.old }
{
    for (i, entry) in list[..n].iter_mut().enumerate() {
        *entry = state_entry(state.root(Variable(i as u16 + 1)));
    }
}

// The group that settled or tied each placement from 1 to n, 0 where none did.
fn write_reasons(lent: &mut [u16], n: usize, reasons: &[u16; Literal::VARIABLES])
    requires n_in_bounds { n ≤ length lent.old }
    requires n_le_max_variables { n ≤ max_variables }
    ensures { lent.new ≡ over n (up_to (reasons_of reasons.now) n) lent.old }
{
    lent[..n].copy_from_slice(&reasons[1..n + 1]);
}

// Settle of a table that is known to be within the limits.
#[tactic(auto, unfolding(theory::specs::Calls::settle_call), using(theory::proofs::Tables::accepted_sizes))]
pub fn settle_accepted(
    table: &[i16],
    n: usize,
    list: &mut [i16],
    reasons: &mut [u16],
) -> Result<Settling, Refusal>
    requires { Accepted n table.now }
    ensures { called result list.new reasons.new ≡ settle_call n table.now list.old reasons.old }
{
    table::at_most(n, list.len(), Fault::StateShort)?;
    table::at_most(n, reasons.len(), Fault::ReasonsShort)?;
    match propagate::propagate(table, n, State::initial()) {
        None => {
            fill::clear(list, 0, n, 0);
            fill::clear(reasons, 0, n, 0);
            Ok(Settling::NoLayout)
        }
        Some(settled) => {
            write_state(list, n, &settled.state);
            write_reasons(reasons, n, &settled.reasons);
            Ok(Settling::Settled)
        }
    }
}

#[tactic(auto, unfolding(theory::specs::Calls::settle_call))]
pub fn settle(
    table: &[i16],
    n: usize,
    list: &mut [i16],
    reasons: &mut [u16],
) -> Result<Settling, Refusal>
    ensures { called result list.new reasons.new ≡ settle_call n table.now list.old reasons.old }
{
    table::check_table(table, n)?;
    settle_accepted(table, n, list, reasons)
}
