// The state of propagation, by value: what each variable stands for, and the one operation of all rules and splits.
#![tactic(auto)]

ghost use Rattle.std.specs.Prelude.{◌≡◌, ◌≤◌};
ghost use Rattle.literal.specs.Literal.{var, max_variables};
ghost use Rattle.theory.specs.State.{initial, value, replace, assign};
ghost use Rattle.state.specs.State.{state_of, InRange};

use literal::{Literal, Variable};
use std::array;

// At index p the code of the literal that variable p stands for. Variable 0 is the constant.
#[derive(Clone, Copy)]
pub struct State {
    pub values: [u16; Literal::VARIABLES],
    pub ghost in_range: { InRange values },
}

impl State {
    // Everything is open.
    pub fn initial() -> State
        ensures { state_of result.values ≡ initial }
    {
        State {
            values: array::from_fn(|p| 2 * p as u16),
        }
    }

    // What a variable stands for.
    pub fn root(&self, variable: Variable) -> Literal
        requires { variable.0 ≤ max_variables }
        ensures { result ≡ state_of self.now.values variable.0 }
    {
        Literal::of_code(self.values[variable.0 as usize])
    }

    // What a literal stands for.
    pub fn value(&self, x: Literal) -> Literal
        requires { var x ≤ max_variables }
        ensures { result ≡ value (state_of self.now.values) x }
    {
        match x {
            Literal::Pos(p) => self.root(Variable(p)),
            Literal::Neg(p) => self.root(Variable(p)).opposite(),
        }
    }

    // x becomes t, and "followers move with it".
    pub fn assign(&self, x: Literal, t: Literal) -> State
        requires x_bound { var x ≤ max_variables }
        requires t_bound { var t ≤ max_variables }
        ensures { state_of result.values ≡ assign x t (state_of self.now.values) }
    {
        let mut values = self.values;
        for code in &mut values {
            *code = replaced(Literal::of_code(*code), x, t).code();
        }
        State { values }
    }
}

// l where x becomes t and the opposite of x the opposite of t.
fn replaced(l: Literal, x: Literal, t: Literal) -> Literal
    ensures { result ≡ replace x t l }
{
    if l == x {
        t
    } else if l == x.opposite() {
        t.opposite()
    } else {
        l
    }
}
