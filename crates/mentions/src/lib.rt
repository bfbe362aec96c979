// Which placements a table names (document 02, A3): a truth value for each number up to the limit, kept while the table grows.
#![tactic(auto)]

ghost use Rattle.std.specs.Prelude.{◌≡◌, List, [], ◌∷◌, ◌++◌, ◌≤◌, ℤ, nat_abs};
ghost use Rattle.literal.specs.Literal.{max_variables};
ghost use Rattle.theory.specs.Mentions.{mentions_all};
ghost use Rattle.mentions.specs.Noted.{Noted};

use literal::Literal;

// One element more, by its size. A 0, which closes a group, sets number 0, which nobody asks for; a size above the limit is passed over.
pub fn note(mentioned: &mut [bool; Literal::VARIABLES], size: u16)
    ensures { (t : List ℤ) (e : ℤ) → nat_abs e ≡ size → Noted mentioned.old t → Noted mentioned.new (t ++ (e ∷ [])) }
{
    let p = usize::from(size);
    if p < Literal::VARIABLES {
        mentioned[p] = true;
    }
}

// Whether all placements from 1 to n were noted.
pub fn all_noted(mentioned: &[bool; Literal::VARIABLES], n: usize) -> bool
    requires { n ≤ max_variables }
    ensures { (t : List ℤ) → Noted mentioned.now t → result ≡ mentions_all n t }
{
    mentioned[1..=n].iter().all(|&noted| noted)
}

// The same of a whole table.
pub fn mentions_all(table: &[i16], n: usize) -> bool
    requires { n ≤ max_variables }
    ensures { result ≡ mentions_all n table.now }
{
    let mut mentioned = [false; Literal::VARIABLES];
    for &e in table {
        note(&mut mentioned, literal::size(e));
    }
    all_noted(&mentioned, n)
}
