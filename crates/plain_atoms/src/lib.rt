// Internal: what the atoms say of a row of words by variable number: which of them gives the keys to try for a variable and, of those whose last variable has a word, whether
// each has its part of the row among its rows. An atom's list follows the query's order, so when a variable's turn comes, those before it in the list have their words.
#![tactic(auto)]

ghost use Rattle.std.specs.Prelude.{◌≡◌, ◌≤◌, ◌<◌, ◌==◌, position, length, drop};
ghost use Rattle.column_trie.specs.Limits.{max_arity};
ghost use Rattle.join_query.specs.Query.{max_variables, vars_of, atom_at, atoms_of};
ghost use Rattle.plain.specs.Plain.{column, all_hold};
ghost use Rattle.plain_atoms.specs.Atoms.{Passed, VariableOf, First};

use join_query::{Atom, Query, Tables};
use plain_keys::{Row, next_key};

// The column of the atom that v binds, if it binds one.
pub fn column(a: &Atom, v: usize) -> Option<usize>
    requires { a.now.len ≤ max_arity }
    ensures place { result ≡ position (λ w. w == v) (vars_of a.now) }
    ensures long { length (vars_of a.now) ≡ a.now.len }
{
    a.variables[..a.len].iter().position(|&w| w == v)
}

// The number of the first atom that v binds a column of, and which column that is. A pair: with a struct, of four lines, the plain engine had more than the 120 that are asked
// (docs/DECISIONS.md 67).
pub fn holder(query: &Query, v: usize) -> (usize, usize)
    requires { VariableOf query.now v }
    ensures { First query.now v result.0 × (result.1 ≡ column v (vars_of (atom_at query.now result.0))) }
{
    for i in 0..query.atom_count {
        if let Some(c) = column(&query.atoms[i], v) {
            return (i, c);
        }
    }
    unreachable!() // each variable of an accepted query is in an atom's list
}

// What is asked: a query that passed the checks, with the tables and the pool in which its atoms' rows lie.
#[derive(Clone, Copy)]
pub struct Asked<'a> {
    pub pool: &'a [u64],
    pub tables: &'a Tables,
    pub query: &'a Query,
    pub ghost passed: { Passed pool.now tables.now query.now },
}

// Whether each atom from number `from` on whose last column v binds has its part of the row among its rows; one that is not complete, or was so before, is not looked at.
pub fn all_hold(asked: Asked, row: Row, v: usize, from: usize) -> bool
    requires { v < max_variables }
    ensures { let a = asked.entry in result ≡ all_hold v row (drop from (atoms_of a.pool.now a.tables.now a.query.now)) }
{
    for i in from..asked.query.atom_count {
        let a = asked.query.atoms[i];
        if let Some(c) = column(&a, v) {
            if c + 1 == a.len {
                match next_key(asked.pool, asked.tables, a, row, c, false) {
                    Some(key) if key == row[v] => {}
                    _ => return false,
                }
            }
        }
    }
    true
}
