// A query over tables in the pool, without an engine that answers it: its types, the numbers that refuse it, and the outcome that any answer must have.
//
// The number of the first check that a query fails is `join_number` (specs/Query.antt), and given exactly when documents 01 and 02 say (proofs/Exactly.antt). What a join
// writes and answers is `outcome` (specs/Outcome.antt), a function of pool, tables, query and window alone. The code that finds the number is crates/join_checks; nothing here
// knows how the rows are found.
#![tactic(auto)]

use column_trie::ColumnTrie;

// An atom over one table or, where it is laid over, over the rows that count of two: `table` is then the school's and `maker` the maker's. A plain atom's `maker` is not looked at.
// C's `ducatbriar_atom`: that is why the length stands beside the array, and a flag beside `maker`.
#[repr(C)]
#[derive(Clone, Copy)]
pub struct Atom {
    pub table: usize,
    pub len: usize,
    pub variables: [usize; ColumnTrie::MAX_ARITY],
    pub laid_over: bool,
    pub maker: usize,
}

// C's `ducatbriar_query`, with its lengths beside its arrays. `atoms` below cuts one to its length; `order`, and an atom's `variables`, are cut where they are read.
#[repr(C)]
#[derive(Clone, Copy)]
pub struct Query {
    pub n: usize,
    pub order: [usize; Query::MAX_VARIABLES],
    pub atom_count: usize,
    pub atoms: [Atom; Query::MAX_ATOMS],
}

impl Query {
    pub const MAX_ATOMS: usize = query::MAX_ATOMS;

    pub const MAX_VARIABLES: usize = 8;

    ghost use Rattle.std.specs.Prelude.{◌≡◌, ◌≤◌, length};
    ghost use Rattle.query.specs.Limits.{max_atoms};
    ghost use Rattle.join_query.specs.Query.{atoms_in};

    // The first `atom_count` of the array.
    pub fn atoms(&self) -> &[Atom]
        requires { self.now.atom_count ≤ max_atoms }
        ensures listed { result.now ≡ atoms_in self.now }
        ensures many { length result.now ≡ self.now.atom_count }
    {
        &self.atoms[..self.atom_count]
    }
}

// C's `ducatbriar_tables`, likewise.
#[repr(C)]
#[derive(Clone, Copy)]
pub struct Tables {
    pub count: usize,
    pub tables: [ColumnTrie; Tables::MAX_TABLES],
}

impl Tables {
    pub const MAX_TABLES: usize = 8;
}
