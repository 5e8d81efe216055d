// The checks of a query, in document 01's sequence, with 15 and 16 of document 02 behind 11 and 17 behind 6. `check` asks nothing; the others are internal, and some ask of their caller what an earlier check found.
#![tactic(auto)]

ghost use Rattle.std.specs.Prelude.{◌≡◌, true, List, ℕ, ◌≤◌, length, drop};
ghost use Rattle.relation.specs.Tests as index;
ghost use Rattle.query.specs.Meet.{has};
ghost use Rattle.query.specs.Solve.{headed};
ghost use Rattle.query.specs.Checks.{some, covers};
ghost use Rattle.column_trie.specs.Limits.{max_arity};
ghost use Rattle.query.specs.Limits.{max_atoms};
ghost use Rattle.join_query.specs.Query.{max_tables, table_at, lists_of, order_ok, names_some, named_ok, listed_at, list_ok, column_ok, binds_only, one_kind, whole_rows, names, named, sound_at, shapes_agree, shape_ok, join_number};
ghost use Rattle.join_query.specs.Checking.{reached};
ghost use Rattle.refusal.specs.Number.{given};

use column_trie::ColumnTrie;
use join_query::{Atom, Query, Tables};
use laid_over::same_shape;
use query::permutes;
use refusal::Refusal;
use sound_table::undamaged;

// Not 8: the order, n numbers long, is a permutation of 0 to n - 1, and n is at most 8.
fn order_ok(q: &Query) -> bool
    ensures { result ≡ order_ok q.now }
{
    q.n <= Query::MAX_VARIABLES && permutes(&q.order[..q.n])
}

// Whether the atom's table is one of `count`, and its maker's where it is laid over.
fn names_some(count: usize, a: &Atom) -> bool
    ensures { result ≡ names_some count a.now }
{
    a.table < count && (!a.laid_over || a.maker < count)
}

// Not 9: there are at most 8 atoms and tables, and each atom names tables.
fn named_ok(count: usize, q: &Query) -> bool
    ensures { result ≡ named_ok count q.now }
{
    q.atom_count <= Query::MAX_ATOMS
        && count <= Tables::MAX_TABLES
        && q.atoms().iter().all(|a| names_some(count, a))
}

// Whether v stands at place j of an atom's list.
pub fn heads(list: &[usize], j: usize, v: usize) -> bool
    ensures { result ≡ headed v (drop j list.now) }
{
    j < list.len() && list[j] == v
}

// How many of the variables of an atom's list the first ones of the order give a word to.
pub fn reached(first: &[usize], list: &[usize]) -> usize
    ensures { result ≡ reached first.now list.now }
{
    let mut j = 0;
    for v in first {
        if heads(list, j, *v) {
            j += 1;
        }
    }
    j
}

// Not 10, of one atom: its list is as long as its table's arity, and it strictly follows the order.
fn list_ok(q: &Query, a: &Atom, arity: usize) -> bool
    requires { order_ok q.now ≡ true }
    ensures { result ≡ listed_at q.now a.now arity }
{
    a.len <= ColumnTrie::MAX_ARITY
        && a.len == arity
        && reached(&q.order[..q.n], &a.variables[..a.len]) == a.len
}

// Not 10: every atom's list passes.
fn lists_ok(ts: &Tables, q: &Query) -> bool
    requires { (order_ok q.now ≡ true) × (named_ok ts.now.count q.now ≡ true) }
    ensures { result ≡ index.every q.now.atom_count (list_ok ts.now q.now) }
{
    for a in q.atoms() {
        if !list_ok(q, a, ts.tables[a.table].arity) {
            return false;
        }
    }
    true
}

// Whether v binds only columns of this kind (yes: grade) in the atom. Column j of its list is column j of its table.
fn columns_ok(t: &ColumnTrie, a: &Atom, v: usize, grade: bool) -> bool
    requires { a.now.len ≤ max_arity }
    ensures { result ≡ index.every a.now.len (column_ok t.now a.now v grade) }
{
    for j in 0..a.len {
        if a.variables[j] == v && t.grade[j] != grade {
            return false;
        }
    }
    true
}

// Not 16: the window is some number of rows long. Rows without words are never 16.
fn rows_ok(n: usize, len: usize) -> bool
    ensures { result ≡ whole_rows n len }
{
    n == 0 || len % n == 0
}

// Whether the atom names table t: as its table, or as its maker's where it is laid over.
fn names(a: &Atom, t: usize) -> bool
    ensures { result ≡ names t a.now }
{
    a.table == t || (a.laid_over && a.maker == t)
}

// Not 17, of one atom: where it is laid over, its two tables are of the same shape.
fn shape_ok(ts: &Tables, a: &Atom) -> bool
    requires { (ts.now.count ≤ max_tables) × (names_some ts.now.count a.now ≡ true) × ((table_at ts.now a.now.table).arity ≤ max_arity) }
    ensures { result ≡ shapes_agree ts.now a.now }
{
    !a.laid_over || same_shape(ts.tables[a.table], ts.tables[a.maker])
}

// A query that 9 and 10 let pass, with its tables: what the checks behind them rely on.
#[derive(Clone, Copy)]
struct Formed<'a> {
    ts: &'a Tables,
    q: &'a Query,
    ghost named: { named_ok ts.now.count q.now ≡ true },
    ghost listed: { index.every q.now.atom_count (list_ok ts.now q.now) ≡ true },

    // A type says it, but not of an array of structs in a struct that a field refers to.
    ghost full: { length q.now.atoms ≡ max_atoms },
}

impl<'a> Formed<'a> {
    // Whether v is in some atom's list.
    fn held(&self, v: usize) -> bool
        ensures { result ≡ some (λ (l : List ℕ). has l v) (lists_of self.now.q.now) }
    {
        for a in self.q.atoms() {
            if a.variables[..a.len].contains(&v) {
                return true;
            }
        }
        false
    }

    // Not 11: each variable is in some atom's list.
    fn all_held(&self) -> bool
        ensures { result ≡ covers self.now.q.now.n (lists_of self.now.q.now) }
    {
        (0..self.q.n).all(|v| self.held(v))
    }

    // Whether v binds only columns of this kind.
    fn binds_only(&self, v: usize, grade: bool) -> bool
        ensures { result ≡ binds_only self.now.ts.now self.now.q.now v grade }
    {
        for a in self.q.atoms() {
            if !columns_ok(&self.ts.tables[a.table], a, v, grade) {
                return false;
            }
        }
        true
    }

    // Not 15: each variable binds only plain columns, or only grades.
    fn kinds_ok(&self) -> bool
        ensures { result ≡ index.every self.now.q.now.n (one_kind self.now.ts.now self.now.q.now) }
    {
        (0..self.q.n).all(|v| self.binds_only(v, false) || self.binds_only(v, true))
    }

    // Whether an atom names table t.
    fn is_named(&self, t: usize) -> bool
        ensures { result ≡ named self.now.q.now t }
    {
        self.q.atoms().iter().any(|a| names(a, t))
    }

    // Not 6: each table that an atom names is undamaged. Each is looked at once, however many atoms name it.
    fn tables_ok(&self, pool: &[u64]) -> bool
        ensures { result ≡ index.every self.now.ts.now.count (sound_at pool.now self.now.ts.now self.now.q.now) }
    {
        let ts = self.ts;
        for (i, t) in ts.tables[..ts.count].iter().enumerate() {
            if self.is_named(i) && !undamaged(pool, *t) {
                return false;
            }
        }
        true
    }

    // Not 17: every atom passes.
    fn shapes_ok(&self) -> bool
        ensures { result ≡ index.every self.now.q.now.atom_count (shape_ok self.now.ts.now self.now.q.now) }
    {
        for a in self.q.atoms() {
            if !shape_ok(self.ts, a) {
                return false;
            }
        }
        true
    }
}

// The refusal of the first check that the query fails; the window has `len` words.
pub fn check(pool: &[u64], ts: Tables, q: Query, len: usize) -> Result<(), Refusal>
    ensures { given result ≡ join_number pool.now ts q len }
{
    if !order_ok(&q) {
        return Err(Refusal::BadOrder);
    }
    if !named_ok(ts.count, &q) {
        return Err(Refusal::BadAtoms);
    }
    if !lists_ok(&ts, &q) {
        return Err(Refusal::BadList);
    }
    let formed = Formed { ts: &ts, q: &q };
    if !formed.all_held() {
        return Err(Refusal::FreeVariable);
    }
    if !formed.kinds_ok() {
        return Err(Refusal::MixedKinds);
    }
    if !rows_ok(q.n, len) {
        return Err(Refusal::PartRows);
    }
    if !formed.tables_ok(pool) {
        return Err(Refusal::Damaged);
    }
    if !formed.shapes_ok() {
        return Err(Refusal::OtherShape);
    }
    Ok(())
}
