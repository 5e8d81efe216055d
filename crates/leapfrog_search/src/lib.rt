// Internal: every function here asks something of its caller by a `requires`. The leapfrog's search of sorted runs, Algorithm 2 of Veldhuizen 2014: the port of
// `leapfrog_search` in kermit-algos/src/sorted/leapfrog_join.rs of the Rust.
//
// The runs lie in one pool. Atom a stands at pool[at[a]], and its run ends before end[a]. The ring's first k entries are the atoms that take part;
// p is a place of the ring. From p round, the keys on which the atoms stand do not fall: the atom at p has the least, the one before it the greatest.
//
// The ring is an array with k beside it and no slice: `Ready`, `Agreed` and `SameAtoms`, by which a join keeps its ring from depth to depth, say that it is as
// long as the array (`size`), which a slice of k is not, and `one_search_makes_no_more_seeks_than_keys_not_yet_passed` (docs/CALLS.md) is said of ring and k.
// `at` and `end` are no struct: a search writes the one and only reads the other, which a struct lent to be written would need a clause to say, and they are
// two of the four arrays of a `State` (crates/stretches), which lends them from there.
//
// `leapfrog_search` does what its algorithm does to the runs, as crates/leapfrog computes it: it leaves the same runs, stops at the same place, on the same key or
// on none, and makes the same number of seeks (specs/Leapfrog.antt, `Ran`).
#![tactic(auto)]

ghost use Rattle.std.specs.Prelude.{◌≡◌, ◌<◌, ◌≤◌, length};
ghost use Rattle.seek.specs.Seek.{probed_by};
ghost use Rattle.leapfrog.specs.Search.{search_of};
ghost use Rattle.leapfrog_search.specs.Ring.{Follows};
ghost use Rattle.leapfrog_search.specs.Leapfrog.{part, runs_in, Ready, Ordered, Ran};

use query::MAX_ATOMS;
use seek::{Probed, SeekStrategy, probe};

// How a search ends: with the key on which all stand, p being the place from which `leapfrog_next` or `leapfrog_seek` goes on, or with none, p being the place of
// the atom that has no key left, from where nothing goes on. It is no Result: to find none is no error, and both cases have a place, with two meanings. Where a run has no keys
// to begin with nothing is searched, and the place says nothing (crates/join_depths).
#[derive(Clone, Copy)]
pub enum Landed {
    Key { key: u64, p: usize },
    Nothing { p: usize },
}

// What a call answers: how its search ended, and how many seeks it made.
#[derive(Clone, Copy)]
pub struct Searched {
    pub landed: Landed,
    pub seeks: u64,
}

// The place of the ring after p.
pub fn after(p: usize, k: usize) -> usize
    requires { p < k }
    ensures { Follows k p result }
{
    if p + 1 == k { 0 } else { p + 1 }
}

// The place of the ring before p.
pub fn before(p: usize, k: usize) -> usize
    requires { p < k }
    ensures { Follows k result p }
{
    if p == 0 { k - 1 } else { p - 1 }
}

// One seek in the run from x to e: where it ended behind x, and its probes, which tell the strategy. It is handed the keys not yet passed.
pub fn seek_run(pool: &[u64], x: usize, e: usize, target: u64, strategy: SeekStrategy) -> Probed
    requires { (x ≤ e) × (e ≤ length pool.now) }
    ensures { result ≡ probed_by strategy (part pool.now x e) target }
{
    probe(strategy, &pool[x..e], target)
}

// Algorithm 2, from place `start` of an ordered ring: the atom with the least key seeks the greatest, until all agree or one has no key left.
pub fn leapfrog_search(
    pool: &[u64],
    at: &mut [usize; MAX_ATOMS],
    end: &[usize; MAX_ATOMS],
    ring: &[usize; MAX_ATOMS],
    k: usize,
    start: usize,
    strategy: SeekStrategy,
) -> Searched
    requires ready { Ready pool.now at.old end.now ring.now k }
    requires ordered { Ordered pool.now at.old ring.now k start }
    requires start_lt_k { start < k }
    ensures { Ran pool.now end.now ring.now k at.old at.new (search_of (runs_in pool.now at.old end.now ring.now k) start) result }
{
    let mut p = start;
    let z = ring[before(start, k)];
    let y = at[z];
    let mut most = pool[y];
    let mut seeks: u64 = 0;
    let landed: Landed = loop {
        let a = ring[p];
        let x = at[a];
        if pool[x] == most {
            break Landed::Key { key: most, p };
        }
        let e = end[a];
        let q = x + seek_run(pool, x, e, most, strategy).offset;
        seeks += 1;
        at[a] = q;
        if q == e {
            break Landed::Nothing { p };
        }
        most = pool[q];
        p = after(p, k);
    };
    Searched { landed, seeks }
}
