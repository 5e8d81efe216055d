// Internal: every public function here asks something of its caller by a `requires`. The leapfrog join of sorted runs, Algorithms 1, 3 and 4 of
// Veldhuizen 2014 over the search of crates/leapfrog_search, which has what pool, places, ends and ring hold: the port of
// kermit-algos/src/sorted/leapfrog_join.rs of the Rust.
//
// Each of `leapfrog_init`, `_next` and `_seek` does what its algorithm does to the runs, as crates/leapfrog computes it: it leaves the same runs,
// stops at the same place, on the same key or on none, and makes the same number of seeks (crates/leapfrog_search/specs/Leapfrog.antt, `Ran`).
#![tactic(auto)]

ghost use Rattle.std.specs.Prelude.{◌≡◌, ◌<◌, get_or, take};
ghost use Rattle.relation.specs.Lists.{Ascends};
ghost use Rattle.leapfrog.specs.Search.{next_of, seek_to};
ghost use Rattle.ring_sort.specs.Sorted.{key_at};
ghost use Rattle.leapfrog_search.specs.Leapfrog.{runs_in, Ready, Agreed, Ran};
ghost use Rattle.leapfrog_join.specs.Calls.{Begun, hit_on, RanFor};

use leapfrog_search::{Landed, Searched, after, leapfrog_search, seek_run};
use query::MAX_ATOMS;
use ring_sort::sort_ring;
use seek::SeekStrategy;

// What a leapfrog's seek answers: besides, whether it hit: it found a common key, and that key is its target. That could be told from the rest, and stands here
// since document 02 has the leapfrog's own seek say it (`RanFor`). A join seeks by crates/whole_seek, and asks for no hit.
#[derive(Clone, Copy)]
pub struct SearchedFor {
    pub searched: Searched,
    pub hit: bool,
}

// Algorithm 1, on a ring in atom order: sorts it, and searches from its first place.
pub fn leapfrog_init(
    pool: &[u64],
    at: &mut [usize; MAX_ATOMS],
    end: &[usize; MAX_ATOMS],
    ring: &mut [usize; MAX_ATOMS],
    k: usize,
    strategy: SeekStrategy,
) -> Searched
    requires ready { Ready pool.now at.old end.now ring.old k }
    requires ascends { Ascends ◌<◌ (take k ring.old) }
    ensures { Begun pool.now end.now k ring.old ring.new at.old at.new result }
{
    sort_ring(pool, at, &mut ring[..k]);
    leapfrog_search(pool, at, end, ring, k, 0, strategy)
}

// Algorithm 3, where all agree: the atom at p goes past the common key, and the search goes on from the next place.
pub fn leapfrog_next(
    pool: &[u64],
    at: &mut [usize; MAX_ATOMS],
    end: &[usize; MAX_ATOMS],
    ring: &[usize; MAX_ATOMS],
    k: usize,
    p: usize,
    strategy: SeekStrategy,
) -> Searched
    requires { Agreed pool.now at.old end.now ring.now k (key_at pool.now at.old (get_or ring.now p 0)) p }
    ensures { Ran pool.now end.now ring.now k at.old at.new (next_of (runs_in pool.now at.old end.now ring.now k) p) result }
{
    let a = ring[p];
    let q = at[a] + 1;
    at[a] = q;
    if q == end[a] {
        return Searched {
            landed: Landed::Nothing { p },
            seeks: 0,
        };
    }
    leapfrog_search(pool, at, end, ring, k, after(p, k), strategy)
}

// Algorithm 4, where all agree: the atom at p seeks `target`, and the search goes on from the next place.
fn seek_on(
    pool: &[u64],
    at: &mut [usize; MAX_ATOMS],
    end: &[usize; MAX_ATOMS],
    ring: &[usize; MAX_ATOMS],
    k: usize,
    p: usize,
    target: u64,
    strategy: SeekStrategy,
) -> Searched
    requires { Agreed pool.now at.old end.now ring.now k (key_at pool.now at.old (get_or ring.now p 0)) p }
    ensures { Ran pool.now end.now ring.now k at.old at.new (seek_to target (runs_in pool.now at.old end.now ring.now k) p) result }
{
    let a = ring[p];
    let x = at[a];
    let e = end[a];
    let q = x + seek_run(pool, x, e, target, strategy).offset;
    at[a] = q;
    if q == e {
        return Searched {
            landed: Landed::Nothing { p },
            seeks: 1,
        };
    }
    let s = leapfrog_search(pool, at, end, ring, k, after(p, k), strategy);
    Searched {
        seeks: s.seeks + 1,
        ..s
    }
}

// Whether a search that ended so hit the target.
fn hits(landed: Landed, target: u64) -> bool
    ensures { result ≡ hit_on target landed }
{
    let Landed::Key { key, p: _ } = landed else {
        return false;
    };
    key == target
}

// Algorithm 4, with whether it hit. A target not above the common key finds that key.
pub fn leapfrog_seek(
    pool: &[u64],
    at: &mut [usize; MAX_ATOMS],
    end: &[usize; MAX_ATOMS],
    ring: &[usize; MAX_ATOMS],
    k: usize,
    p: usize,
    target: u64,
    strategy: SeekStrategy,
) -> SearchedFor
    requires { Agreed pool.now at.old end.now ring.now k (key_at pool.now at.old (get_or ring.now p 0)) p }
    ensures { RanFor pool.now end.now ring.now k at.old at.new target (seek_to target (runs_in pool.now at.old end.now ring.now k) p) result }
{
    let searched = seek_on(pool, at, end, ring, k, p, target, strategy);
    let hit = hits(searched.landed, target);
    SearchedFor { searched, hit }
}
