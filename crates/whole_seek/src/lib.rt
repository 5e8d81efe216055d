// Internal: every function here asks something of its caller by a `requires`. Algorithm 4 of the leapfrog join over whole runs, those of crates/stretches,
// which may go on in another table. One atom is sought to a target, through its piece and, where that has ended, through what lies behind it; then the search
// goes on from the next place. However many pieces the atom looks through, that is one seek.
#![tactic(auto)]

ghost use Rattle.std.specs.Prelude.{◌<◌, get_or};
ghost use Rattle.leapfrog.specs.Search.{seek_to};
ghost use Rattle.ring_sort.specs.Sorted.{key_at};
ghost use Rattle.leapfrog_search.specs.Leapfrog.{OnKey};
ghost use Rattle.stretches.specs.Stand.{stand_of, wholes_in, Tailed, Sized};
ghost use Rattle.stretches.specs.Whole.{WholeAgreed, WholeRan};
ghost use Rattle.whole_seek.specs.Seek.{SoughtOne};

use leapfrog_search::{Landed, Searched, after};
use query::MAX_ATOMS;
use stretches::{Leap, State, refill, whole_search};
use two_runs::seek_run;

// Puts atom a on its run's first key not below `target`; false where there is none.
fn seek_one(leap: &Leap, state: &mut State, a: usize, target: u64) -> bool
    requires on_key { OnKey leap.now.pool.now state.old.at state.old.end a × Sized state.old leap.now.ends.now }
    requires tailed { Tailed leap.now.pool.now (stand_of state.old leap.now.ends.now a) }
    ensures { SoughtOne leap.now.pool.now leap.now.ends.now a target state.old state.new result }
{
    let x = state.at[a];
    let e = state.end[a];
    let q = seek_run(leap.pool, x, e, target, leap.strategy);
    state.at[a] = q;
    if q < e {
        return true;
    }
    if state.left[a] == 0 {
        return false;
    }
    refill(leap, state, a, target)
}

// Algorithm 4 over whole runs, where all agree: the atom at p seeks `target`, and the search goes on from the next place.
pub fn whole_seek(
    leap: &Leap,
    state: &mut State,
    ring: &[usize; MAX_ATOMS],
    k: usize,
    p: usize,
    target: u64,
) -> Searched
    requires { WholeAgreed leap.now.pool.now state.old leap.now.ends.now ring.now k (key_at leap.now.pool.now state.old.at (get_or ring.now p 0)) p }
    ensures { WholeRan leap.now.pool.now leap.now.ends.now ring.now k state.old state.new (seek_to target (wholes_in leap.now.pool.now state.old leap.now.ends.now ring.now k) p) result }
{
    let a = ring[p];
    if !seek_one(leap, state, a, target) {
        return Searched {
            landed: Landed::Nothing { p },
            seeks: 1,
        };
    }
    let s = whole_search(leap, state, ring, k, after(p, k));
    Searched {
        seeks: s.seeks + 1,
        ..s
    }
}
