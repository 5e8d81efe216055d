// Internal: every function here asks something of its caller by a `requires`. The leapfrog join of runs that may go on in another table: those of atoms at the
// first column of a table that is laid over another. An atom stands on one piece of the pool at a time, and crates/leapfrog_join leaps over the pieces. Only
// where it has ended for want of a key is the atom's next piece looked for, and the search goes on: a plain join pays one comparison for each search that
// finds no key.
//
// Each of `whole_search`, `whole_init` and `whole_next` does what its algorithm does to the whole runs, as crates/leapfrog computes it. A seek of an atom is
// one seek, however many pieces it looks through. Of a `State`, `own` goes down with `at` from depth to depth, and `left` is 0 at first.
#![tactic(auto)]

ghost use Rattle.std.specs.Prelude.{◌≡◌, true, List, ℕ, ◌≤◌, ◌<◌, length, get_or, replicate, take};
ghost use Rattle.relation.specs.Lists.{Ascends};
ghost use Rattle.relation.specs.Runs.{from};
ghost use Rattle.query.specs.Limits.{max_atoms};
ghost use Rattle.leapfrog.specs.Search.{search_of, next_of};
ghost use Rattle.ring_sort.specs.Sorted.{key_at};
ghost use Rattle.two_runs.specs.Runs.{run_of, Inside};
ghost use Rattle.leapfrog_search.specs.Leapfrog.{runs_in, Ordered};
ghost use Rattle.stretches.specs.Stand.{stand_of, tail_of, wholes_in, Behind, Sized, Laid};
ghost use Rattle.stretches.specs.Whole.{WholeReady, WholeAgreed, WholeRan, WholeBegun};
ghost use Rattle.pieces.specs.Halted.{goal_at, Halted};
ghost use Rattle.stretches.specs.Pause.{runs_from, Began, Takes, Pieces, Paused, resumed_of, Lookable, Settled};

use leapfrog_join::{leapfrog_init, leapfrog_next};
use leapfrog_search::{Landed, Searched, after, before, leapfrog_search};
use query::MAX_ATOMS;
use seek::SeekStrategy;
use two_runs::{Runs, first_stretch, led, seek_both};

// Where the atoms of a join stand, by atom (specs/Stand.antt). Four arrays and none of structs: crates/leapfrog_search writes `at` and only reads `end`, and
// crates/leapfrog_join's theorem `one_search_makes_no_more_seeks_than_keys_not_yet_passed` (docs/CALLS.md) is of them as arrays. `own` and `left` go with them.
#[derive(Drop)]
pub struct State {
    // where the atom stands in its piece of the pool, and the piece's end
    pub at: [usize; MAX_ATOMS],
    pub end: [usize; MAX_ATOMS],
    // whose table the piece lies in: 0 the school's, 1 the maker's
    pub own: [usize; MAX_ATOMS],
    // how many keys of the other table's run are not yet passed
    pub left: [usize; MAX_ATOMS],
}

impl State {
    // What a depth begins with: the places and tables of the depth above, and no piece yet.
    pub fn begin(at: [usize; MAX_ATOMS], own: [usize; MAX_ATOMS]) -> Self
        ensures { (result.at ≡ at) × (result.own ≡ own) × (result.end ≡ replicate max_atoms 0) × (result.left ≡ replicate max_atoms 0) }
    {
        Self {
            at,
            end: [0; MAX_ATOMS],
            own,
            left: [0; MAX_ATOMS],
        }
    }
}

// The length of `ends`: for each atom the end of the school's first keys and that of the maker's. It is flat and has no pairs: a pair that `own` picks from would be an
// array in an array, which the portable C file can't have (rust/portable refuses it).
pub const RUN_ENDS: usize = 2 * MAX_ATOMS;

// What the leapfrogs of a join read: the pool, where each atom's first keys end, and how they seek.
#[derive(Clone, Copy)]
pub struct Leap<'a> {
    pub pool: &'a [u64],
    pub ends: &'a [usize; RUN_ENDS],
    pub strategy: SeekStrategy,
}

// Puts atom a on the first piece of its two runs from x and from y on, the one from x of table o; false where they have no key. So the first column of a
// laid-over table is opened: x where the school's first keys start, y where the maker's do, o 0.
pub fn take_stretch(leap: &Leap, state: &mut State, a: usize, x: usize, y: usize, o: usize) -> bool
    requires a_lt_max_atoms { (a < max_atoms) × Sized state.old leap.now.ends.now }
    requires inside { Inside leap.now.pool.now (runs_from leap.now.ends.now a x y o) }
    ensures { Takes leap.now.pool.now leap.now.ends.now a (run_of leap.now.pool.now (runs_from leap.now.ends.now a x y o)) (λ (lo : ℕ → ℕ) (school : List ℕ). Began leap.now.pool.now lo school (runs_from leap.now.ends.now a x y o)) state.old state.new result }
{
    let r = Runs {
        x,
        e: leap.ends[2 * a + o],
        y,
        f: leap.ends[2 * a + 1 - o],
        own: o,
    };
    let s = led(leap.pool, r);
    if s.x == s.e {
        state.left[a] = 0;
        return false;
    }
    let g = first_stretch(leap.pool, s, leap.strategy);
    state.at[a] = g.x;
    state.end[a] = g.rest.x;
    state.own[a] = g.rest.own;
    state.left[a] = g.rest.f - g.rest.y;
    true
}

// Puts atom a, whose piece has ended, on the piece with its run's first key not below `target`; false where there is none.
pub fn refill(leap: &Leap, state: &mut State, a: usize, target: u64) -> bool
    requires a_lt_max_atoms { (a < max_atoms) × (get_or state.old.at a 0 ≡ get_or state.old.end a 0) × Sized state.old leap.now.ends.now }
    requires fact { (get_or state.old.left a 0 ≡ 0 → ⊥) × Behind leap.now.pool.now (stand_of state.old leap.now.ends.now a) }
    ensures { Takes leap.now.pool.now leap.now.ends.now a (from target (tail_of leap.now.pool.now (stand_of state.old leap.now.ends.now a))) (λ (lo : ℕ → ℕ) (school : List ℕ). Laid leap.now.pool.now lo school (stand_of state.old leap.now.ends.now a)) state.old state.new result }
{
    let o = state.own[a];
    let f = leap.ends[2 * a + 1 - o];
    let r = Runs {
        x: state.end[a],
        e: leap.ends[2 * a + o],
        y: f - state.left[a],
        f,
        own: o,
    };
    let s = seek_both(leap.pool, r, target, leap.strategy);
    take_stretch(leap, state, a, s.x, s.y, o)
}

// What the run at place p is to reach: the key of the place before it, the greatest. Where p is the only place, any key will do; 0 passes none.
fn goal(
    pool: &[u64],
    at: &[usize; MAX_ATOMS],
    end: &[usize; MAX_ATOMS],
    ring: &[usize; MAX_ATOMS],
    k: usize,
    p: usize,
) -> u64
    requires pieces { Pieces pool.now at.now end.now ring.now k }
    requires halted { Halted (runs_in pool.now at.now end.now ring.now k) p }
    ensures { result ≡ goal_at (runs_in pool.now at.now end.now ring.now k) p }
{
    if k == 1 {
        return 0;
    }
    let b = ring[before(p, k)];
    let y = at[b];
    pool[y]
}

// Whether a leapfrog over the pieces that ended so has ended over the whole runs: on a key, or where a run ends with its piece. A plain join always has.
fn settled(left: &[usize; MAX_ATOMS], ring: &[usize; MAX_ATOMS], landed: Landed) -> bool
    requires { Lookable ring.now landed }
    ensures { result ≡ true → Settled left.now ring.now landed }
{
    let Landed::Nothing { p } = landed else {
        return true;
    };
    let a = ring[p];
    left[a] == 0
}

// From a leapfrog over the pieces that ended as s says: while the piece at its place has ended and the run goes on behind it, takes the next piece and searches on. A plain join
// comes here only by `whole_search`, where it goes on after a row: `whole_init` and `whole_next` make its test, `settled`, themselves. As one function of both it was called for each key, and a join that seeks little took up to 2.5 times as long.
fn go_on(
    leap: &Leap,
    state: &mut State,
    ring: &[usize; MAX_ATOMS],
    k: usize,
    s: Searched,
) -> Searched
    requires { Paused leap.now.pool.now state.old leap.now.ends.now ring.now k s }
    ensures { WholeRan leap.now.pool.now leap.now.ends.now ring.now k state.old state.new (resumed_of leap.now.pool.now state.old leap.now.ends.now ring.now k s.landed s.seeks) result }
{
    let mut landed = s.landed;
    let mut seeks = s.seeks;
    loop {
        let Landed::Nothing { p } = landed else {
            return Searched { landed, seeks };
        };
        let a = ring[p];
        if state.left[a] == 0 {
            return Searched { landed, seeks };
        }
        let target = goal(leap.pool, &state.at, &state.end, ring, k, p);
        if !refill(leap, state, a, target) {
            return Searched { landed, seeks };
        }
        let t = leapfrog_search(
            leap.pool,
            &mut state.at,
            &state.end,
            ring,
            k,
            after(p, k),
            leap.strategy,
        );
        landed = t.landed;
        seeks += t.seeks;
    }
}

// Algorithm 2 over whole runs, from place `start` of an ordered ring.
pub fn whole_search(
    leap: &Leap,
    state: &mut State,
    ring: &[usize; MAX_ATOMS],
    k: usize,
    start: usize,
) -> Searched
    requires whole_ready { WholeReady leap.now.pool.now state.old leap.now.ends.now ring.now k }
    requires ordered { Ordered leap.now.pool.now state.old.at ring.now k start × (start < k) }
    ensures { WholeRan leap.now.pool.now leap.now.ends.now ring.now k state.old state.new (search_of (wholes_in leap.now.pool.now state.old leap.now.ends.now ring.now k) start) result }
{
    let s = leapfrog_search(
        leap.pool,
        &mut state.at,
        &state.end,
        ring,
        k,
        start,
        leap.strategy,
    );
    go_on(leap, state, ring, k, s)
}

// Algorithm 1 over whole runs, on a ring in atom order.
pub fn whole_init(
    leap: &Leap,
    state: &mut State,
    ring: &mut [usize; MAX_ATOMS],
    k: usize,
) -> Searched
    requires whole_ready { WholeReady leap.now.pool.now state.old leap.now.ends.now ring.old k }
    requires ascends { Ascends ◌<◌ (take k ring.old) }
    ensures { WholeBegun leap.now.pool.now leap.now.ends.now k ring.old ring.new state.old state.new result }
{
    let s = leapfrog_init(leap.pool, &mut state.at, &state.end, ring, k, leap.strategy);
    let landed = s.landed;
    let seeks = s.seeks;
    if settled(&state.left, ring, landed) {
        return Searched { landed, seeks };
    }
    let paused = Searched { landed, seeks };
    go_on(leap, state, ring, k, paused)
}

// Algorithm 3 over whole runs, where all agree.
pub fn whole_next(
    leap: &Leap,
    state: &mut State,
    ring: &[usize; MAX_ATOMS],
    k: usize,
    p: usize,
) -> Searched
    requires { WholeAgreed leap.now.pool.now state.old leap.now.ends.now ring.now k (key_at leap.now.pool.now state.old.at (get_or ring.now p 0)) p }
    ensures { WholeRan leap.now.pool.now leap.now.ends.now ring.now k state.old state.new (next_of (wholes_in leap.now.pool.now state.old leap.now.ends.now ring.now k) p) result }
{
    let s = leapfrog_next(
        leap.pool,
        &mut state.at,
        &state.end,
        ring,
        k,
        p,
        leap.strategy,
    );
    let landed = s.landed;
    let seeks = s.seeks;
    if settled(&state.left, ring, landed) {
        return Searched { landed, seeks };
    }
    let paused = Searched { landed, seeks };
    go_on(leap, state, ring, k, paused)
}
