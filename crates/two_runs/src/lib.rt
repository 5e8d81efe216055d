// Internal: every function here asks something of its caller by a `requires`. Two ascending runs of the pool as one: at the first column of a laid-over
// table the school's keys and the maker's. They are cut at a target, the one with the least key is put first, and its first stretch is found: the keys
// that lie in one piece of the pool before the other run's next key.
//
// The run from x to e comes first, the other goes from y to f. `own` says whose the first is: 0 the school's, 1 the maker's. It is kept, never read off a
// place: one table may be laid over itself. Where both have a key, the school's is the one that counts.
//
// `own` is a number and no enum since it is counted with: a run ends at ends[2 * a + own] and the other at ends[2 * a + 1 - own] (`take_stretch` and `refill` of
// crates/stretches), and 1 - own is the other's (`turned`). An enum would be turned into this number at each of them.
#![tactic(auto)]

ghost use Rattle.std.specs.Prelude.{◌≡◌, ◌+◌, ◌≤◌, ◌<◌, length, get_or};
ghost use Rattle.relation.specs.Lists.{Ascends};
ghost use Rattle.leapfrog_search.specs.Leapfrog.{part, Reached};
ghost use Rattle.two_runs.specs.Runs.{turned_of, Inside, Led, Turns, InOrder, Stays, Stretched};

use seek::SeekStrategy;

// `Inside` is a clause and no ghost field: it is of the pool too, and with the pool in here each of the six places that build one would prove it, of which four,
// `turned`'s and those behind a seek or a stretch, are asked no such thing.
#[derive(Clone, Copy)]
pub struct Runs {
    pub x: usize,
    pub e: usize,
    pub y: usize,
    pub f: usize,
    pub own: usize,
}

// The place of the first key not below `target` in the run from x to e, or e: where the seek of crates/leapfrog_search ends, said of a run that ascends.
pub fn seek_run(pool: &[u64], x: usize, e: usize, target: u64, strategy: SeekStrategy) -> usize
    requires x_le_e { (x ≤ e) × (e ≤ length pool.now) }
    requires ascends { Ascends ◌<◌ (part pool.now x e) }
    ensures { Reached pool.now x e target result }
{
    x + leapfrog_search::seek_run(pool, x, e, target, strategy).offset
}

// Both runs from their first keys not below `target` on.
pub fn seek_both(pool: &[u64], r: Runs, target: u64, strategy: SeekStrategy) -> Runs
    requires { Inside pool.now r }
    ensures { Stays pool.now target r result }
{
    let x = seek_run(pool, r.x, r.e, target, strategy);
    let y = seek_run(pool, r.y, r.f, target, strategy);
    Runs { x, y, ..r }
}

// The two runs in the other sequence.
fn turned(r: Runs) -> Runs
    requires { r.own ≤ 1 }
    ensures { result ≡ turned_of r }
{
    Runs {
        x: r.y,
        e: r.f,
        y: r.x,
        f: r.e,
        own: 1 - r.own,
    }
}

// Whether the second run comes first: it has the lesser key, or the same and is the school's.
fn turns(pool: &[u64], r: Runs) -> bool
    requires { Inside pool.now r }
    ensures { Turns pool.now r result }
{
    let x = r.x;
    let y = r.y;
    if y == r.f {
        return false;
    }
    if x == r.e {
        return true;
    }
    if pool[x] == pool[y] {
        if r.own == 0 {
            return false;
        }
        return true;
    }
    if pool[x] < pool[y] {
        return false;
    }
    true
}

// The two runs, that with the least key first.
pub fn led(pool: &[u64], r: Runs) -> Runs
    requires { Inside pool.now r }
    ensures { InOrder pool.now r result }
{
    if turns(pool, r) {
        return turned(r);
    }
    r
}

// The place behind the key k, where the run from y to f stands on it.
fn past(pool: &[u64], y: usize, f: usize, k: u64) -> usize
    requires y_le_f { (y ≤ f) × (f ≤ length pool.now) × (y < f → k ≤ get_or pool.now y 0) }
    requires ascends { Ascends ◌<◌ (part pool.now y f) }
    ensures { Reached pool.now y f (k + 1) result }
{
    if y == f {
        return y;
    }
    if pool[y] == k {
        return y + 1;
    }
    y
}

// A stretch of the run that lies in one piece of the pool, from x on. It ends where what the run goes on with, `rest`, begins.
#[derive(Clone, Copy)]
pub struct Stretch {
    pub x: usize,
    pub rest: Runs,
}

// The first stretch: the keys of the first run that are before the second's. A key that both have is passed in the second.
pub fn first_stretch(pool: &[u64], s: Runs, strategy: SeekStrategy) -> Stretch
    requires { Led pool.now s × (s.x < s.e) }
    ensures { Stretched pool.now s result }
{
    let x = s.x;
    let y = past(pool, s.y, s.f, pool[x]);
    if y == s.f {
        let rest = Runs { x: s.e, y, ..s };
        return Stretch { x, rest };
    }
    let m = seek_run(pool, x, s.e, pool[y], strategy);
    let rest = Runs { x: m, y, ..s };
    Stretch { x, rest }
}
