// The runs of a case, laid in a pool one behind the other, and the test that a leapfrog may be asked of them.
ghost use Rattle.std.specs.Prelude.{◌≡◌, ◌≤◌, true, length};
ghost use Rattle.leapfrog_search.specs.Leapfrog.{Ready};
ghost use Rattle.replay_leapfrogs.specs.Runs.{in_order, Run};

use cases::script::Script;
use query::MAX_ATOMS;

const POOL: usize = 64;

// The pool, where each run starts in it and ends, and how many there are.
#[derive(Drop)]
pub struct Runs {
    pub pool: [u64; POOL],
    pub start: [usize; MAX_ATOMS],
    pub end: [usize; MAX_ATOMS],
    pub k: usize,
}

impl Runs {
    // The text's next runs behind their number, each its length and its keys.
    pub fn new(script: &mut Script) -> Self {
        let k = script.number() as usize;
        let mut runs = Self {
            pool: [0; POOL],
            start: [0; MAX_ATOMS],
            end: [0; MAX_ATOMS],
            k,
        };
        if MAX_ATOMS < k {
            script.lose();
            return runs;
        }
        let mut to = 0;
        for j in 0..k {
            let len = script.number() as usize;
            script.numbers(&mut runs.pool[to..], len);
            runs.start[j] = to;
            to = end_of(&runs.pool, to, len);
            runs.end[j] = to;
        }
        runs
    }

    // Whether there are atoms, not too many, and each stands at the start of a run.
    pub fn stand(&self) -> bool
        ensures { result ≡ true → Ready self.now.pool self.now.start self.now.end in_order self.now.k }
    {
        if self.k == 0 || MAX_ATOMS < self.k {
            return false;
        }
        for j in 0..self.k {
            if !rises(&self.pool, self.start[j], self.end[j]) {
                return false;
            }
        }
        true
    }
}

// The end of a run of so many words from `from` on; of one that the pool has no room for, the pool's.
fn end_of(pool: &[u64], from: usize, len: usize) -> usize
    requires { from ≤ length pool.now }
    ensures { result ≤ length pool.now }
{
    from + len.min(pool.len() - from)
}

// Whether the pool from x to e is a run: not empty, and each key above the one before it.
fn rises(pool: &[u64], x: usize, e: usize) -> bool
    ensures { result ≡ true → Run pool.now x e }
{
    if e <= x {
        return false;
    }
    if pool.len() < e {
        return false;
    }
    for i in x + 1..e {
        if pool[i] <= pool[i - 1] {
            return false;
        }
    }
    true
}
