// The calls of a case on its runs, each with its recorded answer.
ghost use Rattle.std.specs.Prelude.{◌≡◌, ◌<◌, slice_index};
ghost use Rattle.ring_sort.specs.Sorted.{key_at};
ghost use Rattle.leapfrog_search.specs.Leapfrog.{Ready, Agreed, Ended};
ghost use Rattle.replay_leapfrogs.specs.Runs.{in_order};

use crate::runs::Runs;
use cases::script::Script;
use leapfrog_join::{SearchedFor, leapfrog_init, leapfrog_next, leapfrog_seek};
use leapfrog_search::{Landed, Searched};
use query::MAX_ATOMS;
use seek::SeekStrategy;

// Which call it is; any but these is no recorded one.
#[derive(Clone, Copy, PartialEq, Eq)]
enum Call {
    Init,
    Next,
    Seek,
    Other,
}

// Of a call: which it is and its target; whether a key was found, the key, the seeks, and how far each run has gone then. The target is not part of `Seek`, nor found and key an
// Option: the text has each for every call, and one that it can't be is lost only once it was asked and each word compared, so that the program prints what it always has.
#[derive(Clone, Copy)]
struct Told {
    call: Call,
    target: u64,
    found: u64,
    key: u64,
    seeks: u64,
    gone: [u64; MAX_ATOMS],
}

// The text's next call, on k runs: 0 init, 1 next, 2 seek.
fn told_at(script: &mut Script, k: usize) -> Told {
    let call = match script.number() {
        0 => Call::Init,
        1 => Call::Next,
        2 => Call::Seek,
        _ => Call::Other,
    };
    let target = script.number();
    let found = script.number();
    let key = script.number();
    let seeks = script.number();
    let mut gone = [0u64; MAX_ATOMS];
    script.numbers(&mut gone, k);
    Told {
        call,
        target,
        found,
        key,
        seeks,
        gone,
    }
}

// Whether a call may be the first, an init.
fn is_first(told: Told) -> bool {
    told.call == Call::Init && told.target == 0
}

// Whether a call may be a later one, a next or a seek.
fn is_later(told: Told) -> bool {
    match told.call {
        Call::Seek => true,
        Call::Next => told.target == 0,
        Call::Init | Call::Other => false,
    }
}

// ---- the comparison

// Whether every atom has gone so far from its start; one that takes no part, nowhere.
fn have_gone(start: &[usize; MAX_ATOMS], at: &[usize; MAX_ATOMS], gone: [u64; MAX_ATOMS]) -> bool {
    for j in 0..MAX_ATOMS {
        if (start[j] as u64).wrapping_add(gone[j]) != at[j] as u64 {
            return false;
        }
    }
    true
}

// Whether the recorded call is a seek that came to its target.
fn is_hit(told: Told) -> bool {
    told.call == Call::Seek && told.found == 1 && told.key == told.target
}

fn compare(
    script: &mut Script,
    told: Told,
    answer: SearchedFor,
    start: &[usize; MAX_ATOMS],
    at: &[usize; MAX_ATOMS],
) {
    let key = match answer.searched.landed {
        Landed::Key { key, p: _ } => Some(key),
        Landed::Nothing { p: _ } => None,
    };
    script.compare(u64::from(key.is_some()) == told.found);
    script.compare(key.unwrap_or(0) == told.key);
    script.compare(answer.searched.seeks == told.seeks);
    script.compare(answer.hit == is_hit(told));
    script.compare(have_gone(start, at, told.gone));
}

// ---- the calls

// Of a call that seeks nothing.
fn unsought(s: Searched) -> SearchedFor
    ensures { result.searched ≡ s }
{
    SearchedFor {
        searched: s,
        hit: false,
    }
}

fn begin(
    runs: &Runs,
    at: &mut [usize; MAX_ATOMS],
    ring: &mut [usize; MAX_ATOMS],
    strategy: SeekStrategy,
) -> SearchedFor
    requires ring_value { ring.old ≡ in_order }
    requires ready { Ready runs.now.pool at.old runs.now.end in_order runs.now.k }
    ensures { Ended runs.now.pool at.new runs.now.end ring.new runs.now.k result.searched.landed }
{
    unsought(leapfrog_init(&runs.pool, at, &runs.end, ring, runs.k, strategy))
}

// A next, or else a seek.
fn step(
    runs: &Runs,
    at: &mut [usize; MAX_ATOMS],
    ring: &[usize; MAX_ATOMS],
    p: usize,
    told: Told,
    strategy: SeekStrategy,
) -> SearchedFor
    requires { let r = runs.now in Agreed r.pool at.old r.end ring.now r.k (key_at r.pool at.old (slice_index ring.now p)) p }
    ensures { let r = runs.now in Ended r.pool at.new r.end ring.now r.k result.searched.landed }
{
    let (pool, end, k) = (&runs.pool, &runs.end, runs.k);
    match told.call {
        Call::Next => unsought(leapfrog_next(pool, at, end, ring, k, p, strategy)),
        Call::Init | Call::Seek | Call::Other => {
            leapfrog_seek(pool, at, end, ring, k, p, told.target, strategy)
        }
    }
}

// So many later calls, as far as the text goes. None is recorded behind one that found no key.
fn later(
    script: &mut Script,
    runs: &Runs,
    from: [usize; MAX_ATOMS],
    ring: &[usize; MAX_ATOMS],
    strategy: SeekStrategy,
    first: Landed,
    count: u64,
)
    requires { Ended runs.now.pool from runs.now.end ring.now runs.now.k first }
{
    let mut at = from;
    let mut landed = first;
    for _ in 0..count {
        if script.is_lost() {
            return;
        }
        let Landed::Key { key: _, p } = landed else {
            script.lose();
            return;
        };
        let told = told_at(script, runs.k);
        if !is_later(told) {
            script.lose();
        }
        let answer = step(runs, &mut at, ring, p, told, strategy);
        compare(script, told, answer, &runs.start, &at);
        landed = answer.searched.landed;
    }
}

// All calls of a case, from where its runs start: their number, and the calls, of which an init is the first.
pub fn walk(script: &mut Script, runs: &Runs, strategy: SeekStrategy)
    requires { Ready runs.now.pool runs.now.start runs.now.end in_order runs.now.k }
{
    let count = script.number();
    if count == 0 {
        script.lose();
        return;
    }
    let told = told_at(script, runs.k);
    if !is_first(told) {
        script.lose();
    }
    let mut at = runs.start;
    let mut ring = [0usize, 1, 2, 3, 4, 5, 6, 7];
    let answer = begin(runs, &mut at, &mut ring, strategy);
    compare(script, told, answer, &runs.start, &at);
    later(
        script,
        runs,
        at,
        &ring,
        strategy,
        answer.searched.landed,
        count - 1,
    );
}
