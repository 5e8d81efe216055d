// Seeks the first key that is not below a target in a run of words: the port of kermit-ds/src/seek.rs of the Rust.
//
// The public call is `partition_point`. For any run and any target its answer is the one that the rules of specs/Seek.antt give: offset,
// probes, and whether the key at the offset is the target. On a run whose keys don't fall the offset is the number of keys below the target,
// and it is a hit exactly when the target is one of the keys, under each of the three strategies. On any run the probes stay within the
// strategy's bound. proofs/Laws.antt has these laws. Nothing is asked of the run, and it is only read.
//
// The Rust's type parameter is an enum here, so that no fourth strategy can be passed. Its test on a key is the comparison with the
// target. Its library search is the halving rule of `halve`, which is ours, and the count of probes and the hit are ours too.
#![tactic(auto)]

ghost use Rattle.std.specs.Prelude.{◌≡◌, ◌≤◌, ◌^◌, length};
ghost use Rattle.seek.specs.Seek.{halving, linear_of, binary_of, galloping_of, probed_by, seek_of};

// How the run is probed: key by key from the front, by halves, or at doubling distances and then by halves.
#[derive(Clone, Copy)]
pub enum SeekStrategy {
    Linear,
    Binary,
    Galloping,
}

// Where the seek ended, how many keys it looked at, and whether it hit: the offset is inside the run and the key there is the target. That
// comparison is no probe. C's struct, and no Option, since the offset is an answer without a hit too.
#[repr(C)]
#[derive(Clone, Copy)]
pub struct Sought {
    pub offset: usize,
    pub probes: usize,
    pub hit: bool,
}

// Where a rule's probes end, and how many they are.
#[derive(Clone, Copy)]
pub struct Probed {
    pub offset: usize,
    pub probes: usize,
}

// The halving rule on from..to, after `spent` probes. It is the rule that crates of this project share and no public call: the caller sees
// to it that from..to lies in the run. With `spent` at most 2^62 the count of probes can't wrap. A `while`, since the part is halved and not walked.
pub fn halve(run: &[u64], target: u64, from: usize, to: usize, spent: usize) -> Probed
    requires { (from ≤ to) × (to ≤ length run.now) × (spent ≤ 2 ^ 62) }
    ensures { result ≡ halving run.now target from to spent }
{
    let mut lo = from;
    let mut hi = to;
    let mut probes = spent;
    while lo < hi {
        let mid = lo + (hi - lo) / 2;
        probes += 1;
        if run[mid] < target {
            lo = mid + 1;
        } else {
            hi = mid;
        }
    }
    Probed { offset: lo, probes }
}

// Probes from the front and stops at the first key that is not below.
fn linear(run: &[u64], target: u64) -> Probed
    ensures { result ≡ linear_of run.now target }
{
    for i in 0..run.len() {
        if target <= run[i] {
            return Probed {
                offset: i,
                probes: i + 1,
            };
        }
    }
    Probed {
        offset: run.len(),
        probes: run.len(),
    }
}

// Halves the whole run.
fn binary(run: &[u64], target: u64) -> Probed
    ensures { result ≡ binary_of run.now target }
{
    halve(run, target, 0, run.len(), 0)
}

// Probes 0, then 1, 2, 4, .., and halves what lies between the last key known below and the bound. A `while`, since the bound doubles.
fn galloping(run: &[u64], target: u64) -> Probed
    ensures { result ≡ galloping_of run.now target }
{
    let len = run.len();
    if len == 0 {
        return Probed {
            offset: 0,
            probes: 0,
        };
    }
    if target <= run[0] {
        return Probed {
            offset: 0,
            probes: 1,
        };
    }
    let mut bound = 1;
    let mut probes = 1;
    while bound < len {
        probes += 1;
        if target <= run[bound] {
            return halve(run, target, bound / 2 + 1, bound, probes);
        }
        bound = bound * 2;
    }
    halve(run, target, bound / 2 + 1, len, probes)
}

// Where the strategy's probes end, which is chosen here, once for a seek. It is the seek without its hit, for crates of this project that have no use for one,
// and no public call.
pub fn probe(strategy: SeekStrategy, run: &[u64], target: u64) -> Probed
    ensures { result ≡ probed_by strategy run.now target }
{
    match strategy {
        SeekStrategy::Linear => linear(run, target),
        SeekStrategy::Binary => binary(run, target),
        SeekStrategy::Galloping => galloping(run, target),
    }
}

// The offset in `remaining` at which `strategy` ends for `target`, its probes, and whether that is a hit.
pub fn partition_point(strategy: SeekStrategy, remaining: &[u64], target: u64) -> Sought
    ensures { result ≡ seek_of strategy remaining.now target }
{
    let p = probe(strategy, remaining, target);
    let offset = p.offset;
    Sought {
        offset,
        probes: p.probes,
        hit: offset < remaining.len() && remaining[offset] == target,
    }
}
