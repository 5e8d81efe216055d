// The check of one layer's own order, over its two lists: what the damage check of column_trie asks of each layer.
//
// The public call is `layer_sound`. Its answer is relation's test `sound`, for any two lists: nothing is asked of them, and both are only read.
#![tactic(auto)]

ghost use Rattle.std.specs.Prelude.{◌≡◌, ◌-◌, ◌<◌, length};
ghost use Rattle.relation.specs.Undamaged.{sound};
ghost use Rattle.layer_sound.specs.Falls.{falls_in};

// How many keys aren't above the key before them. Two counts, each of every other key: a single one waits for itself at each key, or is compiled to vector code that is slower still.
// No `for` over `(2..keys.len()).step_by(2)`: of 65,529 keys that took 0.80 ns a key where this takes 0.66.
fn falls(keys: &[u64]) -> usize
    requires { 0 < length keys.now }
    ensures { result ≡ falls_in keys.now (length keys.now - 1) }
{
    let mut odd = 0;
    let mut even = 0;
    let mut j = 2;
    while j < keys.len() {
        if keys[j - 1] <= keys[j - 2] {
            odd += 1;
        }
        if keys[j] <= keys[j - 1] {
            even += 1;
        }
        j += 2;
    }
    if keys.len() < j {
        return odd + even;
    }
    // As many keys as j: the last one is left.
    if keys[j - 1] <= keys[j - 2] {
        return odd + even + 1;
    }
    odd + even
}

// Whether the intervals start at 0, ascend and stay inside the data, and no group falls. Where the intervals do, no group falls exactly when the
// keys fall as often in all as at the starts of groups. To count is quicker than to ask at each key whether a group starts there.
pub fn layer_sound(interval: &[u64], data: &[u64]) -> bool
    ensures { result ≡ sound interval.now «data».now }
{
    if data.len() == 0 {
        return interval.len() == 0;
    }
    if interval.len() == 0 {
        return false;
    }
    let last = interval.len() - 1;
    let mut at = interval[last] as usize;
    if data.len() <= at {
        return false;
    }
    let mut starts = 0;
    for i in (0..last).rev() {
        let before = interval[i] as usize;
        if at <= before {
            return false;
        }
        if data[at] <= data[at - 1] {
            starts += 1;
        }
        at = before;
    }
    if at != 0 {
        return false;
    }
    falls(data) == starts
}
