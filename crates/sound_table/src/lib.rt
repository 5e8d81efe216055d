// A table whose header is sound for its pool, as one value that reads its layers and their groups; and over it the check for damage, the port of what of
// kermit-ds/src/ds/column_trie/implementation.rs of the Rust reads layers.
//
// The public call is `undamaged`: it says exactly when the words that a header describes are the layers of a set of rows. Nothing is asked of pool or header, and
// both are only read.
#![tactic(auto)]

ghost use Rattle.std.specs.Prelude.{◌≡◌, true, ◌||◌, ◌+◌, ◌≤◌, ◌<◌, length, take, drop, get_or};
ghost use Rattle.relation.specs.Tests.{every};
ghost use Rattle.relation.specs.Undamaged.{chain, linked};
ghost use Rattle.column_trie.specs.Groups.{group_of};
ghost use Rattle.column_trie.specs.Limits.{max_arity};
ghost use Rattle.column_trie.specs.Table.{Whole, header_sound, past_at, layers_in, layer_in, undamaged};
ghost use Rattle.sound_table.specs.Layers.{seen};

use column_trie::{ColumnTrie, Group, header_sound, layer_at};
use layer_sound::layer_sound;

// The n words from `from` on.
fn part<'a>(pool: &'a [u64], from: usize, n: usize) -> &'a [u64]
    requires { from + n ≤ length pool.now }
    ensures { result.now ≡ take n (drop from pool.now) }
{
    &pool[from..from + n]
}

// A layer's two lists, where they lie in the pool.
#[derive(Clone, Copy)]
pub struct Layer<'a> {
    pub keys: &'a [u64],
    pub intervals: &'a [u64],
}

impl<'a> Layer<'a> {
    // Whether it has `above` intervals, one for each key above it, and is sound.
    fn linked(&self, above: usize) -> bool
        ensures { result ≡ linked above (seen self.now) }
    {
        self.intervals.len() == above && layer_sound(self.intervals, self.keys)
    }

    // Where the children of interval i start: past the last interval, behind all keys.
    pub fn begins(&self, i: usize) -> usize
        ensures { result ≡ get_or self.now.intervals.now i (length self.now.keys.now) }
    {
        match self.intervals.get(i) {
            Some(&word) => word as usize,
            None => self.keys.len(),
        }
    }

    // The group of interval i; none where interval or group is outside its list.
    pub fn group_of(&self, i: usize) -> Option<Group>
        ensures { result ≡ group_of (seen self.now) i }
    {
        if self.intervals.len() <= i {
            return None;
        }
        let from = self.begins(i);
        let to = self.begins(i + 1);
        if to < from || self.keys.len() < to {
            return None;
        }
        Some(Group { from, to })
    }
}

// A table whose header is sound for the pool that it lies in: all that it takes to read the table's words, whatever they are. Both are lent, so that no call
// copies the header, and each for a time of its own: what is read of the pool may outlive the header.
#[derive(Clone, Copy)]
pub struct Sound<'a, 't> {
    pub pool: &'a [u64],
    pub table: &'t ColumnTrie,
    ghost sound: { header_sound (length pool.now) table.now ≡ true },

    // How long the table's arrays are: a type says it, but not of a struct that a field refers to.
    ghost whole: { Whole table.now },
}

impl<'a> Sound<'a, '_> {
    // Layer d, its lists as long as the header says.
    pub fn layer(&self, d: usize) -> Layer<'a>
        requires { d < self.now.table.now.arity }
        ensures { seen result ≡ layer_in self.now.pool.now self.now.table.now d }
    {
        let at = layer_at(*self.table, d);
        let intervals_at = at + self.table.capacity;
        Layer {
            keys: part(self.pool, at, self.table.data_len[d]),
            intervals: part(self.pool, intervals_at, self.table.interval_len[d]),
        }
    }

    // Layer 0 has one interval, or none in a table without keys; each lower layer has one for each key above.
    fn layers_linked(&self) -> bool
        ensures { result ≡ (chain 0 (layers_in self.now.pool.now self.now.table.now) || chain 1 (layers_in self.now.pool.now self.now.table.now)) }
    {
        let mut above = if self.table.data_len[0] == 0 { 0 } else { 1 };
        for d in 0..self.table.arity {
            if !self.layer(d).linked(above) {
                return false;
            }
            above = self.table.data_len[d];
        }
        true
    }
}

// Past the arity both lengths are 0, and no column is a grade.
fn past_arity(t: ColumnTrie) -> bool
    ensures { result ≡ every max_arity (past_at t) }
{
    for d in t.arity..ColumnTrie::MAX_ARITY {
        if t.data_len[d] != 0 || t.interval_len[d] != 0 || t.grade[d] {
            return false;
        }
    }
    true
}

// Whether the table is undamaged. It reads the table's used words, and nothing else of the pool.
pub fn undamaged(pool: &[u64], t: ColumnTrie) -> bool
    ensures { result ≡ undamaged pool.now t }
{
    header_sound(pool.len(), t)
        && past_arity(t)
        && t.tuple_count == t.data_len[t.arity - 1]
        && Sound { pool, table: &t }.layers_linked()
}

// An undamaged table, with the pool that it lies in: its layers are those of a set of rows.
#[derive(Clone, Copy)]
pub struct Intact<'a, 't> {
    pub sound: Sound<'a, 't>,
    ghost undamaged: { undamaged sound.pool.now sound.table.now ≡ true },
}
