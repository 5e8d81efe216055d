// Where a cursor over a table stands: the place-finding that every call of a cursor begins with, of kermit-ds/src/ds/column_trie/column_trie_iter.rs of
// the Rust.
//
// A cursor is three numbers by value; pool and header are passed along and only read. `place_of` makes the checks 6 and 7 for any pool, header and
// cursor, and finds the present key and its run in the pool. The crate column_trie_iter has the calls.
//
// The Rust's cursor holds the trie and the slice of its run; here the run is found anew, and what would panic there is refused.
#![tactic(auto)]

ghost use Rattle.std.specs.Prelude.{◌≡◌, ◌+◌, ◌<◌, ◌^◌};
ghost use Rattle.column_trie.specs.Limits.{max_capacity};
ghost use Rattle.sound_table.specs.Layers.{seen};
ghost use Rattle.column_trie_place.specs.Checks.{at_root, past};
ghost use Rattle.column_trie_place.specs.Inside.{place_below, Placed, has_children, owner_of};

use column_trie::ColumnTrie;
use refusal::Refusal;
use sound_table::{Layer, Sound};

// depth: 0 at the root, else one more than the number of the layer. interval_i: whose children are looked at. slice_offset: how many of them
// are passed. It is C's struct `ducatbriar_cursor`, so the root is three zeros and no case of its own.
#[repr(C)]
#[derive(Clone, Copy)]
pub struct ColumnTrieIter {
    pub depth: usize,
    pub interval_i: usize,
    pub slice_offset: usize,
}

impl ColumnTrieIter {
    pub fn new() -> Self
        ensures { result ≡ at_root }
    {
        Self {
            depth: 0,
            interval_i: 0,
            slice_offset: 0,
        }
    }

    // n siblings further.
    pub fn past(self, n: usize) -> Self
        requires { self.slice_offset + n < 2 ^ 64 }
        ensures { result ≡ past self n }
    {
        Self {
            slice_offset: self.slice_offset + n,
            ..self
        }
    }
}

// Where a cursor stands: the interval of the children of its key, and the places in the pool of that key and of the end of its run. At the root, and
// where nothing is left of a run, the two places are equal.
#[derive(Clone, Copy)]
pub struct Place {
    pub index: usize,
    pub at: usize,
    pub end: usize,
}

// Whose child the key at a place of a layer's data is: the interval of the group that has it, and its offset there.
#[derive(Clone, Copy)]
pub struct Owner {
    pub interval: usize,
    pub offset: usize,
}

// The checks below the root, under a header that passed: 7, or where the cursor stands.
fn place_below(sound: &Sound, iter: ColumnTrieIter) -> Result<Place, Refusal>
    requires { 0 < iter.depth }
    ensures { result ≡ place_below sound.now.pool.now sound.now.table.now iter }
{
    if sound.table.arity < iter.depth {
        return Err(Refusal::BadCursor);
    }
    let d = iter.depth - 1;
    let Some(g) = sound.layer(d).group_of(iter.interval_i) else {
        return Err(Refusal::BadCursor);
    };
    if g.to - g.from < iter.slice_offset {
        return Err(Refusal::BadCursor);
    }
    let layer = column_trie::layer_at(*sound.table, d);
    let index = g.from + iter.slice_offset;
    Ok(Place {
        index,
        at: layer + index,
        end: layer + g.to,
    })
}

// What every call asks first: 6 for the header, then 7; else where the cursor stands.
pub fn place_of(pool: &[u64], table: ColumnTrie, iter: ColumnTrieIter) -> Result<Place, Refusal>
    ensures { Placed pool.now table iter result }
{
    if !column_trie::header_sound(pool.len(), table) {
        return Err(Refusal::Damaged);
    }
    if 0 < iter.depth {
        return place_below(
            &Sound {
                pool,
                table: &table,
            },
            iter,
        );
    }
    if iter.interval_i != 0 || iter.slice_offset != 0 {
        return Err(Refusal::BadCursor);
    }
    Ok(Place {
        index: 0,
        at: 0,
        end: 0,
    })
}

// Whether there is something to open, for a cursor that is not refused and stands at `at` of a run that ends at `end`.
pub fn has_children(table: ColumnTrie, depth: usize, at: usize, end: usize) -> bool
    ensures { result ≡ has_children table depth at end }
{
    if depth == 0 {
        return 0 < table.data_len[0];
    }
    depth < table.arity && at < end
}

// The owner of place i in a layer, if the words give one: the last interval that the halving rule counts as not above i. What it counts last is not
// above i, on any list, so the offset can't fall below 0.
pub fn owner_of(layer: &Layer, i: usize) -> Option<Owner>
    requires { i < max_capacity }
    ensures { result ≡ owner_of (seen layer.now) i }
{
    let count = layer.intervals.len();
    let counted = seek::halve(layer.intervals, i as u64 + 1, 0, count, 0).offset;
    if counted == 0 {
        return None;
    }
    let owner = counted - 1;
    let g = layer.group_of(owner)?;
    if g.to <= i {
        return None;
    }
    Some(Owner {
        interval: owner,
        offset: i - g.from,
    })
}
