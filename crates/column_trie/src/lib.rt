// A table's header, and where its layers and their groups lie in the pool: the port of the struct and the layers of
// kermit-ds/src/ds/column_trie/implementation.rs of the Rust.
//
// A header holds any words: `header_sound` says what a cursor asks of one. Nothing is asked of pool or header, and both are only read. When a table is undamaged
// specs/Table.antt says, and the crate sound_table tests it. What layers mean the crate relation says; proofs/Tables.antt ties an undamaged table's words to its
// rows. The Rust's lists grow; here each has room for `capacity` words.
#![tactic(auto)]

ghost use Rattle.std.specs.Prelude.{◌≡◌, true, ◌+◌, ◌*◌, ◌≤◌, ◌<◌, ◌^◌, length, take, drop, get_or};
ghost use Rattle.relation.specs.Tests.{every};
ghost use Rattle.column_trie.specs.Limits.{max_arity, max_capacity};
ghost use Rattle.column_trie.specs.Pool.{spot};
ghost use Rattle.column_trie.specs.Table.{empty_table, arity_ok, capacity_ok, lies_in, within_at, header_sound};

// A table's header. It is C's struct, so what belongs to one depth stands in three arrays side by side, and a column's kind is a yes or no, as document 02 has it:
// yes for a grade.
#[repr(C)]
#[derive(Clone, Copy)]
pub struct ColumnTrie {
    pub start: usize,
    pub arity: usize,
    pub capacity: usize,
    pub data_len: [usize; ColumnTrie::MAX_ARITY],
    pub interval_len: [usize; ColumnTrie::MAX_ARITY],
    pub tuple_count: usize,
    pub grade: [bool; ColumnTrie::MAX_ARITY],
}

impl ColumnTrie {
    pub const MAX_ARITY: usize = 8;

    pub const MAX_CAPACITY: usize = 65536;

    // The header of a table without rows, all columns plain.
    pub fn empty(start: usize, arity: usize, capacity: usize) -> Self
        ensures { result ≡ empty_table start arity capacity }
    {
        Self {
            start,
            arity,
            capacity,
            data_len: [0usize; ColumnTrie::MAX_ARITY],
            interval_len: [0usize; ColumnTrie::MAX_ARITY],
            tuple_count: 0,
            grade: [false; ColumnTrie::MAX_ARITY],
        }
    }
}

pub fn arity_ok(arity: usize) -> bool
    ensures { result ≡ arity_ok arity }
{
    0 < arity && arity <= ColumnTrie::MAX_ARITY
}

pub fn capacity_ok(capacity: usize) -> bool
    ensures { result ≡ capacity_ok capacity }
{
    0 < capacity && capacity <= ColumnTrie::MAX_CAPACITY
}

// Whether the table's words lie in a pool of `len` words. Asked without forming the table's end, which could wrap.
pub fn lies_in(len: usize, start: usize, arity: usize, capacity: usize) -> bool
    requires { (arity_ok arity ≡ true) × (capacity_ok capacity ≡ true) }
    ensures { result ≡ lies_in len start arity capacity }
{
    start <= len && 2 * arity * capacity <= len - start
}

// No length exceeds the capacity.
fn lengths_within(t: ColumnTrie) -> bool
    ensures { result ≡ every max_arity (within_at t) }
{
    for d in 0..ColumnTrie::MAX_ARITY {
        if t.capacity < t.data_len[d] || t.capacity < t.interval_len[d] {
            return false;
        }
    }
    true
}

// What a cursor asks of a header, of a pool of `len` words.
pub fn header_sound(len: usize, t: ColumnTrie) -> bool
    ensures { result ≡ header_sound len t }
{
    arity_ok(t.arity)
        && capacity_ok(t.capacity)
        && lies_in(len, t.start, t.arity, t.capacity)
        && lengths_within(t)
}

// Where the data of layer d starts; its intervals start `capacity` words further.
pub fn layer_at(t: ColumnTrie, d: usize) -> usize
    requires { (t.start < 2 ^ 62) × (t.capacity ≤ max_capacity) × (d < max_arity) }
    ensures { result ≡ spot t.start t.capacity d }
{
    t.start + 2 * t.capacity * d
}

// Interval i of the list of n words at `at`, or what stands for one past its end. A place and a length and no slice: a join has them as numbers of its plan, made once for
// all its openings, and would cut the slice anew for each.
pub fn interval_or(pool: &[u64], at: usize, n: usize, i: usize, past: usize) -> usize
    requires { at + n ≤ length pool.now }
    ensures { result ≡ get_or (take n (drop at pool.now)) i past }
{
    match pool[at..at + n].get(i) {
        Some(&word) => word as usize,
        None => past,
    }
}

// A group of a layer, by places in the layer's data.
#[derive(Clone, Copy)]
pub struct Group {
    pub from: usize,
    pub to: usize,
}
