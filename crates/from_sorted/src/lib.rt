// Appends rows in their order to a table in the pool, for build, which fills an empty one with sorted rows, and for the reader of files: the bulk build of kermit-ds/src/ds/column_trie/implementation.rs of the Rust.
#![tactic(auto)]

ghost use Rattle.std.specs.Prelude.{◌≡◌, ◌+◌, ◌-◌, ◌≤◌, ◌<◌, length, take, get_or};
ghost use Rattle.relation.proofs.Order.{shared};
ghost use Rattle.refusal.specs.Number.{number_of};
ghost use Rattle.column_trie.specs.Limits.{max_arity};
ghost use Rattle.column_trie.specs.Table.{empty_table, relengthed};
ghost use Rattle.from_sorted.specs.Given.{rows_given};
ghost use Rattle.from_sorted.specs.Push.{Appends, CanPush, Pushed, CanFollow, Followed, Filling, Fills};

use column_trie::{ColumnTrie, layer_at};
use refusal::Refusal;

// What a call that fills a table answers: a number, and the table's header. C's struct, so a number stands where Rust has a Result.
#[repr(C)]
#[derive(Clone, Copy)]
pub struct Built {
    pub number: u64,
    pub table: ColumnTrie,
}

impl Built {
    // What a refused call answers: the header is all zeros.
    pub fn refused(by: Refusal) -> Built
        ensures { (result.number ≡ number_of by) × (result.table ≡ empty_table 0 0 0) }
    {
        Built {
            number: by.number(),
            table: ColumnTrie::empty(0, 0, 0),
        }
    }
}

// How many leading keys two rows share, each the first `arity` words of what is lent. By an iterator over both (`zip` and `position`) a build of 50,000 sorted
// rows of two words went from 0.32 to 0.37 ms.
pub fn common_prefix_len(x: &[u64], y: &[u64], arity: usize) -> usize
    requires { (arity ≤ length x.now) × (arity ≤ length y.now) }
    ensures { result ≡ shared (take arity x.now) (take arity y.now) }
{
    for k in 0..arity {
        if x[k] != y[k] {
            return k;
        }
    }
    arity
}

// Appends the word to the list that lies at `at` of the pool and whose length is len[d].
fn append(
    pool: &mut [u64],
    at: usize,
    len: &mut [usize; ColumnTrie::MAX_ARITY],
    d: usize,
    word: u64,
)
    requires { (d < max_arity) × (at + get_or len.old d 0 < length pool.old) }
    ensures { Appends pool.old at len.old d word pool.new len.new }
{
    let n = len[d];
    pool[at + n] = word;
    len[d] = n + 1;
}

// How long the lists of a table's layers are while it is filled. They are kept beside the header until the end: a header by value would be copied for
// each key.
#[derive(Clone, Copy)]
pub struct Lengths {
    pub data: [usize; ColumnTrie::MAX_ARITY],
    pub intervals: [usize; ColumnTrie::MAX_ARITY],
}

impl Lengths {
    // Those that a header has.
    pub fn of(t: ColumnTrie) -> Lengths
        ensures { (result.data ≡ t.data_len) × (result.intervals ≡ t.interval_len) }
    {
        let data = t.data_len;
        let intervals = t.interval_len;
        Lengths { data, intervals }
    }

    // Appends the row, the first words of `row`, to a table that holds rows before it: its keys from column `from` on, those from column `opens` on under
    // a new interval, which begins at the end of its layer's keys. The table lies where t says, and its lengths are these.
    pub fn append_row(
        &mut self,
        pool: &mut [u64],
        t: ColumnTrie,
        row: &[u64],
        from: usize,
        opens: usize,
    )
        requires { CanPush (length pool.old) t self.old.data self.old.intervals (take t.arity row.now) from opens }
        ensures { Pushed pool.old t self.old.data self.old.intervals (take t.arity row.now) from opens pool.new self.new.data self.new.intervals }
    {
        for d in from..t.arity {
            let at = layer_at(t, d);
            if opens <= d {
                let begin = self.data[d] as u64;
                append(pool, at + t.capacity, &mut self.intervals, d, begin);
            }
            append(pool, at, &mut self.data, d, row[d]);
        }
    }

    // Appends the row, the first words of `row`, to a table whose last one is that of `last`: its keys from the first column on in which the two differ, each
    // but the first under a new interval; one that is equal to it appends nothing. The loops that fill a table share no more than this: their rows lie in a
    // slice, in bytes, or in the very pool that is written, so that no closure could hand them over.
    pub fn append_next(&mut self, pool: &mut [u64], t: ColumnTrie, last: &[u64], row: &[u64])
        requires { CanFollow pool.old t self.old.data self.old.intervals (take t.arity last.now) (take t.arity row.now) }
        ensures { Followed pool.old t self.old.data self.old.intervals (take t.arity last.now) (take t.arity row.now) pool.new self.new.data self.new.intervals }
    {
        let d = common_prefix_len(last, row, t.arity);
        if d < t.arity {
            self.append_row(pool, t, row, d, d + 1);
        }
    }

    // The header of the table whose lengths these are: a stored row has a key of its own in the last layer.
    pub fn filled(self, t: ColumnTrie) -> ColumnTrie
        requires { (0 < t.arity) × (t.arity ≤ max_arity) }
        ensures { result ≡ relengthed t self.data self.intervals (get_or self.data (t.arity - 1) 0) }
    {
        ColumnTrie {
            data_len: self.data,
            interval_len: self.intervals,
            tuple_count: self.data[t.arity - 1],
            ..t
        }
    }
}

// Fills the empty table t with the rows, which are sorted, in one pass.
pub fn from_sorted(pool: &mut [u64], t: ColumnTrie, rows: &[u64]) -> ColumnTrie
    requires { Filling (length pool.old) t (rows_given t.arity rows.now) }
    ensures { Fills pool.old t (rows_given t.arity rows.now) pool.new result }
{
    let arity = t.arity;
    let n = rows.len() / arity;
    if n == 0 {
        return t;
    }
    let mut lengths = Lengths::of(t);
    lengths.append_row(pool, t, rows, 0, 0);
    for i in 1..n {
        let y = i * arity;
        let x = y - arity;
        lengths.append_next(pool, t, &rows[x..], &rows[y..]);
    }
    lengths.filled(t)
}
