// Inserts a row into a table in the pool: the port of `insert` of kermit-ds/src/ds/column_trie/implementation.rs of the Rust.
//
// The public call is `insert`. Its answer, the header and every word of the pool are those that specs/Insert.antt gives, for any pool, header and
// tuple: nothing is asked of them. An accepted tuple leaves the layers that a build over the old rows and the new one leaves (crate insert_laws). The
// Rust's `Vec::insert` is a shift inside the layer's room (crate wedge).
#![tactic(auto)]

ghost use Rattle.std.specs.Prelude.{◌≡◌, true, false, ◌<◌, length};
ghost use Rattle.column_trie.specs.Table.{layer_in, undamaged};
ghost use Rattle.layer_by_layer.specs.Grow.{grown};
ghost use Rattle.layer_by_layer.specs.Relay.{Relaid};
ghost use Rattle.column_trie_insert.specs.Grow.{Roomy, Addable, RowAdded};
ghost use Rattle.column_trie_insert.specs.Insert.{Inserts};

use column_trie::{ColumnTrie, layer_at};
use column_trie_path::{Path, check, find_path, top};
use refusal::Refusal;
use sound_table::{Intact, Sound};
use wedge::{raise, wedge, wedge_raised};

// Puts `key` at place `at` of layer d, under parent i, which has its interval already unless it is `fresh`. The header comes back with the lengths. It is no
// one function with a removal's `cut_layer`: the two share only the reading of the header, and ask for opposite things, room and a key that is there.
fn add_layer(
    pool: &mut [u64],
    t: ColumnTrie,
    d: usize,
    i: usize,
    at: usize,
    key: u64,
    fresh: bool,
) -> ColumnTrie
    requires { Roomy pool.old t d i at fresh }
    ensures { Relaid pool.old pool.new t d (grown fresh i at key (layer_in pool.old t d)) result }
{
    let data_from = layer_at(t, d);
    let interval_from = data_from + t.capacity;
    let keys = t.data_len[d];
    let intervals = t.interval_len[d];
    let mut out = t;
    out.data_len[d] = keys + 1;
    let data_to = data_from + keys;
    wedge(&mut pool[data_from..data_to + 1], at, key);
    let interval_to = interval_from + intervals;
    if fresh {
        wedge_raised(&mut pool[interval_from..interval_to + 1], i, at as u64);
        out.interval_len[d] = intervals + 1;
    } else {
        raise(&mut pool[interval_from + i + 1..interval_to]);
    }
    out
}

// Adds the tuple's keys, layer by layer from the first that isn't stored, whose place the path has; below it each has a new parent, and so its own interval.
// It shares the walk alone with a removal's `cut_row`: one function for both would take the step on a layer as a closure, with the closure's pre and post in
// the place of what either promises.
fn add_row(pool: &mut [u64], t: ColumnTrie, tuple: &[u64], path: Path) -> ColumnTrie
    requires { Addable pool.old t tuple.now path }
    ensures { RowAdded pool.old pool.new t tuple.now result }
{
    let mut out = t;
    let mut i = path.interval;
    let mut known = if t.tuple_count == 0 {
        None
    } else {
        Some(path.at)
    };
    for d in path.depth..t.arity {
        let (at, fresh) = match known {
            Some(at) => (at, false),
            None => (Sound { pool, table: &out }.layer(d).begins(i), true),
        };
        out = add_layer(pool, out, d, i, at, tuple[d], fresh);
        i = at;
        known = None;
    }
    out.tuple_count = t.tuple_count + 1;
    out
}

// The refusal's number, 0 for none; whether the tuple was not there; and the header. C's struct, so a number stands where Rust has a Result.
#[repr(C)]
#[derive(Clone, Copy)]
pub struct Inserted {
    pub number: u64,
    pub is_new: bool,
    pub table: ColumnTrie,
}

// Nothing is changed, and nothing was new. A removal has its own, since C knows `Inserted` and `Removed` as two structs.
fn unchanged(number: u64, table: ColumnTrie) -> Inserted
    ensures { (result.number ≡ number) × (result.is_new ≡ false) × (result.table ≡ table) }
{
    Inserted {
        number,
        is_new: false,
        table,
    }
}

// Inserts the tuple. Refused: 6, a damaged table; 4, a tuple whose length isn't the arity; 5, a new tuple in a table at capacity.
pub fn insert(pool: &mut [u64], table: ColumnTrie, tuple: &[u64]) -> Inserted
    ensures { Inserts pool.old pool.new table tuple.now result }
{
    if let Err(refused) = check(pool, table, tuple) {
        return unchanged(refused.number(), table);
    }
    let path = if table.tuple_count == 0 {
        top()
    } else {
        let rows = Intact {
            sound: Sound {
                pool,
                table: &table,
            },
        };
        find_path(&rows, tuple)
    };
    if path.depth == table.arity {
        return unchanged(0, table);
    }
    if table.tuple_count == table.capacity {
        return unchanged(Refusal::NoRoom.number(), table);
    }
    let grown = add_row(pool, table, tuple, path);
    Inserted {
        number: 0,
        is_new: true,
        table: grown,
    }
}
