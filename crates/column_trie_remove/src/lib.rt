// Takes a row out of a table in the pool, the mirror of an insert (crate column_trie_insert): what that wedges in is closed up here.
//
// The public call is `remove`. Its answer, the header and every word of the pool are those that specs/Remove.antt gives, for any pool, header and
// tuple: nothing is asked of them. An accepted tuple leaves the layers that a build over the remaining rows leaves (crate removal_laws), and the words
// past their lengths as they were.
#![tactic(auto)]

ghost use Rattle.std.specs.Prelude.{◌≡◌, false};
ghost use Rattle.column_trie.specs.Table.{layer_in};
ghost use Rattle.layer_by_layer.specs.Relay.{Relaid};
ghost use Rattle.column_trie_remove.specs.Shrink.{shrunk, Shrinkable, ForkedSome, ForkCut};
ghost use Rattle.column_trie_remove.specs.Remove.{Removes};

use column_trie::{ColumnTrie, layer_at};
use column_trie_path::{Fork, check, find_path};
use sound_table::{Intact, Sound};
use wedge::{close, close_lowered, lower};

// Takes the key at place `at` out of layer d. Its parent i loses its interval if that was its only key. The header comes back with the lengths.
fn cut_layer(
    pool: &mut [u64],
    t: ColumnTrie,
    d: usize,
    i: usize,
    at: usize,
    lone: bool,
) -> ColumnTrie
    requires { Shrinkable pool.old t d i at }
    ensures { Relaid pool.old pool.new t d (shrunk lone i at (layer_in pool.old t d)) result }
{
    let data_from = layer_at(t, d);
    let interval_from = data_from + t.capacity;
    let keys = t.data_len[d];
    let intervals = t.interval_len[d];
    let mut out = t;
    out.data_len[d] = keys - 1;
    let data_to = data_from + keys;
    close(&mut pool[data_from..data_to], at);
    let interval_to = interval_from + intervals;
    if lone {
        close_lowered(&mut pool[interval_from..interval_to], i);
        out.interval_len[d] = intervals - 1;
    } else {
        lower(&mut pool[interval_from + i + 1..interval_to]);
    }
    out
}

// Takes out a row's keys from the fork down, layer by layer: in the fork's group others stay, below it each key is its parent's only one. The only row of
// a table has no fork: its keys go from the top.
fn cut_row(pool: &mut [u64], t: ColumnTrie, fork: Option<Fork>) -> ColumnTrie
    requires { ForkedSome pool.old t fork }
    ensures { ForkCut pool.old pool.new t fork result }
{
    let mut out = t;
    let (depth, mut i, mut known) = match fork {
        Some(f) => (f.depth, f.interval, Some(f.at)),
        None => (0, 0, None),
    };
    for d in depth..t.arity {
        let (at, lone) = match known {
            Some(at) => (at, false),
            None => (Sound { pool, table: &out }.layer(d).begins(i), true),
        };
        out = cut_layer(pool, out, d, i, at, lone);
        i = at;
        known = None;
    }
    out.tuple_count = t.tuple_count - 1;
    out
}

// The refusal's number, 0 for none; whether the tuple was there; and the header. C's struct, so a number stands where Rust has a Result.
#[repr(C)]
#[derive(Clone, Copy)]
pub struct Removed {
    pub number: u64,
    pub was_there: bool,
    pub table: ColumnTrie,
}

// Nothing is changed, and nothing was there. An insert has its own, since C knows `Inserted` and `Removed` as two structs.
fn unchanged(number: u64, table: ColumnTrie) -> Removed
    ensures { (result.number ≡ number) × (result.was_there ≡ false) × (result.table ≡ table) }
{
    Removed {
        number,
        was_there: false,
        table,
    }
}

// Removes the tuple. Refused: 6, a damaged table; 4, a tuple whose length isn't the arity.
pub fn remove(pool: &mut [u64], table: ColumnTrie, tuple: &[u64]) -> Removed
    ensures { Removes pool.old pool.new table tuple.now result }
{
    if let Err(refused) = check(pool, table, tuple) {
        return unchanged(refused.number(), table);
    }
    if table.tuple_count == 0 {
        return unchanged(0, table);
    }
    let rows = Intact {
        sound: Sound {
            pool,
            table: &table,
        },
    };
    let path = find_path(&rows, tuple);
    if path.depth != table.arity {
        return unchanged(0, table);
    }
    let shrunk = cut_row(pool, table, path.fork);
    Removed {
        number: 0,
        was_there: true,
        table: shrunk,
    }
}
