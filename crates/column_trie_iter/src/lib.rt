// The calls of a cursor over a table in the pool: the port of kermit-ds/src/ds/column_trie/column_trie_iter.rs of the Rust.
//
// A cursor (`ColumnTrieIter`, of the crate column_trie_place) is three numbers by value; pool and header are passed along and only read. Each call
// begins with that crate's `place_of`, and its answer is the one that specs/Cursor.antt gives, for any pool, header and cursor: nothing is asked of
// them. On an undamaged table a cursor is the paper's trie iterator over the table's rows, which the crate trie_iterator shows.
//
// The calls are functions and not methods as in the Rust: a method has to stand in the crate of its struct, and places are found without the calls.
#![tactic(auto)]

ghost use Rattle.std.specs.Prelude.{◌≡◌};
ghost use Rattle.column_trie_iter.specs.Cursor.{no_key, key_of, unmoved, next_of, unsought, sought_of, end_of, unopened, open_of, unrisen, up_of};

use column_trie::ColumnTrie;
use column_trie_place::ColumnTrieIter;
use refusal::Refusal;
use seek::SeekStrategy;
use sound_table::Sound;

// The answers are C's structs, so they have a number and a flag where Rust has Result and Option. Of each `number` is the refusal's, 0 for none.
// Where `found` is false the key is 0.
#[repr(C)]
#[derive(Clone, Copy)]
pub struct KeyAnswer {
    pub number: u64,
    pub found: bool,
    pub key: u64,
}

#[repr(C)]
#[derive(Clone, Copy)]
pub struct NextAnswer {
    pub number: u64,
    pub found: bool,
    pub key: u64,
    pub iter: ColumnTrieIter,
}

#[repr(C)]
#[derive(Clone, Copy)]
pub struct SeekAnswer {
    pub number: u64,
    pub found: bool,
    pub hit: bool,
    pub probes: usize,
    pub iter: ColumnTrieIter,
}

#[repr(C)]
#[derive(Clone, Copy)]
pub struct EndAnswer {
    pub number: u64,
    pub at_end: bool,
}

#[repr(C)]
#[derive(Clone, Copy)]
pub struct OpenAnswer {
    pub number: u64,
    pub opened: bool,
    pub iter: ColumnTrieIter,
}

#[repr(C)]
#[derive(Clone, Copy)]
pub struct UpAnswer {
    pub number: u64,
    pub risen: bool,
    pub iter: ColumnTrieIter,
}

// The key at the cursor, if it stands on one.
pub fn key(pool: &[u64], table: ColumnTrie, iter: ColumnTrieIter) -> KeyAnswer
    ensures { result ≡ key_of pool.now table iter }
{
    match column_trie_place::place_of(pool, table, iter) {
        Err(refused) => no_key(refused.number()),
        Ok(p) if p.end <= p.at => no_key(0),
        Ok(p) => KeyAnswer {
            number: 0,
            found: true,
            key: pool[p.at],
        },
    }
}

// To the key behind, which it gives; from the last key to the end, where it stays.
pub fn next(pool: &[u64], table: ColumnTrie, iter: ColumnTrieIter) -> NextAnswer
    ensures { result ≡ next_of pool.now table iter }
{
    let p = match column_trie_place::place_of(pool, table, iter) {
        Err(refused) => return unmoved(iter, refused.number()),
        Ok(p) if p.end <= p.at => return unmoved(iter, 0),
        Ok(p) => p,
    };
    let after = iter.past(1);
    let at = p.at + 1;
    if p.end <= at {
        return unmoved(after, 0);
    }
    NextAnswer {
        number: 0,
        found: true,
        key: pool[at],
        iter: after,
    }
}

// To the first sibling not yet passed that is not below the target, if there is one, else to the end; whether that sibling is the target. The
// strategy is handed the words from the present key to the group's end.
pub fn seek(
    pool: &[u64],
    table: ColumnTrie,
    iter: ColumnTrieIter,
    strategy: SeekStrategy,
    target: u64,
) -> SeekAnswer
    ensures { result ≡ sought_of pool.now table iter strategy target }
{
    let p = match column_trie_place::place_of(pool, table, iter) {
        Err(refused) => return unsought(iter, refused.number()),
        Ok(p) if p.end <= p.at => return unsought(iter, 0),
        Ok(p) => p,
    };
    let left = &pool[p.at..p.end];
    let s = seek::partition_point(strategy, left, target);
    SeekAnswer {
        number: 0,
        found: s.offset < left.len(),
        hit: s.hit,
        probes: s.probes,
        iter: iter.past(s.offset),
    }
}

// Whether no sibling is left; yes at the root.
pub fn at_end(pool: &[u64], table: ColumnTrie, iter: ColumnTrieIter) -> EndAnswer
    ensures { result ≡ end_of pool.now table iter }
{
    match column_trie_place::place_of(pool, table, iter) {
        Err(refused) => EndAnswer {
            number: refused.number(),
            at_end: false,
        },
        Ok(p) => EndAnswer {
            number: 0,
            at_end: p.end <= p.at,
        },
    }
}

// To the first of the present key's children, or of the root's.
pub fn open(pool: &[u64], table: ColumnTrie, iter: ColumnTrieIter) -> OpenAnswer
    ensures { result ≡ open_of pool.now table iter }
{
    let p = match column_trie_place::place_of(pool, table, iter) {
        Err(refused) => return unopened(iter, refused.number()),
        Ok(p) => p,
    };
    if !column_trie_place::has_children(table, iter.depth, p.at, p.end) {
        return unopened(iter, 0);
    }
    let index = p.index;
    let sound = Sound {
        pool,
        table: &table,
    };
    if sound.layer(iter.depth).group_of(index).is_none() {
        return unopened(iter, Refusal::Damaged.number());
    }
    OpenAnswer {
        number: 0,
        opened: true,
        iter: ColumnTrieIter {
            depth: iter.depth + 1,
            interval_i: index,
            slice_offset: 0,
        },
    }
}

// Back to the key that was opened.
pub fn up(pool: &[u64], table: ColumnTrie, iter: ColumnTrieIter) -> UpAnswer
    ensures { result ≡ up_of pool.now table iter }
{
    if let Err(refused) = column_trie_place::place_of(pool, table, iter) {
        return unrisen(iter, refused.number());
    }
    if iter.depth == 0 {
        return unrisen(iter, 0);
    }
    if iter.depth == 1 {
        return UpAnswer {
            number: 0,
            risen: true,
            iter: ColumnTrieIter::new(),
        };
    }
    let sound = Sound {
        pool,
        table: &table,
    };
    match column_trie_place::owner_of(&sound.layer(iter.depth - 2), iter.interval_i) {
        None => unrisen(iter, Refusal::Damaged.number()),
        Some(o) => UpAnswer {
            number: 0,
            risen: true,
            iter: ColumnTrieIter {
                depth: iter.depth - 1,
                interval_i: o.interval,
                slice_offset: o.offset,
            },
        },
    }
}

// What the calls answer where they find or move nothing. Each is a struct of its own, with fields of its own, so no generic function makes them.
fn no_key(number: u64) -> KeyAnswer
    ensures { result ≡ no_key number }
{
    KeyAnswer {
        number,
        found: false,
        key: 0,
    }
}

fn unmoved(iter: ColumnTrieIter, number: u64) -> NextAnswer
    ensures { result ≡ unmoved iter number }
{
    NextAnswer {
        number,
        found: false,
        key: 0,
        iter,
    }
}

fn unsought(iter: ColumnTrieIter, number: u64) -> SeekAnswer
    ensures { result ≡ unsought iter number }
{
    SeekAnswer {
        number,
        found: false,
        hit: false,
        probes: 0,
        iter,
    }
}

fn unopened(iter: ColumnTrieIter, number: u64) -> OpenAnswer
    ensures { result ≡ unopened iter number }
{
    OpenAnswer {
        number,
        opened: false,
        iter,
    }
}

fn unrisen(iter: ColumnTrieIter, number: u64) -> UpAnswer
    ensures { result ≡ unrisen iter number }
{
    UpAnswer {
        number,
        risen: false,
        iter,
    }
}
