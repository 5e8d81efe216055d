// What an insert and a removal share: their first checks, and where a tuple's keys stand in a table. The search in a group is by halving.
#![tactic(auto)]

ghost use Rattle.std.specs.Prelude.{◌≡◌, ◌<◌, length};
ghost use Rattle.refusal.specs.Number.{given};
ghost use Rattle.column_trie.specs.Table.{rows_in};
ghost use Rattle.sound_table.specs.Layers.{seen};
ghost use Rattle.column_trie_path.specs.Check.{tuple_number};
ghost use Rattle.column_trie_path.specs.Place.{Grouped, KeyPlaceOf, PathOf};

use column_trie::ColumnTrie;
use refusal::Refusal;
use seek::{SeekStrategy, partition_point};
use sound_table::{Intact, Layer, undamaged};

// The first check of an insert or a removal that refuses.
pub fn check(pool: &[u64], t: ColumnTrie, tuple: &[u64]) -> Result<(), Refusal>
    ensures { given result ≡ tuple_number pool.now t tuple.now }
{
    if !undamaged(pool, t) {
        return Err(Refusal::Damaged);
    }
    if tuple.len() != t.arity {
        return Err(Refusal::BadLength);
    }
    Ok(())
}

// Where a key stands in its group, or, as an `Err`, where it goes; whether the group has more than one key; and how many keys the search looked at. Nobody
// asks for that number: it is there so that the contract can bound it.
#[derive(Clone, Copy)]
pub struct KeyPlace {
    pub place: Result<usize, usize>,
    pub several: bool,
    pub probes: usize,
}

// A group with more than one key: its layer, its interval there, and the place of the tuple's own key in it.
#[derive(Clone, Copy)]
pub struct Fork {
    pub depth: usize,
    pub interval: usize,
    pub at: usize,
}

// How many leading keys of a tuple are stored, the place of the last of them in its layer, and the place where the next one goes. The fork is the
// last group on the way that has more than one key, if one has: below it the stored keys lead to one row alone.
#[derive(Clone, Copy)]
pub struct Path {
    pub depth: usize,
    pub interval: usize,
    pub at: usize,
    pub fork: Option<Fork>,
}

// The path of any tuple in a table without rows.
pub fn top() -> Path
    ensures { (result.depth ≡ 0) × (result.interval ≡ 0) }
{
    Path {
        depth: 0,
        interval: 0,
        at: 0,
        fork: None,
    }
}

// Where `key` stands in the group of interval i, or where it goes. A group can be as long as the table, so it is searched by halving: no more keys are
// looked at than the group's length has binary digits.
pub fn find_place(layer: &Layer, i: usize, key: u64) -> KeyPlace
    requires { Grouped (seen layer.now) i }
    ensures { KeyPlaceOf (seen layer.now) i key result }
{
    let from = layer.begins(i);
    let to = layer.begins(i + 1);
    let run = &layer.keys[from..to];
    let sought = partition_point(SeekStrategy::Binary, run, key);
    let at = from + sought.offset;
    let place = if sought.hit { Ok(at) } else { Err(at) };
    KeyPlace {
        place,
        several: from + 1 < to,
        probes: sought.probes,
    }
}

// Down the layers while the tuple's keys are stored, past the forks. The table has rows.
pub fn find_path(rows: &Intact, tuple: &[u64]) -> Path
    requires { (length tuple.now ≡ rows.now.sound.table.now.arity) × (0 < rows.now.sound.table.now.tuple_count) }
    ensures { PathOf rows.now.sound.table.now.arity (rows_in rows.now.sound.pool.now rows.now.sound.table.now) tuple.now result }
{
    let arity = rows.sound.table.arity;
    let mut i = 0;
    let mut fork = None;
    for d in 0..arity {
        let p = find_place(&rows.sound.layer(d), i, tuple[d]);
        let at = match p.place {
            Ok(at) => at,
            Err(at) => {
                return Path {
                    depth: d,
                    interval: i,
                    at,
                    fork,
                };
            }
        };
        if p.several {
            let last = Fork {
                depth: d,
                interval: i,
                at,
            };
            fork = Some(last);
        }
        i = at;
    }
    Path {
        depth: arity,
        interval: i,
        at: i,
        fork,
    }
}
