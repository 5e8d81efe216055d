// The calls of a cursor over a table laid over another: a pair of cursors by value, one on each table.
//
// Pools and headers are passed along and only read; both tables may lie in one pool. Each call begins with overlay_place's `check`, and its answer
// is the one that specs/Calls.antt gives, for any pools, headers and pair: nothing is asked of them. Below depth 1 a call is the plain cursor's, on the table
// of the key's owner (`LaidIter::walker`); among the first keys it is made of both.
//
// C and Rust link the calls with pools and headers as arguments of their own, so each call makes one struct first, which lends them on.
#![tactic(auto)]

ghost use Rattle.std.specs.Prelude.{◌≡◌};
ghost use Rattle.overlay_checks.specs.Tables.{of_side};
ghost use Rattle.column_trie_iter.specs.Cursor.{key_of, sought_of, open_of};
ghost use Rattle.overlay_place.specs.Pairs.{least};
ghost use Rattle.overlay_iter.specs.Calls.{laid_key_of, laid_end_of, pass_if, both_next, laid_next_of, both_sought, laid_sought_of, one_opened, first_opened, laid_open_of, laid_up_of};

use column_trie::ColumnTrie;
use column_trie_iter::{EndAnswer, KeyAnswer};
use column_trie_place::ColumnTrieIter;
use laid_iter::LaidIter;
use overlay_checks::{Laid, Side};
use seek::SeekStrategy;

// Of each answer `number` is the refusal's, 0 for none. Where `found` is false the key is 0. C is handed these structs by value (include/ducatbriar.h), so a
// number and a flag stand there for a Result and an Option.
#[repr(C)]
#[derive(Clone, Copy)]
pub struct LaidNextAnswer {
    pub number: u64,
    pub found: bool,
    pub key: u64,
    pub iter: LaidIter,
}

#[repr(C)]
#[derive(Clone, Copy)]
pub struct LaidSeekAnswer {
    pub number: u64,
    pub found: bool,
    pub hit: bool,
    pub probes: usize,
    pub iter: LaidIter,
}

#[repr(C)]
#[derive(Clone, Copy)]
pub struct LaidOpenAnswer {
    pub number: u64,
    pub opened: bool,
    pub iter: LaidIter,
}

#[repr(C)]
#[derive(Clone, Copy)]
pub struct LaidUpAnswer {
    pub number: u64,
    pub risen: bool,
    pub iter: LaidIter,
}

// The key at the cursor, if it stands on one: among the first keys the least of both.
#[tactic(auto, unfolding(crate::specs::Calls::laid_key_of))]
pub fn key(
    school_pool: &[u64],
    school: ColumnTrie,
    maker_pool: &[u64],
    maker: ColumnTrie,
    iter: LaidIter,
) -> KeyAnswer
    ensures { result ≡ laid_key_of school_pool.now school maker_pool.now maker iter }
{
    let laid = Laid {
        school_pool,
        school: &school,
        maker_pool,
        maker: &maker,
    };
    if let Err(refused) = overlay_place::check(&laid, iter) {
        return KeyAnswer {
            number: refused.number(),
            found: false,
            key: 0,
        };
    }
    let Some(side) = iter.walker() else {
        return least_key(&laid, iter);
    };
    let (pool, table) = laid.of(side);
    let cursor = iter.of(side);
    column_trie_iter::key(pool, *table, cursor)
}

// Of two cursors among the first keys.
fn least_key(laid: &Laid, iter: LaidIter) -> KeyAnswer
    ensures { result ≡ least (key_of laid.now.school_pool.now laid.now.school.now iter.school) (key_of laid.now.maker_pool.now laid.now.maker.now iter.maker) }
{
    overlay_place::least(
        column_trie_iter::key(laid.school_pool, *laid.school, iter.school),
        column_trie_iter::key(laid.maker_pool, *laid.maker, iter.maker),
    )
}

// Whether no sibling is left; yes at the root.
#[tactic(auto, unfolding(crate::specs::Calls::laid_end_of))]
pub fn at_end(
    school_pool: &[u64],
    school: ColumnTrie,
    maker_pool: &[u64],
    maker: ColumnTrie,
    iter: LaidIter,
) -> EndAnswer
    ensures { result ≡ laid_end_of school_pool.now school maker_pool.now maker iter }
{
    let k = key(school_pool, school, maker_pool, maker, iter);
    EndAnswer {
        number: k.number,
        at_end: k.number == 0 && !k.found,
    }
}

// To the key behind, which it gives; from the last key to the end, where it stays.
#[tactic(auto, unfolding(crate::specs::Calls::laid_next_of))]
pub fn next(
    school_pool: &[u64],
    school: ColumnTrie,
    maker_pool: &[u64],
    maker: ColumnTrie,
    iter: LaidIter,
) -> LaidNextAnswer
    ensures { result ≡ laid_next_of school_pool.now school maker_pool.now maker iter }
{
    let laid = Laid {
        school_pool,
        school: &school,
        maker_pool,
        maker: &maker,
    };
    if let Err(refused) = overlay_place::check(&laid, iter) {
        return LaidNextAnswer {
            number: refused.number(),
            found: false,
            key: 0,
            iter,
        };
    }
    let Some(side) = iter.walker() else {
        return next_first(&laid, iter);
    };
    let (pool, table) = laid.of(side);
    let cursor = iter.of(side);
    let r = column_trie_iter::next(pool, *table, cursor);
    LaidNextAnswer {
        number: r.number,
        found: r.found,
        key: r.key,
        iter: iter.moved(side, r.iter),
    }
}

// Among the first keys: each of the two that stands on the present key passes it.
#[tactic(auto, unfolding(crate::specs::Calls::both_next))]
fn next_first(laid: &Laid, iter: LaidIter) -> LaidNextAnswer
    ensures { result ≡ both_next laid.now.school_pool.now laid.now.school.now laid.now.maker_pool.now laid.now.maker.now iter }
{
    let s = column_trie_iter::key(laid.school_pool, *laid.school, iter.school);
    let m = column_trie_iter::key(laid.maker_pool, *laid.maker, iter.maker);
    let leads = overlay_place::leads(s, m);
    let follows = overlay_place::leads(m, s);
    let next = LaidIter {
        school: pass_if(leads, laid.school_pool, *laid.school, iter.school),
        maker: pass_if(follows, laid.maker_pool, *laid.maker, iter.maker),
    };
    let k = least_key(laid, next);
    LaidNextAnswer {
        number: k.number,
        found: k.found,
        key: k.key,
        iter: next,
    }
}

// Past the present key, where it is this cursor's.
fn pass_if(present: bool, pool: &[u64], table: ColumnTrie, iter: ColumnTrieIter) -> ColumnTrieIter
    ensures { result ≡ pass_if present pool.now table iter }
{
    if present {
        return column_trie_iter::next(pool, table, iter).iter;
    }
    iter
}

// To the first sibling not yet passed that is not below the target, if there is one, else to the end; whether that sibling is the target. Among the first keys
// each of the two seeks, and their probes are added up.
#[tactic(auto, unfolding(crate::specs::Calls::laid_sought_of))]
pub fn seek(
    school_pool: &[u64],
    school: ColumnTrie,
    maker_pool: &[u64],
    maker: ColumnTrie,
    iter: LaidIter,
    strategy: SeekStrategy,
    target: u64,
) -> LaidSeekAnswer
    ensures { result ≡ laid_sought_of school_pool.now school maker_pool.now maker iter strategy target }
{
    let laid = Laid {
        school_pool,
        school: &school,
        maker_pool,
        maker: &maker,
    };
    if let Err(refused) = overlay_place::check(&laid, iter) {
        return LaidSeekAnswer {
            number: refused.number(),
            found: false,
            hit: false,
            probes: 0,
            iter,
        };
    }
    let Some(side) = iter.walker() else {
        return seek_first(&laid, iter, strategy, target);
    };
    let (pool, table) = laid.of(side);
    let cursor = iter.of(side);
    let r = column_trie_iter::seek(pool, *table, cursor, strategy, target);
    LaidSeekAnswer {
        number: r.number,
        found: r.found,
        hit: r.hit,
        probes: r.probes,
        iter: iter.moved(side, r.iter),
    }
}

// Both seek.
fn seek_first(laid: &Laid, iter: LaidIter, strategy: SeekStrategy, target: u64) -> LaidSeekAnswer
    ensures { result ≡ both_sought (sought_of laid.now.school_pool.now laid.now.school.now iter.school strategy target) (sought_of laid.now.maker_pool.now laid.now.maker.now iter.maker strategy target) }
{
    let s = column_trie_iter::seek(
        laid.school_pool,
        *laid.school,
        iter.school,
        strategy,
        target,
    );
    let m = column_trie_iter::seek(laid.maker_pool, *laid.maker, iter.maker, strategy, target);
    LaidSeekAnswer {
        number: 0,
        found: s.found || m.found,
        hit: s.hit || m.hit,
        probes: s.probes + m.probes,
        iter: LaidIter {
            school: s.iter,
            maker: m.iter,
        },
    }
}

// To the first of the present key's children, in the table of its owner; from the root to the first keys of both.
#[tactic(auto, unfolding(crate::specs::Calls::laid_open_of))]
pub fn open(
    school_pool: &[u64],
    school: ColumnTrie,
    maker_pool: &[u64],
    maker: ColumnTrie,
    iter: LaidIter,
) -> LaidOpenAnswer
    ensures { result ≡ laid_open_of school_pool.now school maker_pool.now maker iter }
{
    let laid = Laid {
        school_pool,
        school: &school,
        maker_pool,
        maker: &maker,
    };
    if let Err(refused) = overlay_place::check(&laid, iter) {
        return LaidOpenAnswer {
            number: refused.number(),
            opened: false,
            iter,
        };
    }
    match iter.walker() {
        Some(side) => open_one(&laid, iter, side),
        None => open_first(&laid, iter),
    }
}

// One opens, and the other stays.
fn open_one(laid: &Laid, iter: LaidIter, side: Side) -> LaidOpenAnswer
    ensures { result ≡ one_opened side iter (of_side side (open_of laid.now.school_pool.now laid.now.school.now iter.school) (open_of laid.now.maker_pool.now laid.now.maker.now iter.maker)) }
{
    let (pool, table) = laid.of(side);
    let cursor = iter.of(side);
    let r = column_trie_iter::open(pool, *table, cursor);
    LaidOpenAnswer {
        number: r.number,
        opened: r.opened,
        iter: iter.moved(side, r.iter),
    }
}

// From the root both, and from a first key its owner.
#[tactic(auto, unfolding(crate::specs::Calls::first_opened))]
fn open_first(laid: &Laid, iter: LaidIter) -> LaidOpenAnswer
    ensures { result ≡ first_opened laid.now.school_pool.now laid.now.school.now laid.now.maker_pool.now laid.now.maker.now iter }
{
    if iter.at_root() {
        let s = column_trie_iter::open(laid.school_pool, *laid.school, iter.school);
        let m = column_trie_iter::open(laid.maker_pool, *laid.maker, iter.maker);
        return LaidOpenAnswer {
            number: 0,
            opened: s.opened || m.opened,
            iter: LaidIter {
                school: s.iter,
                maker: m.iter,
            },
        };
    }
    let a = column_trie_iter::key(laid.school_pool, *laid.school, iter.school);
    let b = column_trie_iter::key(laid.maker_pool, *laid.maker, iter.maker);
    if overlay_place::leads(a, b) {
        return open_one(laid, iter, Side::School);
    }
    open_one(laid, iter, Side::Maker)
}

// Back to the key that was opened, which the one that walks does alone; from the first keys both go to the root.
#[tactic(auto, unfolding(crate::specs::Calls::laid_up_of))]
pub fn up(
    school_pool: &[u64],
    school: ColumnTrie,
    maker_pool: &[u64],
    maker: ColumnTrie,
    iter: LaidIter,
) -> LaidUpAnswer
    ensures { result ≡ laid_up_of school_pool.now school maker_pool.now maker iter }
{
    let laid = Laid {
        school_pool,
        school: &school,
        maker_pool,
        maker: &maker,
    };
    if let Err(refused) = overlay_place::check(&laid, iter) {
        return LaidUpAnswer {
            number: refused.number(),
            risen: false,
            iter,
        };
    }
    let Some(side) = iter.walker() else {
        let s = column_trie_iter::up(school_pool, school, iter.school);
        let m = column_trie_iter::up(maker_pool, maker, iter.maker);
        return LaidUpAnswer {
            number: 0,
            risen: s.risen || m.risen,
            iter: LaidIter {
                school: s.iter,
                maker: m.iter,
            },
        };
    };
    let (pool, table) = laid.of(side);
    let cursor = iter.of(side);
    let r = column_trie_iter::up(pool, *table, cursor);
    LaidUpAnswer {
        number: r.number,
        risen: r.risen,
        iter: iter.moved(side, r.iter),
    }
}
