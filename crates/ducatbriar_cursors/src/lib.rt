// The calls on cursors for C and for Rust to link, and with those over a school's table laid over a maker's the lookup there.
// What goes for every exported call is said in crates/ducatbriar_tables.
#![tactic(auto)]

ghost use Rattle.std.specs.Prelude.{◌≡◌};
ghost use Rattle.column_trie_iter.specs.Cursor.{key_of, next_of, sought_of, end_of, open_of, up_of};
ghost use Rattle.overlay_lookup.specs.Lookup.{looked_up};
ghost use Rattle.overlay_iter.specs.Calls.{laid_key_of, laid_next_of, laid_sought_of, laid_end_of, laid_open_of, laid_up_of};
ghost use Rattle.strategy_word.specs.Strategy.{strategy_of};

use column_trie::ColumnTrie;
use column_trie_iter::{EndAnswer, KeyAnswer, NextAnswer, OpenAnswer, SeekAnswer, UpAnswer};
use column_trie_place::ColumnTrieIter;
use laid_iter::LaidIter;
use overlay_iter::{LaidNextAnswer, LaidOpenAnswer, LaidSeekAnswer, LaidUpAnswer};
use overlay_lookup::LookedUp;
use strategy_word::strategy_of;

#[unsafe(no_mangle)]
pub extern "C" fn ducatbriar_key(pool: &[u64], table: ColumnTrie, iter: ColumnTrieIter) -> KeyAnswer
    ensures { result ≡ key_of pool.now table iter }
{
    column_trie_iter::key(pool, table, iter)
}

#[unsafe(no_mangle)]
pub extern "C" fn ducatbriar_next(
    pool: &[u64],
    table: ColumnTrie,
    iter: ColumnTrieIter,
) -> NextAnswer
    ensures { result ≡ next_of pool.now table iter }
{
    column_trie_iter::next(pool, table, iter)
}

#[unsafe(no_mangle)]
pub extern "C" fn ducatbriar_seek(
    pool: &[u64],
    table: ColumnTrie,
    iter: ColumnTrieIter,
    strategy: u64,
    target: u64,
) -> SeekAnswer
    ensures { result ≡ sought_of pool.now table iter (strategy_of strategy) target }
{
    column_trie_iter::seek(pool, table, iter, strategy_of(strategy), target)
}

#[unsafe(no_mangle)]
pub extern "C" fn ducatbriar_at_end(
    pool: &[u64],
    table: ColumnTrie,
    iter: ColumnTrieIter,
) -> EndAnswer
    ensures { result ≡ end_of pool.now table iter }
{
    column_trie_iter::at_end(pool, table, iter)
}

#[unsafe(no_mangle)]
pub extern "C" fn ducatbriar_open(
    pool: &[u64],
    table: ColumnTrie,
    iter: ColumnTrieIter,
) -> OpenAnswer
    ensures { result ≡ open_of pool.now table iter }
{
    column_trie_iter::open(pool, table, iter)
}

#[unsafe(no_mangle)]
pub extern "C" fn ducatbriar_up(pool: &[u64], table: ColumnTrie, iter: ColumnTrieIter) -> UpAnswer
    ensures { result ≡ up_of pool.now table iter }
{
    column_trie_iter::up(pool, table, iter)
}

#[unsafe(no_mangle)]
pub extern "C" fn ducatbriar_lookup(
    school_pool: &[u64],
    school: ColumnTrie,
    maker_pool: &[u64],
    maker: ColumnTrie,
    key: u64,
) -> LookedUp
    ensures { result ≡ looked_up school_pool.now school maker_pool.now maker key }
{
    overlay_lookup::lookup(school_pool, school, maker_pool, maker, key)
}

#[unsafe(no_mangle)]
pub extern "C" fn ducatbriar_laid_key(
    school_pool: &[u64],
    school: ColumnTrie,
    maker_pool: &[u64],
    maker: ColumnTrie,
    iter: LaidIter,
) -> KeyAnswer
    ensures { result ≡ laid_key_of school_pool.now school maker_pool.now maker iter }
{
    overlay_iter::key(school_pool, school, maker_pool, maker, iter)
}

#[unsafe(no_mangle)]
pub extern "C" fn ducatbriar_laid_next(
    school_pool: &[u64],
    school: ColumnTrie,
    maker_pool: &[u64],
    maker: ColumnTrie,
    iter: LaidIter,
) -> LaidNextAnswer
    ensures { result ≡ laid_next_of school_pool.now school maker_pool.now maker iter }
{
    overlay_iter::next(school_pool, school, maker_pool, maker, iter)
}

#[unsafe(no_mangle)]
pub extern "C" fn ducatbriar_laid_seek(
    school_pool: &[u64],
    school: ColumnTrie,
    maker_pool: &[u64],
    maker: ColumnTrie,
    iter: LaidIter,
    strategy: u64,
    target: u64,
) -> LaidSeekAnswer
    ensures { result ≡ laid_sought_of school_pool.now school maker_pool.now maker iter (strategy_of strategy) target }
{
    overlay_iter::seek(
        school_pool,
        school,
        maker_pool,
        maker,
        iter,
        strategy_of(strategy),
        target,
    )
}

#[unsafe(no_mangle)]
pub extern "C" fn ducatbriar_laid_at_end(
    school_pool: &[u64],
    school: ColumnTrie,
    maker_pool: &[u64],
    maker: ColumnTrie,
    iter: LaidIter,
) -> EndAnswer
    ensures { result ≡ laid_end_of school_pool.now school maker_pool.now maker iter }
{
    overlay_iter::at_end(school_pool, school, maker_pool, maker, iter)
}

#[unsafe(no_mangle)]
pub extern "C" fn ducatbriar_laid_open(
    school_pool: &[u64],
    school: ColumnTrie,
    maker_pool: &[u64],
    maker: ColumnTrie,
    iter: LaidIter,
) -> LaidOpenAnswer
    ensures { result ≡ laid_open_of school_pool.now school maker_pool.now maker iter }
{
    overlay_iter::open(school_pool, school, maker_pool, maker, iter)
}

#[unsafe(no_mangle)]
pub extern "C" fn ducatbriar_laid_up(
    school_pool: &[u64],
    school: ColumnTrie,
    maker_pool: &[u64],
    maker: ColumnTrie,
    iter: LaidIter,
) -> LaidUpAnswer
    ensures { result ≡ laid_up_of school_pool.now school maker_pool.now maker iter }
{
    overlay_iter::up(school_pool, school, maker_pool, maker, iter)
}
