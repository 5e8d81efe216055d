// The calls on tables for C and for Rust to link, and with them the seek in a run and the words of grades, which need no table.
// `portable/proved` makes one archive of this crate, ducatbriar_cursors, ducatbriar_joins and ducatbriar_windows, and include/ducatbriar.h declares it.
//
// Each function of the four is a public call under another name: it passes its arguments on, and its contract is the call's own. None asks anything of
// its caller by a `requires`, since nothing checks a C caller. Headers, cursors and answers cross by value, as C lays them out. A strategy crosses
// as a number (crates/strategy_word), since an enum from C could hold a number that is none of its cases.
#![tactic(auto)]

ghost use Rattle.std.specs.Prelude.{◌≡◌};
ghost use Rattle.seek.specs.Seek.{seek_of};
ghost use Rattle.grade.specs.Word.{word_of, grade_of};
ghost use Rattle.column_trie.specs.Table.{empty_table, undamaged};
ghost use Rattle.column_trie_build.specs.Build.{Builds};
ghost use Rattle.column_trie_insert.specs.Insert.{Inserts};
ghost use Rattle.column_trie_remove.specs.Remove.{Removes};
ghost use Rattle.file_read.specs.Read.{Reads};
ghost use Rattle.file_write.specs.Write.{Writes};
ghost use Rattle.column_trie_permute.specs.Permute.{Permutes};
ghost use Rattle.column_trie_listing.specs.List.{Lists};
ghost use Rattle.strategy_word.specs.Strategy.{strategy_of};

use column_trie::ColumnTrie;
use column_trie_insert::Inserted;
use column_trie_listing::Listed;
use column_trie_remove::Removed;
use file_write::FileWritten;
use from_sorted::Built;
use seek::Sought;
use strategy_word::strategy_of;

#[unsafe(no_mangle)]
pub extern "C" fn ducatbriar_partition_point(
    strategy: u64,
    remaining: &[u64],
    target: u64,
) -> Sought
    ensures { result ≡ seek_of (strategy_of strategy) remaining.now target }
{
    seek::partition_point(strategy_of(strategy), remaining, target)
}

#[unsafe(no_mangle)]
pub extern "C" fn ducatbriar_word_of(grade: i64) -> u64
    ensures { result ≡ word_of grade }
{
    grade::word_of(grade)
}

#[unsafe(no_mangle)]
pub extern "C" fn ducatbriar_grade_of(word: u64) -> i64
    ensures { result ≡ grade_of word }
{
    grade::grade_of(word)
}

#[unsafe(no_mangle)]
pub extern "C" fn ducatbriar_empty(start: usize, arity: usize, capacity: usize) -> ColumnTrie
    ensures { result ≡ empty_table start arity capacity }
{
    ColumnTrie::empty(start, arity, capacity)
}

#[unsafe(no_mangle)]
pub extern "C" fn ducatbriar_undamaged(pool: &[u64], table: ColumnTrie) -> bool
    ensures { result ≡ undamaged pool.now table }
{
    sound_table::undamaged(pool, table)
}

// The kinds of a table's columns, as its header has them: C passes no array by value.
#[repr(C)]
#[derive(Clone, Copy)]
pub struct Kinds {
    pub grade: [bool; ColumnTrie::MAX_ARITY],
}

#[unsafe(no_mangle)]
pub extern "C" fn ducatbriar_build(
    rows: &mut [u64],
    pool: &mut [u64],
    start: usize,
    arity: usize,
    capacity: usize,
    kinds: Kinds,
) -> Built
    ensures { Builds rows.old pool.old start arity capacity kinds.grade rows.new pool.new result }
{
    let grade = kinds.grade;
    column_trie_build::build(rows, pool, start, arity, capacity, grade)
}

// The numbers of a table's columns in their new sequence: C passes no array by value.
#[repr(C)]
#[derive(Clone, Copy)]
pub struct Columns {
    pub columns: [usize; ColumnTrie::MAX_ARITY],
}

#[unsafe(no_mangle)]
pub extern "C" fn ducatbriar_permute(
    pool: &[u64],
    table: ColumnTrie,
    columns: Columns,
    into: &mut [u64],
    start: usize,
    capacity: usize,
) -> Built
    ensures { Permutes pool.now table columns.columns into.old start capacity into.new result }
{
    let numbers = columns.columns;
    column_trie_permute::permute(pool, table, numbers, into, start, capacity)
}

#[unsafe(no_mangle)]
pub extern "C" fn ducatbriar_read(
    bytes: &[u8],
    pool: &mut [u64],
    start: usize,
    capacity: usize,
) -> Built
    ensures { Reads bytes.now pool.old start capacity pool.new result }
{
    file_read::read(bytes, pool, start, capacity)
}

#[unsafe(no_mangle)]
pub extern "C" fn ducatbriar_write(pool: &[u64], table: ColumnTrie, bytes: &mut [u8]) -> FileWritten
    ensures { Writes pool.now table bytes.old bytes.new result }
{
    file_write::write(pool, table, bytes)
}

#[unsafe(no_mangle)]
pub extern "C" fn ducatbriar_insert(pool: &mut [u64], table: ColumnTrie, tuple: &[u64]) -> Inserted
    ensures { Inserts pool.old pool.new table tuple.now result }
{
    column_trie_insert::insert(pool, table, tuple)
}

#[unsafe(no_mangle)]
pub extern "C" fn ducatbriar_remove(pool: &mut [u64], table: ColumnTrie, tuple: &[u64]) -> Removed
    ensures { Removes pool.old pool.new table tuple.now result }
{
    column_trie_remove::remove(pool, table, tuple)
}

#[unsafe(no_mangle)]
pub extern "C" fn ducatbriar_list(pool: &[u64], table: ColumnTrie, text: &mut [u8]) -> Listed
    ensures { Lists pool.now table text.old text.new result }
{
    column_trie_listing::list(pool, table, text)
}
