// Tables that are made and changed: the header of an empty one, a build, an insert, a removal.
use crate::headers::{headed, header, kinds};
use crate::lists::{fill, left};
use cases::script::Script;
use column_trie::ColumnTrie;

// Start, arity and capacity; then the header.
pub fn empty(script: &mut Script, _pool: &mut [u64], _words: &mut [u64]) {
    let start = script.number() as usize;
    let arity = script.number() as usize;
    let capacity = script.number() as usize;
    headed(script, ColumnTrie::empty(start, arity, capacity));
}

// Pool and rows, then start, arity, capacity and eight kinds; then the number, the header, the rows and the pool.
pub fn build(script: &mut Script, pool: &mut [u64], words: &mut [u64]) {
    let pool = fill(script, pool);
    let rows = fill(script, words);
    let start = script.number() as usize;
    let arity = script.number() as usize;
    let capacity = script.number() as usize;
    let grade = kinds(script);
    let came = column_trie_build::build(rows, pool, start, arity, capacity, grade);
    script.said(came.number);
    headed(script, came.table);
    left(script, rows);
    left(script, pool);
}

// Pool and tuple, then the header; then the number, whether the tuple is new, the header and the pool.
pub fn insert(script: &mut Script, pool: &mut [u64], words: &mut [u64]) {
    let pool = fill(script, pool);
    let tuple = fill(script, words);
    let before = header(script);
    let came = column_trie_insert::insert(pool, before, tuple);
    script.said(came.number);
    script.said(u64::from(came.is_new));
    headed(script, came.table);
    left(script, pool);
}

// Pool and tuple, then the header; then the number, whether the tuple was there, the header and the pool.
pub fn remove(script: &mut Script, pool: &mut [u64], words: &mut [u64]) {
    let pool = fill(script, pool);
    let tuple = fill(script, words);
    let before = header(script);
    let came = column_trie_remove::remove(pool, before, tuple);
    script.said(came.number);
    script.said(u64::from(came.was_there));
    headed(script, came.table);
    left(script, pool);
}
