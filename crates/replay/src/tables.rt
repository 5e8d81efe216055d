// Recorded tables: rows that were built, the count of tuples and the listing then, and the same behind each insert, with whether the tuple was new.
use cases::script::{Script, stands};
use column_trie::ColumnTrie;
use column_trie_build::build;
use column_trie_insert::insert;

const WORDS: usize = 512;

const POOL: usize = 1024;

const TEXT: usize = 4096;

// The table of the text's next numbers: the arity, the capacity, the number of words, and the words. Its columns are plain, and no recorded build is
// refused.
pub fn table_of(script: &mut Script, pool: &mut [u64], start: usize) -> ColumnTrie {
    let arity = script.number() as usize;
    let capacity = script.number() as usize;
    let count = script.number() as usize;
    let mut words = [0u64; WORDS];
    script.numbers(&mut words, count);
    let rows = &mut words[..count.min(WORDS)];
    let grade = [false; ColumnTrie::MAX_ARITY];
    let built = build(rows, pool, start, arity, capacity, grade);
    if built.number != 0 {
        script.lose();
    }
    built.table
}

// Whether the table's listing is so long, and is the excerpt.
fn is_listing(excerpt: Option<&[u8]>, len: u64, pool: &[u64], table: ColumnTrie) -> bool {
    let mut bytes = [0u8; TEXT];
    let listed = column_trie_listing::list(pool, table, &mut bytes);
    listed.number == 0 && listed.len as u64 == len && stands(excerpt, &bytes, listed.len)
}

// What the text says of a table: the count of its tuples; the length of its listing, and below that line the listing.
fn told(script: &mut Script, pool: &[u64], table: ColumnTrie) {
    let count = script.number();
    let len = script.number();
    let excerpt = script.excerpt(len as usize);
    script.compare(table.tuple_count as u64 == count);
    script.compare(is_listing(excerpt, len, pool, table));
}

// One insert: the tuple, whether it was new, and what is then told of the table.
fn grow(script: &mut Script, pool: &mut [u64], table: ColumnTrie) -> ColumnTrie {
    let mut words = [0u64; ColumnTrie::MAX_ARITY];
    script.numbers(&mut words, table.arity);
    let is_new = script.number();
    let tuple = &words[..table.arity.min(ColumnTrie::MAX_ARITY)];
    let answer = insert(pool, table, tuple);
    script.told(answer.number, answer.is_new, is_new);
    told(script, pool, answer.table);
    answer.table
}

// A table, and so many inserts, as far as the text goes.
pub fn case(script: &mut Script) {
    let mut pool = [0u64; POOL];
    let mut table = table_of(script, &mut pool, 0);
    told(script, &pool, table);
    let count = script.number();
    for _ in 0..count {
        if script.is_lost() {
            return;
        }
        table = grow(script, &mut pool, table);
    }
}
