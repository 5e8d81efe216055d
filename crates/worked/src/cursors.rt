// Cursors: behind the pool the header, the cursor and the call, and of a seek strategy and target; then the number, yes or no, the key, the probes, hit or
// not, and the cursor. What a call doesn't answer is 0, or the cursor that was asked.
use crate::choices::strategy;
use crate::headers::header;
use crate::lists::fill;
use cases::script::Script;
use column_trie::ColumnTrie;
use column_trie_place::ColumnTrieIter;
use seek::SeekStrategy;

// The text's next cursor.
fn cursor(script: &mut Script) -> ColumnTrieIter {
    ColumnTrieIter {
        depth: script.number() as usize,
        interval_i: script.number() as usize,
        slice_offset: script.number() as usize,
    }
}

// What a call says.
#[derive(Clone, Copy)]
struct Answer {
    number: u64,
    yes: bool,
    key: u64,
    probes: usize,
    hit: bool,
    iter: ColumnTrieIter,
}

impl Answer {
    // Of a call that seeks nothing.
    fn unsought(number: u64, yes: bool, key: u64, iter: ColumnTrieIter) -> Self {
        Self {
            number,
            yes,
            key,
            probes: 0,
            hit: false,
            iter,
        }
    }

    // The text's next answer is this one.
    fn said(self, script: &mut Script) {
        script.said(self.number);
        script.said(u64::from(self.yes));
        script.said(self.key);
        script.said(self.probes as u64);
        script.said(u64::from(self.hit));
        script.said(self.iter.depth as u64);
        script.said(self.iter.interval_i as u64);
        script.said(self.iter.slice_offset as u64);
    }
}

// A call of a cursor.
#[derive(Clone, Copy)]
enum Call {
    Key,
    Next,
    AtEnd,
    Open,
    Up,
    Seek { strategy: SeekStrategy, target: u64 },
    New,
}

// The text's next call: 0 key, 1 next, 2 at_end, 3 open, 4 up, 5 seek with its strategy and target, 6 a new cursor. Another number is none.
fn next_call(script: &mut Script) -> Call {
    match script.number() {
        0 => Call::Key,
        1 => Call::Next,
        2 => Call::AtEnd,
        3 => Call::Open,
        4 => Call::Up,
        5 => Call::Seek {
            strategy: strategy(script),
            target: script.number(),
        },
        6 => Call::New,
        _ => {
            script.lose();
            Call::Key
        }
    }
}

// What the call answers. A new cursor is one and the same, whatever is asked.
fn asked(call: Call, pool: &[u64], table: ColumnTrie, iter: ColumnTrieIter) -> Answer {
    match call {
        Call::Key => {
            let came = column_trie_iter::key(pool, table, iter);
            Answer::unsought(came.number, came.found, came.key, iter)
        }
        Call::Next => {
            let came = column_trie_iter::next(pool, table, iter);
            Answer::unsought(came.number, came.found, came.key, came.iter)
        }
        Call::AtEnd => {
            let came = column_trie_iter::at_end(pool, table, iter);
            Answer::unsought(came.number, came.at_end, 0, iter)
        }
        Call::Open => {
            let came = column_trie_iter::open(pool, table, iter);
            Answer::unsought(came.number, came.opened, 0, came.iter)
        }
        Call::Up => {
            let came = column_trie_iter::up(pool, table, iter);
            Answer::unsought(came.number, came.risen, 0, came.iter)
        }
        Call::Seek { strategy, target } => {
            let came = column_trie_iter::seek(pool, table, iter, strategy, target);
            Answer {
                number: came.number,
                yes: came.found,
                key: 0,
                probes: came.probes,
                hit: came.hit,
                iter: came.iter,
            }
        }
        Call::New => Answer::unsought(0, false, 0, ColumnTrieIter::new()),
    }
}

pub fn case(script: &mut Script, pool: &mut [u64], _words: &mut [u64]) {
    let pool = fill(script, pool);
    let table = header(script);
    let iter = cursor(script);
    let call = next_call(script);
    asked(call, pool, table, iter).said(script);
}
