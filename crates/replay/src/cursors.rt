// Recorded walks: rows that were built, and moves of a cursor with its answers, the same under every strategy.
use crate::tables::table_of;
use cases::STRATEGIES;
use cases::script::{Script, is_told};
use column_trie::ColumnTrie;
use column_trie_iter::SeekAnswer;
use column_trie_place::ColumnTrieIter;
use seek::SeekStrategy;

const POOL: usize = 512;

// Which move it is.
#[derive(Clone, Copy)]
enum Move {
    Next,
    Open,
    Up,
    Seek { target: u64, probes: u64 },
}

// Of a move: the answer, yes or no; then whether there is a key, the key, and whether it is the end.
// Words and no Option or flags: the text may have any, and one that no answer is like is compared and wrong, so that the program prints what it always has.
#[derive(Clone, Copy)]
struct Told {
    which: Move,
    yes: u64,
    found: u64,
    key: u64,
    end: u64,
}

// The text's next move: which it is (0 next, 1 open, 2 up, 3 seek), what is told of it, and of a seek its target and its linear probes. Another number is none.
fn told_at(script: &mut Script) -> Told {
    let kind = script.number();
    if 3 < kind {
        script.lose();
    }
    let yes = script.number();
    let found = script.number();
    let key = script.number();
    let end = script.number();
    let which = match kind {
        0 => Move::Next,
        1 => Move::Open,
        2 => Move::Up,
        _ => Move::Seek {
            target: script.number(),
            probes: script.number(),
        },
    };
    Told {
        which,
        yes,
        found,
        key,
        end,
    }
}

// Whether a call that shows a key, or none, was not refused and shows the recorded one.
fn is_key(number: u64, found: bool, key: u64, told: u64, told_key: u64) -> bool {
    is_told(number, found, told) && key == told_key
}

// Whether a seek answered as told. One that says `hit` stands on its target exactly then: the key that it shows is recorded. Probes are recorded of the linear strategy alone.
fn is_sought(
    sought: SeekAnswer,
    strategy: SeekStrategy,
    target: u64,
    probes: u64,
    told: Told,
) -> bool {
    let probed = match strategy {
        SeekStrategy::Linear => sought.probes as u64 == probes,
        SeekStrategy::Binary | SeekStrategy::Galloping => true,
    };
    let hit = told.found == 1 && told.key == target;
    is_told(sought.number, sought.found, told.yes) && sought.hit == hit && probed
}

// A table that is walked under a strategy.
#[derive(Drop)]
struct Walk<'a> {
    pool: &'a [u64],
    table: ColumnTrie,
    strategy: SeekStrategy,
}

impl<'a> Walk<'a> {
    // The move that is told: where it leads, with whether its answer is the recorded one. A next's key is the one that is shown then.
    fn step(&self, script: &mut Script, iter: ColumnTrieIter, told: Told) -> ColumnTrieIter {
        match told.which {
            Move::Next => {
                let answer = column_trie_iter::next(self.pool, self.table, iter);
                script.compare(is_key(answer.number, answer.found, answer.key, told.yes, told.key));
                answer.iter
            }
            Move::Open => {
                let answer = column_trie_iter::open(self.pool, self.table, iter);
                script.told(answer.number, answer.opened, told.yes);
                answer.iter
            }
            Move::Up => {
                let answer = column_trie_iter::up(self.pool, self.table, iter);
                script.told(answer.number, answer.risen, told.yes);
                answer.iter
            }
            Move::Seek { target, probes } => {
                let strategy = self.strategy;
                let sought = column_trie_iter::seek(self.pool, self.table, iter, strategy, target);
                script.compare(is_sought(sought, strategy, target, probes, told));
                sought.iter
            }
        }
    }

    // One move, and where the cursor is then: its key, and whether it is at the end.
    fn one(&self, script: &mut Script, before: ColumnTrieIter) -> ColumnTrieIter {
        let told = told_at(script);
        let iter = self.step(script, before, told);
        let key = column_trie_iter::key(self.pool, self.table, iter);
        let end = column_trie_iter::at_end(self.pool, self.table, iter);
        script.compare(is_key(key.number, key.found, key.key, told.found, told.key));
        script.told(end.number, end.at_end, told.end);
        iter
    }

    // All moves of a case, as far as the text goes.
    fn all(&self, script: &mut Script) {
        let count = script.number();
        let mut iter = ColumnTrieIter::new();
        for _ in 0..count {
            if script.is_lost() {
                return;
            }
            iter = self.one(script, iter);
        }
    }
}

pub fn case(script: &mut Script) {
    let mut pool = [0u64; POOL];
    let table = table_of(script, &mut pool, 0);
    let moves = *script;
    for strategy in STRATEGIES {
        script.back_to(&moves);
        let walk = Walk {
            pool: &pool,
            table,
            strategy,
        };
        walk.all(script);
    }
}
