// Recorded joins: tables, a query over them, and all its rows, the same under every strategy.
//
// Windows are the program's own: every size from one word over full down to one row short. What each must hold follows from the rows; one that is not whole
// rows is refused.
use crate::tables::table_of;
use cases::STRATEGIES;
use cases::script::Script;
use column_trie::ColumnTrie;
use join_query::{Atom, Query, Tables};
use leapfrog_triejoin::join;
use refusal::Refusal;
use seek::SeekStrategy;

// Words of the pool for each table.
const ROOM: usize = 512;

const POOL: usize = 4096;

const WINDOW: usize = 1024;

// What a window holds before the join: no recorded row has it.
const MARK: u64 = 1234567890123456789;

// ---- what is asked

// So many tables, each in its part of the pool.
fn tables_of(script: &mut Script, pool: &mut [u64]) -> Tables {
    let count = script.number() as usize;
    let mut tables = [ColumnTrie::empty(0, 0, 0); Tables::MAX_TABLES];
    if Tables::MAX_TABLES < count {
        script.lose();
        return Tables { count: 0, tables };
    }
    for i in 0..count {
        tables[i] = table_of(script, pool, i * ROOM);
    }
    Tables { count, tables }
}

// Eight numbers, of which so many are given; zeros behind.
fn variables(script: &mut Script, given: usize) -> [usize; ColumnTrie::MAX_ARITY] {
    let mut words = [0u64; ColumnTrie::MAX_ARITY];
    script.numbers(&mut words, given);
    words.map(|word| word as usize)
}

// An atom: its table, and its list of variables behind their number.
fn atom_of(script: &mut Script) -> Atom {
    let table = script.number() as usize;
    let len = script.number() as usize;
    Atom {
        table,
        len,
        variables: variables(script, len),
        laid_over: false,
        maker: 0,
    }
}

// The variables in the query's order behind their number; the atoms behind theirs.
fn query_of(script: &mut Script) -> Query {
    let n = script.number() as usize;
    let order = variables(script, n);
    let count = script.number() as usize;
    let none = Atom {
        table: 0,
        len: 0,
        variables: [0; ColumnTrie::MAX_ARITY],
        laid_over: false,
        maker: 0,
    };
    let mut query = Query {
        n,
        order,
        atom_count: 0,
        atoms: [none; Query::MAX_ATOMS],
    };
    if Query::MAX_ATOMS < count {
        script.lose();
        return query;
    }
    query.atom_count = count;
    for i in 0..count {
        query.atoms[i] = atom_of(script);
    }
    query
}

// ---- what is answered

// What a join must tell: its number, how many rows, and how many words of the window they are.
#[derive(Clone, Copy)]
struct Told {
    number: u64,
    rows: usize,
    words: usize,
}

// One word more than full.
fn over(words: usize) -> usize {
    if words < WINDOW { words + 1 } else { WINDOW }
}

// Whether the window holds so many of the recorded words, and behind them is as it was.
fn holds(window: &[u64; WINDOW], rows: &[u64; WINDOW], words: usize) -> bool {
    let held = words.min(WINDOW);
    window[..held] == rows[..held] && window[held..].iter().all(|&word| word == MARK)
}

// A query over tables, the words of its rows, and what a join with room for them must tell.
#[derive(Drop)]
struct Asked<'a> {
    pool: &'a [u64],
    tables: Tables,
    query: Query,
    rows: &'a [u64; WINDOW],
    all: Told,
}

impl<'a> Asked<'a> {
    // What is told where the window is at most a row short of all.
    fn expected(&self, size: usize) -> Told {
        let all = self.all;
        let n = self.query.n;
        if n != 0 && size % n != 0 {
            return Told {
                number: Refusal::PartRows.number(),
                rows: 0,
                words: 0,
            };
        }
        if all.words <= size || all.words < n || all.rows == 0 {
            return all;
        }
        Told {
            number: Refusal::Full.number(),
            rows: all.rows - 1,
            words: all.words - n,
        }
    }

    // A window of so many words.
    fn window(&self, script: &mut Script, strategy: SeekStrategy, told: Told, size: usize) {
        let mut window = [MARK; WINDOW];
        let lent = &mut window[..size.min(WINDOW)];
        let answer = join(strategy, self.pool, self.tables, self.query, lent);
        script.compare(answer.number == told.number && answer.rows == told.rows);
        script.compare(holds(&window, self.rows, told.words));
    }

    // Every window from one word over full to one row short.
    fn windows(&self, script: &mut Script, strategy: SeekStrategy) {
        let least = self.expected(0);
        for below in (least.words..over(self.all.words)).rev() {
            let size = below + 1;
            let told = self.expected(size);
            self.window(script, strategy, told, size);
        }
        self.window(script, strategy, least, least.words);
    }
}

// Tables and a query; the rows behind their number and that of their words.
pub fn case(script: &mut Script) {
    let mut pool = [0u64; POOL];
    let tables = tables_of(script, &mut pool);
    let query = query_of(script);
    let mut rows = [0u64; WINDOW];
    let count = script.number() as usize;
    let words = script.number() as usize;
    script.numbers(&mut rows, words);
    if script.is_lost() {
        return;
    }
    let asked = Asked {
        pool: &pool,
        tables,
        query,
        rows: &rows,
        all: Told {
            number: 0,
            rows: count,
            words,
        },
    };
    for strategy in STRATEGIES {
        asked.windows(script, strategy);
    }
}
