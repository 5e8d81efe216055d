// Joins: behind pool and window the tables and the query; then the number, the rows, the seeks and the window.
use crate::choices::within;
use crate::headers::{eight, header};
use crate::lists::{fill, left};
use cases::STRATEGIES;
use cases::script::Script;
use column_trie::ColumnTrie;
use join_query::{Atom, Query, Tables};
use leapfrog_triejoin::join;
use seek::SeekStrategy;

// The count that is said, the number of headers that are given, and these. Tables behind them are like the last one.
fn tables(script: &mut Script) -> Tables {
    let count = script.number() as usize;
    let given = script.number();
    let mut table = ColumnTrie::empty(0, 0, 0);
    let mut tables = [table; Tables::MAX_TABLES];
    for i in 0..Tables::MAX_TABLES {
        if (i as u64) < given {
            table = header(script);
        }
        tables[i] = table;
    }
    within(script, given, Tables::MAX_TABLES as u64);
    Tables { count, tables }
}

// An atom: its table, the length that is said of its list, and eight variables.
fn atom(script: &mut Script) -> Atom {
    Atom {
        table: script.number() as usize,
        len: script.number() as usize,
        variables: eight(script),
        laid_over: false,
        maker: 0,
    }
}

// The number of atoms that are given, and these. Atoms behind them are like the last one.
fn atoms(script: &mut Script) -> [Atom; Query::MAX_ATOMS] {
    let given = script.number();
    let mut last = Atom {
        table: 0,
        len: 0,
        variables: [0; ColumnTrie::MAX_ARITY],
        laid_over: false,
        maker: 0,
    };
    let mut atoms = [last; Query::MAX_ATOMS];
    for i in 0..Query::MAX_ATOMS {
        if (i as u64) < given {
            last = atom(script);
        }
        atoms[i] = last;
    }
    within(script, given, Query::MAX_ATOMS as u64);
    atoms
}

// The number of variables, eight of the order, the count of atoms that is said, and the atoms.
fn query(script: &mut Script) -> Query {
    Query {
        n: script.number() as usize,
        order: eight(script),
        atom_count: script.number() as usize,
        atoms: atoms(script),
    }
}

// A join is asked under each strategy, each time from the case's front, since it changes the window.
pub fn case(script: &mut Script, pool: &mut [u64], words: &mut [u64]) {
    let front = *script;
    for strategy in STRATEGIES {
        script.back_to(&front);
        asked(script, strategy, pool, words);
    }
}

fn asked(script: &mut Script, strategy: SeekStrategy, pool: &mut [u64], words: &mut [u64]) {
    let pool = fill(script, pool);
    let window = fill(script, words);
    let tables = tables(script);
    let query = query(script);
    let came = join(strategy, pool, tables, query, window);
    script.said(came.number);
    script.said(came.rows as u64);
    script.said(came.seeks);
    left(script, window);
}
