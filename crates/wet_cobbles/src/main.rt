// The main job: the friction rows of a lesson, joined from tables of surfaces, tyres, speed bands and friction.
//
// A key is packed: a kind times 2^32, plus a code. Wet cobbles and icy cobbles have the same code, so their keys cut to 32 bits are one and the same, and
// so are those of two tyres. That is how another row was once chosen; here a key is a 64-bit word on every machine. Beside each row stands the one that
// cut keys would have chosen: the first that the same join lists over the same tables with every word cut.
//
// Then a school's own friction rows, laid over the maker's: what the school measured replaces all that the maker says about that surface.
//
// Then the lesson's slope, whose stretches list by grade, the steepest descent first. A grade that is joined to a tyre's key is refused, since a column
// says of which kind it is.
#![tactic(auto)]

use column_trie::ColumnTrie;
use column_trie_build::build;
use grade::{grade_of, word_of};
use join_query::{Atom, Query, Tables};
use leapfrog_triejoin::{Joined, join};
use seek::SeekStrategy;
use std::{fmt, io};

// What a kind is multiplied by, 2^32: what is left of a word below it is what a cut leaves.
const CUT: u64 = 4294967296;

// Cobbles have code 5: wet ones are kind 7, icy ones kind 9.
const WET_COBBLES: u64 = 30064771077;

const ICY_COBBLES: u64 = 38654705669;

// Tyres have code 21: for all seasons kind 3, for summer kind 4.
const ALL_SEASON: u64 = 12884901909;

const SUMMER: u64 = 17179869205;

// A row of the answer: surface, tyre, band, friction.
const ROW: usize = 4;

// Says that a call was refused, and by which number; nothing where it was not. A refused build's table is all zeros, so the join is then refused too.
fn told(rt: &impl Print, what: &str, refusal: u64) -> io::Result<()> {
    if refusal != 0 {
        println!(rt; "{what}: refused with {refusal}")?;
    }
    Ok(())
}

// ---- the tables, in one pool; over cut keys where `cut` says so

// The table of these rows where the empty one says: its part of the pool, its columns and their kinds.
fn built(
    rt: &impl Print,
    what: &str,
    empty: ColumnTrie,
    rows: &mut [u64],
    pool: &mut [u64],
) -> io::Result<ColumnTrie> {
    let built = build(
        rows,
        pool,
        empty.start,
        empty.arity,
        empty.capacity,
        empty.grade,
    );
    told(rt, what, built.number)?;
    Ok(built.table)
}

fn key(packed: u64, cut: bool) -> u64 {
    if cut { packed % CUT } else { packed }
}

// The lesson's surface.
fn surfaces(rt: &impl Print, cut: bool, pool: &mut [u64]) -> io::Result<ColumnTrie> {
    let mut rows = [key(WET_COBBLES, cut)];
    let empty = ColumnTrie::empty(0, 1, 8);
    built(rt, "the surfaces", empty, &mut rows, pool)
}

// The lesson's tyre.
fn tyres(rt: &impl Print, cut: bool, pool: &mut [u64]) -> io::Result<ColumnTrie> {
    let mut rows = [key(ALL_SEASON, cut)];
    let empty = ColumnTrie::empty(16, 1, 8);
    built(rt, "the tyres", empty, &mut rows, pool)
}

// Up to which speed, in km/h, a band reaches on a surface.
fn bands(rt: &impl Print, cut: bool, pool: &mut [u64]) -> io::Result<ColumnTrie> {
    let wet = key(WET_COBBLES, cut);
    let icy = key(ICY_COBBLES, cut);
    let mut rows = [wet, 20, wet, 40, wet, 60, icy, 20, icy, 40, icy, 60];
    let empty = ColumnTrie::empty(32, 2, 8);
    built(rt, "the bands", empty, &mut rows, pool)
}

// Surface, tyre, band, friction in thousandths.
fn frictions(rt: &impl Print, cut: bool, pool: &mut [u64]) -> io::Result<ColumnTrie> {
    let wet = key(WET_COBBLES, cut);
    let icy = key(ICY_COBBLES, cut);
    let all = key(ALL_SEASON, cut);
    let sum = key(SUMMER, cut);
    let mut rows = [
        wet, all, 20, 520, wet, all, 40, 470, wet, all, 60, 410, wet, sum, 20, 480, wet, sum, 40,
        430, wet, sum, 60, 360, icy, all, 20, 190, icy, all, 40, 160, icy, all, 60, 130,
    ];
    let empty = ColumnTrie::empty(64, 4, 10);
    built(rt, "the frictions", empty, &mut rows, pool)
}

fn tables(rt: &impl Print, cut: bool, pool: &mut [u64]) -> io::Result<Tables> {
    let mut tables = [ColumnTrie::empty(0, 0, 0); Tables::MAX_TABLES];
    let surface = surfaces(rt, cut, pool)?;
    let tyre = tyres(rt, cut, pool)?;
    let band = bands(rt, cut, pool)?;
    let friction = frictions(rt, cut, pool)?;
    tables[0] = surface;
    tables[1] = tyre;
    tables[2] = band;
    tables[3] = friction;
    Ok(Tables { count: 4, tables })
}

// ---- the join

fn atom(table: usize, len: usize, a: usize, b: usize) -> Atom {
    let variables = [a, b, 2, 3, 0, 0, 0, 0];
    Atom {
        table,
        len,
        variables,
        laid_over: false,
        maker: 0,
    }
}

// Variables: surface 0, tyre 1, band 2, friction 3. Atoms: the lesson's surface and tyre, the surface's bands, and the friction of all three.
fn lesson() -> Query {
    let order = [0usize, 1, 2, 3, 4, 5, 6, 7];
    let mut atoms = [atom(0, 0, 0, 0); Query::MAX_ATOMS];
    atoms[0] = atom(0, 1, 0, 0);
    atoms[1] = atom(1, 1, 1, 0);
    atoms[2] = atom(2, 2, 0, 2);
    atoms[3] = atom(3, 4, 0, 1);
    Query {
        n: ROW,
        order,
        atom_count: 4,
        atoms,
    }
}

// Joins the lesson's tables; the answer is how many rows stand in the window.
fn joined(rt: &impl Print, cut: bool, window: &mut [u64]) -> io::Result<usize> {
    let mut pool = [0u64; 144];
    let given = tables(rt, cut, &mut pool)?;
    let came = join(SeekStrategy::Galloping, &pool, given, lesson(), window);
    told(rt, "the join", came.number)?;
    Ok(came.rows)
}

// ---- a school's own frictions

// What a school measured itself: wet cobbles, up to 40 km/h. The tables of `tables` end before it.
fn school_frictions(rt: &impl Print, pool: &mut [u64]) -> io::Result<ColumnTrie> {
    let mut rows = [
        WET_COBBLES,
        ALL_SEASON,
        20,
        500,
        WET_COBBLES,
        ALL_SEASON,
        40,
        450,
    ];
    let empty = ColumnTrie::empty(144, 4, 8);
    built(rt, "the school's frictions", empty, &mut rows, pool)
}

// As `lesson`, on any surface, and with the school's frictions, table 4, laid over the maker's, table 3.
fn any_surface() -> Query {
    let order = [0usize, 1, 2, 3, 4, 5, 6, 7];
    let mut atoms = [atom(0, 0, 0, 0); Query::MAX_ATOMS];
    atoms[0] = atom(1, 1, 1, 0);
    atoms[1] = atom(2, 2, 0, 2);
    atoms[2] = Atom {
        table: 4,
        len: 4,
        variables: [0, 1, 2, 3, 0, 0, 0, 0],
        laid_over: true,
        maker: 3,
    };
    Query {
        n: ROW,
        order,
        atom_count: 3,
        atoms,
    }
}

// Joins the lesson's tyre on any surface.
fn school_joined(rt: &impl Print, window: &mut [u64]) -> io::Result<()> {
    let mut pool = [0u64; 208];
    let given = tables(rt, false, &mut pool)?;
    let own = school_frictions(rt, &mut pool)?;
    let mut all = given.tables;
    all[4] = own;
    let with_own = Tables {
        count: 5,
        tables: all,
    };
    let came = join(
        SeekStrategy::Galloping,
        &pool,
        with_own,
        any_surface(),
        window,
    );
    told(rt, "the school's join", came.number)
}

// ---- the lesson's slope

// Grade, in thousandths, and stretch: level, downhill, uphill. The first column is a grade.
fn slope(rt: &impl Print, pool: &mut [u64]) -> io::Result<ColumnTrie> {
    let mut rows = [word_of(0), 1, word_of(-60), 2, word_of(45), 3];
    let mut empty = ColumnTrie::empty(0, 2, 4);
    empty.grade[0] = true;
    built(rt, "the slope", empty, &mut rows, pool)
}

// Variables: grade 0, stretch 1. The first atom is the slope; the second would have a tyre's key be a grade.
fn by_grade(atom_count: usize) -> Query {
    let order = [0usize, 1, 2, 3, 4, 5, 6, 7];
    let mut atoms = [atom(0, 0, 0, 0); Query::MAX_ATOMS];
    atoms[0] = atom(0, 2, 0, 1);
    atoms[1] = atom(1, 1, 0, 0);
    Query {
        n: 2,
        order,
        atom_count,
        atoms,
    }
}

// Joins the slope alone, or with the tyres.
fn slope_joined(rt: &impl Print, atom_count: usize, window: &mut [u64]) -> io::Result<Joined> {
    let mut pool = [0u64; 32];
    let mut tables = [ColumnTrie::empty(0, 0, 0); Tables::MAX_TABLES];
    let stretches = slope(rt, &mut pool)?;
    let tyre = tyres(rt, false, &mut pool)?;
    tables[0] = stretches;
    tables[1] = tyre;
    let given = Tables { count: 2, tables };
    Ok(join(
        SeekStrategy::Galloping,
        &pool,
        given,
        by_grade(atom_count),
        window,
    ))
}

// ---- what is printed

// A row of an answer, by variable number: surface, tyre, band, friction.
#[derive(Clone, Copy)]
struct Row([u64; ROW]);

// Thousandths, as a number with three digits behind the point.
#[derive(Clone, Copy)]
struct Thousandths(u64);

impl fmt::Display for Thousandths {
    fn fmt<W: fmt::Write>(&self, f: &mut fmt::Formatter<W>) -> fmt::Result {
        write!(f, "{}.{:03}", self.0 / 1000, self.0 % 1000)
    }
}

impl fmt::Display for Row {
    fn fmt<W: fmt::Write>(&self, f: &mut fmt::Formatter<W>) -> fmt::Result {
        let Row([surface, tyre, band, friction]) = *self;
        let surface = match surface {
            WET_COBBLES => "wet cobbles",
            _ => "icy cobbles",
        };
        let tyre = match tyre {
            ALL_SEASON => "all-season",
            _ => "summer    ",
        };
        let friction = Thousandths(friction);
        write!(f, "{surface} | {tyre} |         {band} |    {friction}")
    }
}

// The friction of the first row of the band, if there is one.
fn first_of(rows: &[[u64; ROW]], band: u64) -> Option<u64> {
    rows.iter().find(|row| row[2] == band).map(|row| row[3])
}

// The rows, each with the friction of the first of the same band among those joined over cut keys, which these would have chosen; 0 where there is none.
fn table(rt: &impl Print, rows: &[[u64; ROW]], over_cut: &[[u64; ROW]]) -> io::Result<()> {
    for row in rows {
        let chosen = first_of(over_cut, row[2]).unwrap_or(0);
        let note = if chosen == row[3] {
            ""
        } else {
            ", another surface's"
        };
        println!(rt; "{} | {}{note}", Row(*row), Thousandths(chosen))?;
    }
    Ok(())
}

// The five rows over the school's frictions and the maker's.
fn school_rows(rt: &impl Print) -> io::Result<()> {
    println!(rt; "\nA school's own frictions of wet cobbles over the maker's\n")?;
    let mut window = [0u64; 5 * ROW];
    school_joined(rt, &mut window)?;
    for row in rows_of(&window, 5) {
        println!(rt; "{}", Row(*row))?;
    }
    Ok(())
}

// The first rows of the window, as many as there are of those that are said.
fn rows_of(window: &[u64], rows: usize) -> &[[u64; ROW]] {
    let (all, _) = window.as_chunks::<ROW>();
    &all[..rows.min(all.len())]
}

// The three stretches as the join lists them, with the grade's sign, and what comes of a grade that is joined to a tyre.
fn stretches(rt: &impl Print) -> io::Result<()> {
    println!(rt; "\nThe lesson's slope, by grade in thousandths\n")?;
    let mut window = [0u64; 6];
    let alone = slope_joined(rt, 1, &mut window)?;
    told(rt, "the slope's join", alone.number)?;
    let (listed, _) = window.as_chunks::<2>();
    for &[grade, stretch] in listed {
        println!(rt; "stretch {stretch}: {}", grade_of(grade))?;
    }
    println!(rt)?;
    let with_tyres = slope_joined(rt, 2, &mut window)?;
    told(rt, "A grade joined to a tyre", with_tyres.number)
}

fn keys(rt: &impl Print) -> io::Result<()> {
    println!(rt;
        "A surface's key is a 64-bit word: wet cobbles {WET_COBBLES}, icy cobbles {ICY_COBBLES}."
    )?;
    println!(rt;
        "Cut to 32 bits they are {} and {}.\n",
        WET_COBBLES % CUT,
        ICY_COBBLES % CUT
    )
}

fn main(rt: HostRuntime) -> io::Result<()> {
    println!(&rt;
        "The friction of a lesson on wet cobbles with a tyre for all seasons, by speed band\n"
    )?;
    keys(&rt)?;
    let mut window = [0u64; 64];
    let rows = joined(&rt, false, &mut window)?;
    let mut over_cut = [0u64; 64];
    let rows_cut = joined(&rt, true, &mut over_cut)?;
    println!(&rt; "surface     | tyre       | up to km/h | friction | with keys cut to 32 bits")?;
    println!(&rt; "------------+------------+------------+----------+-------------------------")?;
    table(&rt, rows_of(&window, rows), rows_of(&over_cut, rows_cut))?;
    println!(&rt; "\nRows joined: {rows}; over cut keys: {rows_cut}")?;
    school_rows(&rt)?;
    stretches(&rt)
}
