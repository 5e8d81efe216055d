// Document 01's bench cases: asks the library what each file of data/ says, and counts the answers that differ, refusals included.
//
// Each file holds the cases of one kind, and starts with their number; docs/WORKED.md says how they are written. A new case is a few lines there and
// costs no proof. The gate holds the counts to the file `stdout`.
#![tactic(auto)]

ghost use Rattle.std.specs.Prelude.{◌≡◌, length};

mod choices;
mod cursors;
mod grades;
mod headers;
mod joins;
mod listings;
mod lists;
mod seeks;
mod tables;

use cases::each_case;
use cases::script::Script;
use std::io;
use std::rt::Files;

// Words of each of the two lists that a case can start with.
const WORDS: usize = 131074;

// The `ensures` gives only the length, which lending the array as a slice needs.
fn room() -> [u64; WORDS]
    ensures { 131074 ≡ length result }
{
    [0; WORDS]
}

// Room for the two lists of a case. It is made once: zeroed for each case it would cost more than all that a case does.
#[derive(Drop)]
struct TwoLists {
    pool: [u64; WORDS],
    words: [u64; WORDS],
}

// One case. It is named where an answer is wrong, and where it isn't written as it must be.
fn one<F: Fn(&mut Script, &mut [u64], &mut [u64])>(
    rt: &impl Print,
    name: &str,
    script: &mut Script,
    case: &F,
    number: u64,
    lists: &mut TwoLists,
) -> io::Result<()>
    requires { F.IsAlwaysCallable case.now }
{
    let wrong = script.wrong();
    case(script, &mut lists.pool, &mut lists.words);
    if script.wrong() != wrong || script.is_lost() {
        println!(rt; "{name}: case {number} is wrong")?;
    }
    Ok(())
}

// The cases of one file, with lists that are all zeros before the first.
fn work<R: Files + Print + Eprint, F: Fn(&mut Script, &mut [u64], &mut [u64])>(
    rt: &R,
    name: &str,
    lists: &mut TwoLists,
    case: F,
) -> io::Result<()>
    requires { F.IsAlwaysCallable case }
{
    lists.pool.fill(0);
    lists.words.fill(0);
    each_case(
        rt,
        name,
        lists,
        |script, number, lists| one(rt, name, script, &case, number, lists),
    )
}

fn main(rt: HostRuntime) -> io::Result<()> {
    let mut lists = TwoLists {
        pool: room(),
        words: room(),
    };
    work(&rt, "seeks", &mut lists, seeks::case)?;
    work(&rt, "grades", &mut lists, grades::case)?;
    work(&rt, "empties", &mut lists, tables::empty)?;
    work(&rt, "builds", &mut lists, tables::build)?;
    work(&rt, "inserts", &mut lists, tables::insert)?;
    work(&rt, "removals", &mut lists, tables::remove)?;
    work(&rt, "listings", &mut lists, listings::case)?;
    work(&rt, "cursors", &mut lists, cursors::case)?;
    work(&rt, "joins", &mut lists, joins::case)
}
