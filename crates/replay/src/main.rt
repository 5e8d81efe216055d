// Replays recorded answers of kermit: asks the library what kermit was asked, and counts the answers that differ.
//
// Each file of data/ holds the cases of one kind, made by `record` (rust/compare), and starts with their number; docs/REPLAY.md says what is in them. The
// gate holds the counts to the file `stdout`, so the library is held to kermit's answers where no Rust is at hand.
#![tactic(auto)]

mod cursors;
mod joins;
mod seeks;
mod tables;

use cases::each_case;
use cases::script::Script;
use std::io;
use std::rt::Files;

// One case, which names nothing itself: what differs is counted.
fn one<F: Fn(&mut Script)>(script: &mut Script, case: &F) -> io::Result<()>
    requires { F.IsAlwaysCallable case.now }
{
    case(script);
    Ok(())
}

fn replay<R: Files + Print + Eprint, F: Fn(&mut Script)>(
    rt: &R,
    name: &str,
    case: F,
) -> io::Result<()>
    requires { F.IsAlwaysCallable case }
{
    each_case(rt, name, &mut (), |script, _, _| one(script, &case))
}

fn main(rt: HostRuntime) -> io::Result<()> {
    replay(&rt, "seeks", seeks::case)?;
    replay(&rt, "tables", tables::case)?;
    replay(&rt, "cursors", cursors::case)?;
    replay(&rt, "joins", joins::case)
}
