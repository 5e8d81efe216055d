// Replays kermit's recorded leapfrogs: asks the leapfrog's own calls what kermit's were asked, under each strategy, and counts the answers that differ.
//
// data/leapfrogs is made by `record` (rust/compare) and starts with the number of its cases; docs/REPLAY.md says what is in it. The gate holds the counts to
// the file `stdout`. It is a program of its own, since these calls ask something of their caller, which is proved here.
#![tactic(auto)]

mod calls;
mod runs;

use crate::calls::walk;
use crate::runs::Runs;
use cases::script::Script;
use cases::{STRATEGIES, each_case};
use std::io;

// The next case: its runs, and the calls on them under each strategy. Runs of which no leapfrog may be asked are no recorded ones.
fn case(script: &mut Script) {
    let runs = Runs::new(script);
    if !runs.stand() {
        script.lose();
        return;
    }
    let calls = *script;
    for strategy in STRATEGIES {
        script.back_to(&calls);
        walk(script, &runs, strategy);
    }
}

fn main(rt: HostRuntime) -> io::Result<()> {
    each_case(&rt, "leapfrogs", &mut (), |script, _, _| {
        case(script);
        Ok(())
    })
}
