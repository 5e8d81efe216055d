// What the programs read their cases with: the file that they stand in, the text on the way through it, and what was compared on that way.
// For the programs only.
#![tactic(auto)]

mod file;
pub mod script;

use crate::file::{load, room};
use crate::script::Script;
use seek::SeekStrategy;
use std::io;
use std::rt::Files;

// Every strategy, in the sequence of their numbers.
pub const STRATEGIES: [SeekStrategy; 3] = [
    SeekStrategy::Linear,
    SeekStrategy::Binary,
    SeekStrategy::Galloping,
];

// The cases of the file of this name behind their number, as far as the text goes, each with which one it is, and with what is lent to all of them; then what was compared is
// printed.
pub fn each_case<R: Files + Print + Eprint, S, F: Fn(&mut Script, u64, &mut S) -> io::Result<()>>(
    rt: &R,
    name: &str,
    lent: &mut S,
    case: F,
) -> io::Result<()>
    requires { F.IsAlwaysCallable case }
{
    let mut text = room();
    let Some(text) = load(rt, name, &mut text)? else {
        return Ok(());
    };
    let mut script = Script::new(text);
    let count = script.number();
    for i in 0..count {
        if script.is_lost() {
            break;
        }
        case(&mut script, i + 1, lent)?;
    }
    script.print(rt, name, count)
}
