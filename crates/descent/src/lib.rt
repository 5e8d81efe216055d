// Internal: the function here asks something of its caller by a `requires`. The descent of a join whose query passed the checks, by the depths of
// crates/join_depths.
#![tactic(auto)]

ghost use Rattle.join_window.specs.Window.{Open, Kept};
ghost use Rattle.join_depths.specs.Depth.{Standing};
ghost use Rattle.descent.specs.Descent.{Completes};

use join_depths::depth::{onward, open};
use join_openings::Join;
use join_query::Query;
use join_window::Window;
use leapfrog_search::Landed;
use query::MAX_ATOMS;
use stretches::State;

// Writes the rows that complete `found`, from depth `depth` on, behind those that the window holds, until it is full, and answers the seeks: those made before and its own. The
// cursors' places come by value, with the table that each is in, so those of the caller are as they were when it returns. At the last depth a row is written at once: a call for
// each would copy three arrays and do nothing else.
pub fn descend(
    join: &Join,
    window: &mut Window,
    depth: usize,
    above: [usize; MAX_ATOMS],
    owned: [usize; MAX_ATOMS],
    found: [u64; Query::MAX_VARIABLES],
    before: u64,
) -> u64
    requires standing { Standing join.now.leap.pool.now join.now.plan.now join.now.leap.ends.now join.now.n depth above owned }
    requires ready { Open join.now.n window.old }
    ensures kept { Kept window.old window.new }
    ensures completes { Completes join.now.leap.pool.now join.now.plan.now join.now.leap.ends.now join.now.n depth above owned found window.old.words.now window.old.rows before window.new.words.now window.new.rows window.new.full result }
{
    if depth == join.n {
        window.emit(&found);
        return before;
    }
    let v = join.plan[depth].variable;
    let k = join.plan[depth].count;
    let last = depth + 1 == join.n;
    let mut state = State::begin(above, owned);
    let mut ring = [0usize; MAX_ATOMS];
    let mut by_atom = [0usize; MAX_ATOMS];
    let first = open(join, depth, &mut state, &mut ring, &mut by_atom, before);
    let mut landed = first.landed;
    let mut seeks = first.seeks;
    let mut row = found;
    while let Landed::Key { key, p } = landed {
        row[v] = key;
        let below = if last {
            window.emit(&row);
            seeks
        } else {
            descend(join, window, depth + 1, state.at, state.own, row, seeks)
        };
        if window.full {
            return below;
        }
        let next = onward(join, &mut state, &ring, &by_atom, k, p, last, below);
        landed = next.landed;
        seeks = next.seeks;
    }
    seeks
}
