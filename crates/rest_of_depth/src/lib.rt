// Internal: the function here asks something of its caller by a `requires`. The rest of a depth from a key on: the rows under that key and under those that
// follow it, each by the descent of crates/descent. A join that goes on after a given row does so at each depth, behind the row's word.
#![tactic(auto)]

ghost use Rattle.join_window.specs.Window.{Open, Kept};
ghost use Rattle.rest_of_depth.specs.Rest.{Underway, Walks};

use descent::descend;
use join_depths::depth::onward;
use join_openings::Join;
use join_query::Query;
use join_window::Window;
use leapfrog_search::Landed;
use query::MAX_ATOMS;
use stretches::State;

// Writes the rows under the key on which the depth's leapfrog stands as `start`, and under the keys that follow, behind those that the window holds, until it is full.
pub fn walk_rest(
    join: &Join,
    depth: usize,
    opened: State,
    ring: [usize; MAX_ATOMS],
    by_atom: [usize; MAX_ATOMS],
    start: Landed,
    found: [u64; Query::MAX_VARIABLES],
    window: &mut Window,
)
    requires underway { Underway join.now.leap.pool.now join.now.plan.now join.now.leap.ends.now join.now.n depth opened ring by_atom start }
    requires ready { Open join.now.n window.old }
    ensures kept { Kept window.old window.new }
    ensures walks { Walks join.now.leap.pool.now join.now.plan.now join.now.leap.ends.now join.now.n depth opened by_atom start found window.old.words.now window.old.rows window.new.words.now window.new.rows window.new.full }
{
    let v = join.plan[depth].variable;
    let k = join.plan[depth].count;
    let mut state = opened;
    let mut landed = start;
    while let Landed::Key { key, p } = landed {
        let mut row = found;
        row[v] = key;
        descend(join, window, depth + 1, state.at, state.own, row, 0);
        if window.full {
            return;
        }
        let next = onward(
            join,
            &mut state,
            &ring,
            &by_atom,
            k,
            p,
            depth + 1 == join.n,
            0,
        );
        landed = next.landed;
    }
}
