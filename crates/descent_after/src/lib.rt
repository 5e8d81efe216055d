// Internal: the function here asks something of its caller by a `requires`. The descent of a join that goes on after a given row. At each depth the leapfrog seeks
// the row's word: where it stands on that very word the descent goes down with the bound, and from the next key on without it.
#![tactic(auto)]

ghost use Rattle.join_window.specs.Window.{Open, Kept};
ghost use Rattle.join_depths.specs.Depth.{Standing};
ghost use Rattle.descent_after.specs.Descent.{DescendedAfter};

use bounded_depth::open_from;
use join_depths::depth::onward;
use join_openings::Join;
use join_query::Query;
use join_window::Window;
use leapfrog_search::Landed;
use query::MAX_ATOMS;
use rest_of_depth::walk_rest;
use stretches::State;

// Writes the rows that complete `found`, from depth `depth` on, and come after the given row's words there, which `bounds` has, behind those that the window holds, until it is full. With
// no depth left that is the given row itself, which is not written.
pub fn descend_after(
    join: &Join,
    depth: usize,
    above: [usize; MAX_ATOMS],
    owned: [usize; MAX_ATOMS],
    found: [u64; Query::MAX_VARIABLES],
    bounds: [u64; Query::MAX_VARIABLES],
    window: &mut Window,
)
    requires standing { Standing join.now.leap.pool.now join.now.plan.now join.now.leap.ends.now join.now.n depth above owned }
    requires ready { Open join.now.n window.old }
    ensures kept { Kept window.old window.new }
    ensures descended { DescendedAfter join.now.leap.pool.now join.now.plan.now join.now.leap.ends.now join.now.n depth above owned found bounds window.old.words.now window.old.rows window.new.words.now window.new.rows window.new.full }
{
    if depth == join.n {
        return;
    }
    let v = join.plan[depth].variable;
    let k = join.plan[depth].count;
    let bound = bounds[v];
    let mut state = State::begin(above, owned);
    let mut ring = [0usize; MAX_ATOMS];
    let mut by_atom = [0usize; MAX_ATOMS];
    let landed = open_from(join, depth, &mut state, &mut ring, &mut by_atom, bound);
    let Landed::Key { key, p } = landed else {
        return;
    };
    if key != bound {
        return walk_rest(join, depth, state, ring, by_atom, landed, found, window);
    }
    let mut row = found;
    row[v] = key;
    descend_after(join, depth + 1, state.at, state.own, row, bounds, window);
    if window.full {
        return;
    }
    let next = onward(
        join,
        &mut state,
        &ring,
        &by_atom,
        k,
        p,
        depth + 1 == join.n,
        0,
    );
    let then = next.landed;
    walk_rest(join, depth, state, ring, by_atom, then, found, window)
}
