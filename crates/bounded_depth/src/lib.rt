// Internal: the function here asks something of its caller by a `requires`. The opening of a depth of a join that goes on after a given row: the depth is
// opened as any other (crates/join_depths), and its leapfrog seeks the row's word, so that no key before it is listed only to be skipped.
#![tactic(auto)]

ghost use Rattle.std.specs.Prelude.{◌<◌};
ghost use Rattle.join_depths.specs.Depth.{Standing, Fresh};
ghost use Rattle.bounded_depth.specs.From.{DepthFrom};

use join_depths::depth::open;
use join_openings::Join;
use leapfrog_search::Landed;
use query::MAX_ATOMS;
use stretches::State;
use whole_seek::whole_seek;

// Opens a depth and finds its first key not below `target`.
pub fn open_from(
    join: &Join,
    depth: usize,
    state: &mut State,
    ring: &mut [usize; MAX_ATOMS],
    by_atom: &mut [usize; MAX_ATOMS],
    target: u64,
) -> Landed
    requires standing { Standing join.now.leap.pool.now join.now.plan.now join.now.leap.ends.now join.now.n depth state.old.at state.old.own }
    requires depth_lt_n { (depth < join.now.n) × Fresh state.old join.now.leap.ends.now ring.old by_atom.old }
    ensures { DepthFrom join.now.leap.pool.now join.now.plan.now join.now.leap.ends.now join.now.n depth state.old.at state.old.own state.new ring.new by_atom.new target result }
{
    let first = open(join, depth, state, ring, by_atom, 0);
    let landed = first.landed;
    let Landed::Key { key: _, p: _ } = landed else {
        return landed;
    };
    let k = join.plan[depth].count;
    let s = whole_seek(&join.leap, state, by_atom, k, 0, target);
    s.landed
}
