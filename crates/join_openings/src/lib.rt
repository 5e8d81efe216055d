// Internal: every function here asks something of its caller by a `requires`. The opening of the atoms that take part at a depth of a join, by its plan
// (crates/join_plan) alone: each stands at the start of its group, or at the first column of a table that is laid over another on the first piece of both tables'
// first keys.
#![tactic(auto)]

ghost use Rattle.std.specs.Prelude.{◌≡◌};
ghost use Rattle.stretches.specs.Stand.{stand_of, Sized};
ghost use Rattle.join_openings.specs.Openings.{group_low, group_high, table_of, Readable, OneOpenable, OpensOne, Openable, Arrays, OpenedAll};

use column_trie::{Group, interval_or};
use join_plan::{AtomPlan, LayerPlan, Plan};
use query::MAX_ATOMS;
use stretches::{Leap, State, take_stretch};

// What a join is made of: what its leapfrogs read, its plan (crates/join_plan), and how many variables its query has. `join` and `list_after` each make one: plan
// and ends lie with them, since a function can't lend what it made, and to hand the plan back costs the stack (crates/join_plan, `Plan`).
#[derive(Clone, Copy)]
pub struct Join<'a> {
    pub leap: Leap<'a>,
    pub plan: &'a Plan,
    pub n: usize,
}

// The group under the key at `place`, in the layer that is opened, by its places of the pool.
fn group_under(pool: &[u64], layer: &LayerPlan, place: usize) -> Group
    requires { Readable pool.now layer.now place }
    ensures { (result.from ≡ group_low pool.now layer.now place) × (result.to ≡ group_high pool.now layer.now place) }
{
    let i = place - layer.above;
    let count = layer.key_count;
    let intervals = layer.intervals;
    let n = layer.interval_count;
    Group {
        from: layer.keys + interval_or(pool, intervals, n, i, count),
        to: layer.keys + interval_or(pool, intervals, n, i + 1, count),
    }
}

// The opening of the table that an atom's words lie in: 0 its own, 1 its second one.
fn table_of<'a>(opening: &'a AtomPlan, own: usize) -> &'a LayerPlan
    ensures { result.now ≡ table_of opening.now own }
{
    if own == 0 {
        return &opening.school;
    }
    &opening.maker
}

// Opens an atom: under its present key, in the table that the key is of; at the first column of one that is laid over, both tables' first keys. False where
// there are none.
fn open_one(join: &Join, opening: &AtomPlan, state: &mut State) -> bool
    requires sized { Sized state.old join.now.leap.ends.now }
    requires one_openable { OneOpenable join.now.leap.pool.now join.now.leap.ends.now opening.now (stand_of state.old join.now.leap.ends.now opening.now.atom) }
    ensures { OpensOne join.now.leap.pool.now join.now.leap.ends.now opening.now state.old state.new result }
{
    let a = opening.atom;
    if opening.both {
        let x = opening.school.keys;
        let y = opening.maker.keys;
        return take_stretch(&join.leap, state, a, x, y, 0);
    }
    let layer = table_of(opening, state.own[a]);
    if layer.key_count == 0 {
        return false;
    }
    let g = group_under(join.leap.pool, layer, state.at[a]);
    state.at[a] = g.from;
    state.end[a] = g.to;
    true
}

// Opens the atoms that take part at a depth, with both rings in atom order; false where one has no keys. State and rings are no struct: a leapfrog's call takes the one
// ring or the other, and `onward` writes the state and only reads the rings, which a struct lent to be written would need a clause to say.
pub fn open_all(
    join: &Join,
    depth: usize,
    state: &mut State,
    ring: &mut [usize; MAX_ATOMS],
    by_atom: &mut [usize; MAX_ATOMS],
) -> bool
    requires openable { Openable join.now.leap.pool.now join.now.plan.now join.now.leap.ends.now depth state.old }
    requires arrays { Arrays state.old join.now.leap.ends.now ring.old by_atom.old }
    ensures { OpenedAll join.now.leap.pool.now join.now.plan.now join.now.leap.ends.now depth state.old state.new ring.new by_atom.new result }
{
    let here = &join.plan[depth];
    for j in 0..here.count {
        let opening = &here.openings[j];
        if !open_one(join, opening, state) {
            return false;
        }
        ring[j] = opening.atom;
        by_atom[j] = opening.atom;
    }
    true
}
