// A table laid over another, a school's over a maker's: whether the two are of the same shape. A join, a lookup and a cursor give 17 where they are not, each by this test.
#![tactic(auto)]

ghost use Rattle.std.specs.Prelude.{◌≡◌, ◌≤◌};
ghost use Rattle.column_trie.specs.Limits.{max_arity};
ghost use Rattle.laid_over.specs.Shape.{same_shape};

use column_trie::ColumnTrie;

// Whether the two tables have the same arity and kinds. The callers have found the first one undamaged, or its arity that of a list.
pub fn same_shape(s: ColumnTrie, m: ColumnTrie) -> bool
    requires { s.arity ≤ max_arity }
    ensures { result ≡ same_shape s m }
{
    s.arity == m.arity && s.grade[..s.arity] == m.grade[..s.arity]
}
