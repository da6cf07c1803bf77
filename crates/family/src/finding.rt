//! Finding the owner of a position.
ghost use Rattle.std.specs.Prelude.{length, MatchOption};
ghost use Rattle.mesh.specs.Lists.{in_use};
ghost use Rattle.family.specs.Finding.{Answers, MixOf, AnsweredBy, Unanswered};

use figures::Mix;
use mesh::{Node, Tables};
use plane::Position;

// The mix of a node at q, where it is live and owns q.
fn mix_of(tables: &Tables, node: &Node, q: Position) -> Option<Mix>
    ensures { MatchOption result (Answers (in_use tables.now).masters node.now q → ⊥)
        (λ x. Answers (in_use tables.now).masters node.now q
        × MixOf (in_use tables.now).masters node.now q x) }
{
    if node.killer.is_some() {
        return None;
    }
    let count = tables.masters().len() as u8;
    Mix::of_owner(q, tables.vertices(node), node.masters, count)
}

// The mix of the first node that answers q.
pub(crate) fn find_mix(tables: &Tables, q: Position) -> Option<Mix>
    ensures { MatchOption result (Unanswered (in_use tables.now) q) (λ x. AnsweredBy (in_use tables.now) q x) }
{
    tables
        .nodes()
        .iter()
        .find_map(|node| mix_of(tables, node, q))
}
