//! The trees of kids joined to that of the opened piece, in the room that was made when it was opened.
ghost use Rattle.std.specs.Prelude.{◌≡◌, ◌≤◌, ◌+◌, length};
ghost use Rattle.event_core.specs.Finished.{boxes_on, joined_on};
ghost use Rattle.event_core.specs.Joining.{HasTreesFor};
ghost use Rattle.proof_tree.specs.Bars.{wrapped};
ghost use Rattle.proof_tree.specs.Shape.{forest_of, tree_of};
ghost use Rattle.proof_tree.specs.declared.branching.Branching.TheVariants.{Place as AtPlace};

use proof_tree::{Bar, Below, Branching, Kids, Proof};

/// The tree of a piece that was opened below these bars, and on this. It takes no memory.
pub(crate) fn joined(bars: Vec<Bar>, on: Branching, trees: Vec<Proof>, boxes: Vec<Below>) -> Proof
    requires trees { HasTreesFor on (length trees.items) }
    requires boxes { length boxes.items ≡ length bars.items + boxes_on on }
    ensures { tree_of result ≡ wrapped bars.items (joined_on on (forest_of trees.items)) }
{
    let mut boxes = boxes;
    let tree = match on {
        Branching::Cell(cell) => Proof::Branch {
            cell,
            kids: Kids::of(trees),
        },
        Branching::Place(place) => picked(place, trees, &mut boxes),
    };
    wrap_in(bars, boxes, tree)
}

/// The pick of a place with both of these trees.
fn picked(place: u32, mut trees: Vec<Proof>, boxes: &mut Vec<Below>) -> Proof
    requires trees { length trees.items ≡ 2 }
    requires boxes { 2 ≤ length boxes.old.items }
    ensures tree { tree_of result ≡ joined_on (AtPlace place) (forest_of trees.items) }
    ensures boxes { length boxes.new.items + 2 ≡ length boxes.old.items }
{
    match (trees.pop(), trees.pop(), boxes.pop(), boxes.pop()) {
        (Some(without), Some(with), Some(first), Some(second)) => Proof::Pick {
            place,
            with: first.holding(with),
            without: second.holding(without),
        },
        _ => unreachable!(),
    }
}

/// The tree below these bars, in this room.
fn wrap_in(mut bars: Vec<Bar>, mut boxes: Vec<Below>, tree: Proof) -> Proof
    requires { length boxes.items ≡ length bars.items }
    ensures { tree_of result ≡ wrapped bars.items (tree_of tree) }
{
    let mut whole = tree;
    while let Some(bar) = bars.pop() {
        let Some(room) = boxes.pop() else {
            unreachable!()
        };
        whole = Proof::Bar {
            place: bar.place,
            by: bar.by,
            kid: room.holding(whole),
        };
    }
    whole
}
