ghost use Rattle.std.specs.Prelude.{◌≡◌, Some, IsSome, map};
ghost use Rattle.std.specs.Option.{option_copied, option_map};
ghost use Rattle.hy_ir.specs.Places.{arm_of_last, body_at, inner_of, lapse_of_last, part_at};
ghost use Rattle.hy_ir.specs.Places.{tree_behind, tree_of_place};
ghost use Rattle.hy_ir.specs.View.{arm_of, arms_in, code_of, last_of, part_of, parts_in, tree_of};

use crate::code::{Arm, Code, Last, Part, Tree};
use sqlite_items::at;

/// One step down in a tree: into the inner tree of the part at a place, into the body of the arm at
/// a place, or into the tree for a lapse. Places are counted from 0.
#[derive(Clone, Copy, Debug, PartialEq, Eq)]
pub enum Turn {
    Part(usize),
    Arm(usize),
    Lapse,
}

fn inner_tree(part: &Part) -> Option<&Tree>
    ensures { option_map tree_of (option_copied result) ≡ inner_of (Some (part_of part.now)) }
{
    match part {
        Part::Within { inner, .. } => Some(inner),
        Part::Do(_) => None,
    }
}

// The inner tree of the part at this place.
#[tactic(auto, using(crate::proofs::PlaceLemmas::part_at_get))]
fn inner_at(parts: &[Part], place: usize) -> Option<&Tree>
    ensures { option_map tree_of (option_copied result) ≡
        inner_of (part_at (parts_in (map part_of parts.now)) place) }
{
    match at(parts, place) {
        Some(part) => inner_tree(part),
        None => None,
    }
}

// The body of the arm at this place.
#[tactic(auto, using(crate::proofs::PlaceLemmas::body_at_get))]
fn arm_body(arms: &[Arm], place: usize) -> Option<&Tree>
    ensures { option_map tree_of (option_copied result) ≡
        body_at (arms_in (map arm_of arms.now)) place }
{
    match at(arms, place) {
        Some(arm) => Some(&arm.body),
        None => None,
    }
}

fn arm_behind(last: &Last, place: usize) -> Option<&Tree>
    ensures { option_map tree_of (option_copied result) ≡ arm_of_last (last_of last.now) place }
{
    match last {
        Last::Choose { arms } => arm_body(arms.as_slice(), place),
        Last::Receive { arms, .. } => arm_body(arms.as_slice(), place),
        Last::Give(_) | Last::Tail { .. } | Last::Raise { .. } | Last::Fail { .. } => None,
    }
}

fn lapse_behind(last: &Last) -> Option<&Tree>
    ensures { option_map tree_of (option_copied result) ≡ lapse_of_last (last_of last.now) }
{
    match last {
        Last::Receive { lapse, .. } => match lapse {
            Some(tree) => Some(tree.get()),
            None => None,
        },
        Last::Give(_)
        | Last::Tail { .. }
        | Last::Raise { .. }
        | Last::Fail { .. }
        | Last::Choose { .. } => None,
    }
}

// The tree behind one turn.
fn tree_behind_turn(tree: &Tree, turn: Turn) -> Option<&Tree>
    ensures { option_map tree_of (option_copied result) ≡ tree_behind (tree_of tree.now) turn }
{
    match turn {
        Turn::Part(place) => inner_at(tree.parts.as_slice(), place),
        Turn::Arm(place) => arm_behind(&tree.last, place),
        Turn::Lapse => lapse_behind(&tree.last),
    }
}

/// The tree at a place of the code: at the end of this way down from the body of the function.
/// The way has to lead to a tree. Its time is linear in the length of the way.
pub fn tree_at<'a>(code: &'a Code, function: usize, way: &[Turn]) -> &'a Tree
    requires { IsSome (tree_of_place (code_of code.now) function way.now) }
    ensures { tree_of_place (code_of code.now) function way.now ≡ Some (tree_of result.now) }
{
    let mut tree = match at(code.functions.as_slice(), function) {
        Some(function) => &function.body,
        None => unreachable!(),
    };
    for turn in way {
        tree = match tree_behind_turn(tree, *turn) {
            Some(behind) => behind,
            None => unreachable!(),
        };
    }
    tree
}
