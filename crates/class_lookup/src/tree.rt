// Trees from names to numbers, which share what they have in common.
ghost use Rattle.std.specs.Prelude.{◌≡◌, ◌<◌, ◌++◌, ℕ, [], ◌∷◌, length, IfOk, OnOk, Some, None, slice_index_or};
ghost use Rattle.class_lookup.specs.Tree.{slot, entry, IsTree, IsPut};

use std::alloc::AllocError;

/// How many digits there are: a name leads down a tree by its digits, the lowest first.
pub const WIDTH: u32 = 16;

/// For each digit the node below; in the lowest nodes, the number that the tree has for a name.
pub type Node = [Option<u32>; 16];

/// What a tree of so many levels has for a name.
pub fn find(nodes: &[Node], levels: u32, root: Option<u32>, name: u32) -> Option<u32>
    ensures { result ≡ entry nodes.now levels root name }
{
    let mut at = root;
    let mut rest = name;
    let mut left = levels;
    while left > 0 {
        at = slot(nodes, at, rest % WIDTH);
        rest /= WIDTH;
        left -= 1;
    }
    if rest == 0 { at } else { None }
}

/// The root of a tree with a number for one more name, or another number for it. The old tree stays as it is.
pub fn put(
    nodes: &mut Vec<Node>,
    levels: u32,
    root: Option<u32>,
    name: u32,
    number: u32,
) -> Result<Option<u32>, AllocError>
    requires { IsTree nodes.old.items levels root }
    ensures { IfOk result (λ new. IsPut nodes.old.items nodes.new.items levels root name number new) }
{
    if levels == 0 {
        return Ok(Some(number));
    }
    let digit = name % WIDTH;
    let below = slot(nodes, root, digit);
    let below = put(nodes, levels - 1, below, name / WIDTH, number)?;
    let mut node = node_at(nodes, root);
    node[digit as usize] = below;
    // The answer has a name, by which the proof speaks of it.
    let made = push(nodes, node)?;
    Ok(made)
}

/// Adds a node, and gives its number. One past 32 bits fits no memory.
fn push(nodes: &mut Vec<Node>, node: Node) -> Result<Option<u32>, AllocError>
    ensures number { IfOk result (λ at. at ≡ Some (length nodes.old.items)) }
    ensures added { OnOk result (nodes.new.items ≡ nodes.old.items ++ node ∷ []) }
{
    let Ok(number) = u32::try_from(nodes.len()) else {
        return Err(AllocError);
    };
    nodes.push(node)?;
    Ok(Some(number))
}

/// The node of a number; below none there is nothing.
fn node_at(nodes: &[Node], at: Option<u32>) -> Node
    ensures slots { (digit : ℕ) → slice_index_or result digit None ≡ slot nodes.now at digit }
    ensures wide { length result ≡ 16 }
{
    match at {
        None => [None; 16],
        Some(i) => match nodes.get(i as usize) {
            None => [None; 16],
            Some(node) => *node,
        },
    }
}

/// What stands below a node at a digit.
fn slot(nodes: &[Node], at: Option<u32>, digit: u32) -> Option<u32>
    requires { digit < WIDTH }
    ensures { result ≡ slot nodes.now at digit }
{
    match at {
        None => None,
        Some(i) => match nodes.get(i as usize) {
            None => None,
            Some(node) => node[digit as usize],
        },
    }
}
