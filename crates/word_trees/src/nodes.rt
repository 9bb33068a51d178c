//! Trees of nodes over words: a node, then its left half, then its right half.

ghost use Rattle.std.specs.Prelude.{◌⊎◌, true, false, ◌≡◌, ◌<◌, ◌≤◌, ◌+◌, ◌^◌, length};
ghost use Rattle.word_trees.specs.Numbers.{most, raised};
ghost use Rattle.word_trees.specs.Trees.{wide, nodes, words, IsTree};

/// A node: the number to which all its words were raised at once, and the greatest of its words.
#[derive(Clone, Copy, Debug, PartialEq, Eq)]
pub(crate) struct Node {
    pub full: u64,
    pub top: u64,
}

/// Whether the words of a tree lie outside a range.
fn is_apart(width: usize, low: usize, first: usize, end: usize) -> bool
    requires { low + width < 2 ^ 63 }
    ensures apart { result ≡ true → end ≤ low ⊎ low + width ≤ first }
    ensures near { result ≡ false → (low < end) × (first < low + width) }
{
    end <= low || low + width <= first
}

/// Whether the words of a tree lie inside a range.
fn is_inside(width: usize, low: usize, first: usize, end: usize) -> bool
    requires { low + width < 2 ^ 63 }
    ensures inside { result ≡ true → (first ≤ low) × (low + width ≤ end) }
    ensures else_not { result ≡ false → (first ≤ low) × (low + width ≤ end) → ⊥ }
{
    first <= low && low + width <= end
}

/// The greatest number of the words of a range.
pub(crate) fn greatest(
    tree: &[Node],
    depth: usize,
    width: usize,
    low: usize,
    first: usize,
    end: usize,
) -> u64
    requires tree { IsTree depth tree.now }
    requires nodes { length tree.now ≡ nodes depth }
    requires width { width ≡ wide depth }
    requires places { low + width < 2 ^ 63 }
    requires range { first < end }
    ensures most { result ≡ most low first end (words depth tree.now) }
{
    if is_apart(width, low, first, end) {
        return 0;
    }
    if is_inside(width, low, first, end) {
        return tree[0].top;
    }
    let half = width / 2;
    let (_root, below) = tree.split_at(1);
    let (left, right) = below.split_at(width - 1);
    let before = greatest(left, depth - 1, half, low, first, end);
    let behind = greatest(right, depth - 1, half, low + half, first, end);
    tree[0].full.max(before.max(behind))
}

/// Raises the numbers of the words of a range: each becomes at least that number.
pub(crate) fn raise(
    tree: &mut [Node],
    depth: usize,
    width: usize,
    low: usize,
    first: usize,
    end: usize,
    number: u64,
)
    requires tree { IsTree depth tree.old }
    requires nodes { length tree.old ≡ nodes depth }
    requires width { width ≡ wide depth }
    requires places { low + width < 2 ^ 63 }
    requires range { first < end }
    ensures words { words depth tree.new ≡ raised low first end number (words depth tree.old) }
    ensures tree { IsTree depth tree.new }
    ensures nodes { length tree.new ≡ nodes depth }
{
    if is_apart(width, low, first, end) {
        return;
    }
    let node = tree[0];
    let top = node.top.max(number);
    if is_inside(width, low, first, end) {
        let full = node.full.max(number);
        tree[0] = Node { full, top };
        return;
    }
    let half = width / 2;
    let (root, below) = tree.split_at_mut(1);
    let (left, right) = below.split_at_mut(width - 1);
    root[0] = Node {
        full: node.full,
        top,
    };
    raise(left, depth - 1, half, low, first, end, number);
    raise(right, depth - 1, half, low + half, first, end, number);
}
