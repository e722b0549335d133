// Trees put into cells, and how many cells are in use.
ghost use Rattle.std.specs.Prelude.{◌≡◌, ◌+◌, ◌<◌};
ghost use Rattle.meaning.specs.Grammar.{no_trees, tree, ◌⋈◌};
ghost use Rattle.cells.specs.Cells.{trees_at};
ghost use Rattle.visits.specs.Words.{top_in, HasList, HasLists, HasCell, Adds};
ghost use Rattle.visits.specs.Says.{end_in, list_in};

use crate::{TOP, answer};

// The answer that ends there with two lists of trees joined.
pub(crate) fn joined(work: &mut [u32], end: u32, left: u32, right: u32) -> u64
    requires lists { HasLists work.old left right }
    requires cell { HasCell work.old }
    ensures { (end_in result ≡ end) × Adds work.old work.new (list_in result) (trees_at work.old left ⋈ trees_at work.old right) }
{
    let top = work[TOP];
    let held = cells::join(work, top, left, right);
    work[TOP] = held.top;
    answer(end, held.list)
}

// The list of one tree: a rule, where it starts and ends, its children.
pub(crate) fn planted(work: &mut [u32], rule: u32, start: u32, end: u32, children: u32) -> u32
    requires lists { HasList work.old children }
    requires cell { HasCell work.old }
    requires small { (rule < 64) × ((start < 4096) × (end < 4096)) }
    ensures added { Adds work.old work.new result (tree rule start end (trees_at work.old children) no_trees) }
    ensures list { (result ≡ top_in work.old + 1) × (top_in work.new ≡ result) }
{
    let top = work[TOP];
    cells::put_tree(work, top, rule, start, end, children);
    work[TOP] = top + 1;
    top + 1
}
