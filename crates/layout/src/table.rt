// A table that is laid out well: the rows from SHORT to FIELD refuse nothing of its bytes. Its counts are read once.
ghost use Rattle.std.specs.Prelude.{◌≡◌, ◌<◌, ◌≤◌};
ghost use Rattle.layout.specs.Table.{nodes_of, most_nodes, rules_of, most_rules, root_of};
ghost use Rattle.layout.specs.Layout.{READ, layout_of, Laid};

use crate::Node;

#[derive(Clone, Copy)]
pub struct Table<'a> {
    pub bytes: &'a [u8],
    nodes: usize,
    rules: usize,
    pub ghost laid: { (layout_of bytes.now).code ≡ READ },
    ghost few: { (0 < nodes) × (nodes ≤ most_nodes) × (0 < rules) × (rules ≤ most_rules) },
    pub ghost counted: { (nodes ≡ nodes_of bytes.now) × (rules ≡ rules_of bytes.now) },
}

impl<'a> Table<'a> {
    ghost use Rattle.layout.specs.Nodes.{IsNode};

    #[tactic(auto, unfolding(crate::specs::Layout::Laid))]
    pub fn of(bytes: &'a [u8]) -> Table<'a>
        requires { Laid bytes.now }
        ensures { result.bytes.now ≡ bytes.now }
    {
        let nodes = crate::node_count(bytes);
        let rules = crate::rule_count(bytes);
        Table {
            bytes,
            nodes,
            rules,
        }
    }

    pub fn node_count(&self) -> usize
        ensures { (result ≡ nodes_of self.now.bytes.now) × (0 < result) × (result ≤ most_nodes) }
    {
        self.nodes
    }

    pub fn rule_count(&self) -> usize
        ensures { (result ≡ rules_of self.now.bytes.now) × (0 < result) × (result ≤ most_rules) }
    {
        self.rules
    }

    #[tactic(auto, unfolding(crate::specs::Layout::Laid))]
    pub fn root(&self, rule: usize) -> usize
        requires { rule < rules_of self.now.bytes.now }
        ensures { (result ≡ root_of self.now.bytes.now rule) × (result < nodes_of self.now.bytes.now) }
    {
        crate::root(self.bytes, rule)
    }

    #[tactic(auto, unfolding(crate::specs::Layout::Laid))]
    pub fn node(&self, i: usize) -> Node
        requires { i < nodes_of self.now.bytes.now }
        ensures { IsNode self.now.bytes.now i result }
    {
        crate::node_from(self.bytes, 7 + 2 * self.rules, i)
    }
}
