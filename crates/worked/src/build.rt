// Sheets made in memory: tables of nodes and of the roots of rules.
ghost use Rattle.std.specs.Prelude.{◌≤◌, length};

use layout::Node;

// More than 513 nodes and 65 rules take.
const SPACE: usize = 2_704;

pub(crate) fn range(lowest: u8, highest: u8) -> Node {
    Node::Range(usize::from(lowest), usize::from(highest))
}

pub(crate) fn byte(byte: u8) -> Node {
    range(byte, byte)
}

// A sheet's table, so many bytes from the front. An array with its length beside, in one struct: nodes are written in any order, and it is cut anywhere.
#[derive(Drop)]
pub(crate) struct Sheet {
    bytes: [u8; SPACE],
    length: usize,
}

impl Sheet {
    // So many nodes and rules, every node empty and every root 0.
    pub(crate) fn blank(nodes: usize, rules: usize) -> Sheet
        requires { (nodes ≤ 513) × (rules ≤ 65) }
    {
        let mut sheet = Sheet {
            bytes: [0; SPACE],
            length: 7 + 2 * rules + 5 * nodes,
        };
        let length = sheet.length;
        sheet.put_version(1);
        sheet.put_pair(1, length);
        sheet.put_counts(nodes, rules);
        sheet
    }

    // The root of each rule, and each node.
    pub(crate) fn new(roots: &[usize], nodes: &[Node]) -> Sheet
        requires { (length nodes.now ≤ 513) × (length roots.now ≤ 65) }
    {
        let mut sheet = Sheet::blank(nodes.len(), roots.len());
        for (rule, root) in roots.iter().enumerate() {
            sheet.put_root(rule, *root);
        }
        for (i, node) in nodes.iter().enumerate() {
            sheet.put(i, *node);
        }
        sheet
    }

    pub(crate) fn bytes(&self) -> &[u8] {
        page::front(&self.bytes, self.length)
    }

    // Cuts the table after so many bytes, or adds bytes 0; what it says of itself stays.
    pub(crate) fn set_length(&mut self, length: usize) {
        self.length = length;
    }

    pub(crate) fn put_version(&mut self, version: u8) {
        self.bytes[0] = version;
    }

    pub(crate) fn put_counts(&mut self, nodes: usize, rules: usize) {
        self.put_pair(3, nodes);
        self.put_pair(5, rules);
    }

    // Two bytes, the higher first.
    fn put_pair(&mut self, at: usize, number: usize) {
        if at < SPACE - 1 {
            let [high, low] = ((number % 65_536) as u16).to_be_bytes();
            self.bytes[at] = high;
            self.bytes[at + 1] = low;
        }
    }

    pub(crate) fn put_root(&mut self, rule: usize, node: usize) {
        if rule < 65 {
            self.put_pair(7 + 2 * rule, node);
        }
    }

    // Node i by its kind and both fields, be they right or wrong.
    pub(crate) fn put_fields(&mut self, i: usize, kind: u8, a: usize, b: usize) {
        if i < 513 {
            let at = 7 + 2 * usize::from(self.bytes[6]) + 5 * i;
            if at < SPACE {
                self.bytes[at] = kind;
            }
            self.put_pair(at + 1, a);
            self.put_pair(at + 3, b);
        }
    }

    pub(crate) fn put(&mut self, i: usize, node: Node) {
        match node {
            Node::Empty => self.put_fields(i, 0, 0, 0),
            Node::Range(lowest, highest) => self.put_fields(i, 1, lowest, highest),
            Node::Rule(rule) => self.put_fields(i, 2, rule, 0),
            Node::Sequence(first, second) => self.put_fields(i, 3, first, second),
            Node::Choice(first, second) => self.put_fields(i, 4, first, second),
            Node::Not(child) => self.put_fields(i, 5, child, 0),
            Node::Repetition(child) => self.put_fields(i, 6, child, 0),
        }
    }
}
