// What the table has for a node and for a rule: its kind, its fields, its root.
// (These and visit_range take what is given and the table apart: by the Basis, of which they are parts, five lines of 60 digits by a free sheet take 340,806 instructions
// instead of 334,666, and a line of 95 bytes by the sum sheet 197,692 instead of 191,721.)
ghost use Rattle.std.specs.Prelude.{◌≡◌, ◌<◌};
ghost use Rattle.layout.specs.Table.{nodes_of, rules_of, root_of, kind_of, a_of, b_of};
ghost use Rattle.layout.specs.Layout.{Laid};
ghost use Rattle.visits.specs.Given.{numbers, lent, HasNode};

use crate::Given;

pub(crate) fn kind_of(given: &Given, table: &[u8], node: u32) -> u32
    requires { HasNode (lent table.now (numbers given.now)) node }
    ensures { (result ≡ kind_of table.now node) × (result < 7) }
{
    layout::kind_from(table, given.first_node as usize, node as usize) as u32
}

pub(crate) fn a_of(given: &Given, table: &[u8], node: u32) -> u32
    requires { HasNode (lent table.now (numbers given.now)) node }
    ensures { (result ≡ a_of table.now node) × (result < 512) }
{
    layout::field_a_from(table, given.first_node as usize, node as usize) as u32
}

pub(crate) fn b_of(given: &Given, table: &[u8], node: u32) -> u32
    requires { HasNode (lent table.now (numbers given.now)) node }
    ensures { (result ≡ b_of table.now node) × (result < 512) }
{
    layout::field_b_from(table, given.first_node as usize, node as usize) as u32
}

pub(crate) fn root_of(table: &[u8], rule: u32) -> u32
    requires { Laid table.now × (rule < rules_of table.now) }
    ensures { (result ≡ root_of table.now rule) × (result < nodes_of table.now) }
{
    layout::root(table, rule as usize) as u32
}
