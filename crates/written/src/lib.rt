// Sheets written as text (document 02, W-201): what a written sheet is, which texts show it, and which table it is.
#![tactic(auto)]

ghost use Rattle.std.specs.Prelude.{◌≡◌};

// The crate's promises are its theorems; a crate has a function, so here is one.
pub fn same(x: usize) -> usize
    ensures { result ≡ x }
{
    x
}
