// The meaning of a sheet: what a grammar, a tree and an answer is, how a line is read, and by which published rules.
//
// specs/Grammar, Rules, Reading and Report are what a reader must believe: the words of documents 01 and 003.
// specs/Decide computes which rules are left-recursive and which grammars are free; proofs/Decided shows that it says what Report says.
// proofs/ shows that the reading is the one that the rules describe; proofs/Claims puts it together.
// proofs/Needed: it is enough that the left-recursive rules become live; match and tree are those where every rule does.
// proofs/Repeating: in a grammar without repetitions of nothing a repetition's child consumes, so that rep.3 is used in no reading.
// proofs/Choose and proofs/Sets have small laws that all crates share: what a test decides, and numbers written into a list.
#![tactic(auto)]

ghost use Rattle.std.specs.Prelude.{◌≡◌};

// The crate's promises are its theorems; a crate has a function, so here is one.
pub fn same(x: usize) -> usize
    ensures { result ≡ x }
{
    x
}
