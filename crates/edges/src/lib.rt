// The documents' edges, in tables, stated in specs/ and proved by computing.
#![tactic(auto)]

ghost use Rattle.edges.specs.Edges.{Edges};
ghost use Rattle.edges.specs.Spreads.{Spreads};

// Nothing is computed here: the contract names each table, so that the crate does not build while an edge is unproved.
pub fn stated()
    ensures edges { Edges }
    ensures spreads { Spreads }
{}
