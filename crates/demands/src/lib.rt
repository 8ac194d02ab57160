// The three demands and what the layout says, stated in specs/ over the definitions that the contracts cite, and proved in proofs/.
#![tactic(auto)]

ghost use Rattle.demands.specs.Beginnings.{Beginnings};
ghost use Rattle.demands.specs.BusyList.{BusyList};
ghost use Rattle.demands.specs.DemandOne.{DemandOne};
ghost use Rattle.demands.specs.DemandThree.{DemandThree};
ghost use Rattle.demands.specs.DemandTwo.{DemandTwo};
ghost use Rattle.demands.specs.Layouts.{Layouts};
ghost use Rattle.demands.specs.Spreads.{Spreads};

// Nothing is computed here: the contract names each statement, so that the crate does not build while one of them is unproved.
pub fn stated()
    ensures demand_one { DemandOne }
    ensures demand_two { DemandTwo }
    ensures demand_three { DemandThree }
    ensures beginnings { Beginnings }
    ensures busy_list { BusyList }
    ensures layouts { Layouts }
    ensures spreads { Spreads }
{}
