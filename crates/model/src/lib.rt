// The store as mathematics: specs/ has its definitions, proofs/ their laws. There is no code here.
#![tactic(auto)]
