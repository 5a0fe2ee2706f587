// The bytes of a netlist file, from what it lists: definitions and laws only, see specs/ and proofs/.
#![tactic(auto)]
