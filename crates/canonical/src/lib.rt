// The canonical form of a netlist, 02: standard form (M-101): definitions in specs/, theorems in proofs/.
#![tactic(auto)]
