// Theorems only: the three demands, and the hops owed. They are stated in specs/Demands.antt, which can be read by
// itself.
#![tactic(auto)]
