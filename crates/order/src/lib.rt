// The order of hops does not matter: theorems only, in specs/Order.antt; specs/Owed.antt has those of the
// hops owed. There is no code here.
#![tactic(auto)]
