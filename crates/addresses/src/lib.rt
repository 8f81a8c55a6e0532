// Theorems only: no two meters at one address. They are stated in specs/Addresses.antt, which can be read by itself.
#![tactic(auto)]
