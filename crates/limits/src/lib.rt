// Theorems only: what the limit on devices decides, and what it does not. The statements are in specs/Limits.antt.
#![tactic(auto)]
