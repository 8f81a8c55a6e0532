// Theorems only: a sound device stays sound. The statements are in specs/Keeps.antt.
#![tactic(auto)]
