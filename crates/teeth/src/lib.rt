// What the demands shut out, and a worked example of the third: theorems only, so that an edit of the demands does not
// pay for what is computed here.
#![tactic(auto)]
