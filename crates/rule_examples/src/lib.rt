#![tactic(auto)]

// Examples of rules only, in specs/.
