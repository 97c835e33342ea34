#![tactic(auto)]

// An example of rules with a full book, in specs/. It takes nearly as long as rule_examples.
