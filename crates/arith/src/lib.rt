#![tactic(auto)]

// Lemmas only: see specs/.
