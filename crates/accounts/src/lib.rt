// Theorems about rules alone: demand 3, and what else holds after every list of calls. specs/ has the statements.
#![tactic(auto)]
