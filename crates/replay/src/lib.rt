// Theorems about rules alone: what surplus places matter to a call, and so what recovery from a journal rests on. specs/ has the statements.
#![tactic(auto)]
