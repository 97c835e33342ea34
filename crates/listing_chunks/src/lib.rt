// Theorems about definitions alone: a listing in chunks is that of the whole journal, and it stops where the journal program stops.
#![tactic(auto)]
