// No code: definitions about lists of any kind, and their laws, which every layer above cites.
#![tactic(auto)]
