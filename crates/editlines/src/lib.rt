// Which lines read edit reads, and as which edits: theory, with no functions.
#![tactic(auto)]
