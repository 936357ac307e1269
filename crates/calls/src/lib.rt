// The runner's calls and their answers as data, in specs/: what lists are made of, and what a line of the session card stands for.
#![tactic(auto)]
