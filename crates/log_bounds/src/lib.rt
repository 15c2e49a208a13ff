// No answer to a line of a call log is longer than a limit: laws alone, above what the lines print and below their run.
#![tactic(auto)]
