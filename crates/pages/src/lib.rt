// Pages (document 01, "Entries and pages"): definitions and laws of running, undoing and the journal, for any number of places and any
// kind of entry. No code.
#![tactic(auto)]
