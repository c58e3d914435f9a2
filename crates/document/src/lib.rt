// The definitions of document 01 stand in `specs/`, in its order, over the records of `model`; the table of its examples holds them.
#![tactic(auto)]
