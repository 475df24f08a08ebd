//! What lines of points are, and the ids of their names by first coming: definitions and lemmas alone.
#![tactic(auto)]
