//! What a search over a memo is, by the law of rules alone: its bindings and firings, and when it may stop.
#![tactic(auto)]
