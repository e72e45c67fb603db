//! What it means that a reader of tokens is exact for a form, and how readers that are put together stay exact.
#![tactic(auto)]
