//! A space for programs in other languages: one export for each thing that it is asked or that can
//! be seen of it. Each takes the host from its handle, calls it, and puts it back.
#![tactic(auto)]

mod asking;
mod counts;
mod life;
mod looks;
mod streams;
