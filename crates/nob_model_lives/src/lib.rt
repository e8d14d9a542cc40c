//! Where a space that comes back under its number begins: the lists of right entries after which
//! every word of a space is a new one's but for its first numbers, and the entries that lead there
//! from any right list. There is no code here: the definitions are in `specs/`, the laws in
//! [`laws`].
#![tactic(auto)]

pub mod laws;
