// The library that a host written in C links: each function is exported under the name and with the types that host/berxundar.h has, calls the
// function of its name in crate host, changing, asking or slowly, and promises what that one promises.
#![tactic(auto)]

mod changes;
mod files;
mod questions_asked;
mod slow_engine;
