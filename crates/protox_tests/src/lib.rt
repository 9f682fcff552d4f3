//! Runs that the lines of a program can't show: laws, equality of large answers, and writers that
//! refuse. Other calls are lines of the program `callcases`, and cases of `protocases`.
#![tactic(auto)]

#[cfg(test)]
mod copying;
#[cfg(test)]
mod laws;
#[cfg(test)]
mod lexing;
#[cfg(test)]
mod parsing;
#[cfg(test)]
mod printing;
#[cfg(test)]
mod running;
