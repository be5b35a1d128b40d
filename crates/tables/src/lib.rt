// Tables of examples: writers, streams, shared streams and scripts. Each test is proved to be safe, and then run.
#![tactic(auto)]

#[cfg(test)]
mod scripts;
#[cfg(test)]
mod shares;
#[cfg(test)]
mod streams;
#[cfg(test)]
mod writers;
