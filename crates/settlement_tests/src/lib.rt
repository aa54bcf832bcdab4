//! Tests of the settlement book by its public calls.
#![tactic(auto)]

#[cfg(test)]
mod brings;
#[cfg(test)]
mod daily_quantities;
#[cfg(test)]
mod new_book;
#[cfg(test)]
mod owner;
#[cfg(test)]
mod points;
#[cfg(test)]
mod prints;
#[cfg(test)]
mod small_book;
#[cfg(test)]
mod statements;
