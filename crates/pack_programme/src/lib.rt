//! Linear programmes that grow row by row: the greatest sum of some variables, none of them negative, under rows that each
//! keep a weighted sum at most a right side.
//!
//! The numbers are fractions of 36 binary places in 64 bits. The programme is kept as a tableau in its present basis: one column
//! for each variable, one row for each row. A new row is written in that basis, and the simplex method goes on from there, by
//! dual steps. Now and then, and where rounding led astray, it begins anew from the rows as they were given.
//!
//! Nothing is promised of the answers but that each call is safe and ends: they are for searches whose answers are checked by
//! others. All memory is taken as a programme is made.
#![tactic(auto)]

mod basis;
mod fractions;
mod lines;
mod programme;
mod ratios;
mod tableau;
mod written;

pub use programme::Programme;
