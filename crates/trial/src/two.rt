// Tries tables that take two bytes in a search: built ones with their images, loads that are refused, journeys of a scanner
// over two lent cards beside the automaton's run and beside a scanner of one byte a search, and walks over tables that carry
// nothing, beside a walk coded apart.
pub mod altering;
pub mod carried;
pub mod instances;
pub mod parting;
pub mod refusing;
pub mod stepping;
pub mod tallies;
pub mod touring;
pub mod turns;
pub mod unrolling;
pub mod variety;
