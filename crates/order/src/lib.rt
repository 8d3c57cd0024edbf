// Orderings, whose meaning is a reply for each pair and which owe two laws, and lines kept in such an order.
#![tactic(auto)]

pub mod line;
pub mod ordering;
pub mod standing;
pub mod table;
