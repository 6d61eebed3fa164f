// What the entries of all sections share: an old row beside a predicted one, and an old place.
#![tactic(auto)]

pub mod choices;
pub mod fields;
pub mod old_places;
