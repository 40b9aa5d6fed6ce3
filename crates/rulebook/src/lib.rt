//! Rulebooks: figures and their letters, hours, and what a rulebook says of a product.
#![tactic(auto)]

mod band;
mod faults;
mod figures;
mod hours;
mod laws;
mod letters;
mod rulebook;

pub use band::Band;
pub use faults::{FigureFault, RuleFault};
pub use figures::Figures;
pub use hours::HoursClass;
pub use laws::{first_lacking_letter, open_in_its_hours};
pub use letters::Letter;
pub use rulebook::Rulebook;
