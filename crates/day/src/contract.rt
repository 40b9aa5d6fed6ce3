//! A listed contract.
use super::collar::Collar;
use rulebook::Figures;

#[derive(Clone, Copy, PartialEq, Eq, Debug)]
pub struct Contract {
    pub product: u64,
    pub figures: Figures,
    pub collar: Option<Collar>,
    pub halted: bool,
}
