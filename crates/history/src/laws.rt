//! The law of the day, on the contracts of functions that do nothing else.
ghost use Rattle.history.specs.Law.{Law, ListedContractsHaveProducts, NoCollarTakesNothing};

/// Every day whose calls were answered as the rules fix is sound, under every rulebook.
#[tactic(auto, using(crate::proofs::Whole::law))]
pub fn every_lawful_day_is_sound() -> bool
    ensures { Law }
{
    true
}

/// Where there is no collar, no price of the band is taken away.
#[tactic(auto, using(crate::proofs::Collarless::no_collar_takes_nothing))]
pub fn no_collar_takes_nothing() -> bool
    ensures { NoCollarTakesNothing }
{
    true
}

/// In every lawful day, under every rulebook, a contract that is listed has a product: what the rulebook
/// says of its prices is a band or the first letter that is lacking, never that the product is absent.
#[tactic(auto, using(crate::proofs::Listed::listed_contracts_have_products))]
pub fn listed_contracts_have_products() -> bool
    ensures { ListedContractsHaveProducts }
{
    true
}
