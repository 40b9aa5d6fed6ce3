//! Theorems about the books. Each stands on the contract of a function that does nothing else.
ghost use Rattle.books.specs.Laws.{BooksAdmitWhatTheRulesAdmit, BooksHaveTheirProducts, TheMidPriceIsNearest};
ghost use Rattle.books.specs.Worked.{WorkedCasesAreRight};

/// A price is on a book's grid and inside its band exactly when the exchange's rules admit it.
pub fn books_follow_the_rules() -> bool
    ensures { BooksAdmitWhatTheRulesAdmit }
{
    true
}

/// Each book has its products and no other, each with its hours and the letters that its rule names.
pub fn books_have_their_products() -> bool
    ensures { BooksHaveTheirProducts }
{
    true
}

/// The mid-price is the nearest multiple of the auction step to half the sum of bid and offer.
pub fn mid_price_is_nearest() -> bool
    ensures { TheMidPriceIsNearest }
{
    true
}

/// The worked cases follow from the definitions.
pub fn worked_bands() -> bool
    ensures { WorkedCasesAreRight }
{
    true
}
