//! The laws of a company's exposures and return rates.
ghost use Rattle.desk_book.specs.SumLaws.{ExposuresGrow, RatesStay};

/// A new submission or retry adds its cents to its company's exposure in its direction, and to no
/// other.
pub fn exposures_grow()
    ensures { ExposuresGrow }
{}

/// A new submission or retry changes no return rates.
pub fn rates_stay()
    ensures { RatesStay }
{}
