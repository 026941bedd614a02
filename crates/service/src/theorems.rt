// What is proved of openings and services beyond the answer of a single call.
ghost use Rattle.service.specs.AnyTerms.{AnyTerms};
ghost use Rattle.service.specs.Prices.{PricesAreJudged};

use crate::service::Service;
use design::Design;

// The answer to a list of prices says what is right or wrong with it, and costs never pass 32 bits.
pub fn prices_are_judged() -> u8
    ensures { PricesAreJudged }
{
    0
}

// A service stands by its own terms, and what it answers by them, it answers by any that it stands by.
pub fn any_terms_hold<D: Design>(_service: &Service<D>) -> u8
    ensures { AnyTerms _service.now }
{
    0
}
