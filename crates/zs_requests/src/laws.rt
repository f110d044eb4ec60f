//! Laws over the definitions: each is the contract of a function that does nothing.

ghost use Rattle.zs_requests.specs.Drawn.{ValuesAreTold, EndedRequestsStay};

/// A query value is unfinished exactly where it was drawn and not given back since.
pub fn values_are_told()
    ensures { ValuesAreTold }
{}

/// A request of which no query value is unfinished never has one again.
pub fn ended_requests_stay()
    ensures { EndedRequestsStay }
{}
