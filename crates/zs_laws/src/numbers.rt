//! Numbers are drawn once.

ghost use Rattle.zs_laws.specs.Fresh.{EntityNumbersAreFresh, QueryNumbersAreFresh, CancellationTokensAreFresh, QueryValuesAreFresh};
ghost use Rattle.zs_laws.specs.Naming.{EffectsNameDeclared, EarlierEffectsNameNoNewEntity};

/// The number that a declaration is answered was answered none before it: of no kind of entity, nor a get of tokens.
pub fn entity_numbers_are_fresh()
    ensures { EntityNumbersAreFresh }
{}

/// The number that a get is answered was answered no get before it.
pub fn query_numbers_are_fresh()
    ensures { QueryNumbersAreFresh }
{}

/// The number of a cancellation token was that of none before it.
pub fn cancellation_tokens_are_fresh()
    ensures { CancellationTokensAreFresh }
{}

/// The query values that an event draws were never drawn before, and ascend.
pub fn query_values_are_fresh()
    ensures { QueryValuesAreFresh }
{}

/// The entities that the effects of an event are for were declared before it, or by it.
pub fn effects_name_declared()
    ensures { EffectsNameDeclared }
{}

/// So no effect of an event is for the number that a later one is answered for an entity.
pub fn earlier_effects_name_no_new_entity()
    ensures { EarlierEffectsNameNoNewEntity }
{}
