//! Laws of bindings and declarations. A law is a theorem, stated as a function with an empty body.

ghost use Rattle.nj_scope.specs.Cited.{LastBindingCounts, OthersAreInherited, OthersKeepTheirs, InForceIsDeclared, IsInReadingOrder, gathered, rule_given, pool_given, scope_given, path_named};

/// The value of a name, by the statements that were read: the last binding in its own scope wins,
/// with the values that names had before it; without a binding there, the scopes around it decide;
/// and no scope changes the bindings of another.
pub fn values_by_reading_order()
    ensures last_counts { LastBindingCounts }
    ensures inherited { OthersAreInherited }
    ensures kept { OthersKeepTheirs }
{}

/// A rule that is in force under a name has that name, and the scope or one around it declares the
/// rule, unless it is `phony`.
pub fn rules_in_force()
    ensures { InForceIsDeclared }
{}

/// The rules that are declared, the pools, the scopes that are opened and the paths of opened
/// files, in reading order: the k-th is that of the k-th statement that declares or opens one, by
/// the statements before it, and there are no others.
pub fn lists_by_reading_order()
    ensures rules { IsInReadingOrder rule_given (gathered rule_given) }
    ensures pools { IsInReadingOrder pool_given (gathered pool_given) }
    ensures scopes { IsInReadingOrder scope_given (gathered scope_given) }
    ensures files { IsInReadingOrder path_named (gathered path_named) }
{}
