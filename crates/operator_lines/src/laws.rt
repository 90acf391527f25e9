//! What is true of these lines.

ghost use Rattle.operator_lines.specs.Laws.{ClientsKnowNone, ListsAreOfOwners};

/// The clients' table has no operator's operation: to each operator's line the clients' reader answers that there is no
/// such operation.
pub fn clients_know_none()
    ensures { ClientsKnowNone }
{}

/// The lists of roles that are made of a table have of each node the roles that it owns, so a decision by them goes by
/// that owner's word.
pub fn lists_are_of_owners()
    ensures { ListsAreOfOwners }
{}
