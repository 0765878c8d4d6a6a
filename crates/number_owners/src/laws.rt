//! Laws of the functions in which sites and events stand. Each function does nothing: its clauses
//! are the laws.

ghost use Rattle.number_owners.specs.EventLaws.{
  LiftedHaveOwnEvents,
  RenamedEventsStay,
  SuppliedEventsAreTaken,
  WrittenOwnersAreTrees,
};
ghost use Rattle.number_owners.specs.SiteLaws.{AcceptedProgramsHaveOwners, LiftedHaveOwnSites};

/// The functions in which the sites of a program's trees stand, in the order of the text, are those
/// that the entries of an accepted program's table of sites name, whatever the names of its
/// variables. So the entries that name a lifted function are the sites of its tree.
pub fn sites_are_their_functions()
    ensures accepted { AcceptedProgramsHaveOwners }
    ensures lifted { LiftedHaveOwnSites }
{}

/// The events of a program's trees that stand in a function, in the order of the text, are those of
/// its lifted tree. Renaming leaves them.
pub fn events_are_their_functions()
    ensures renamed { RenamedEventsStay }
    ensures lifted { LiftedHaveOwnEvents }
{}

/// The functions in which the events of a program's trees stand can be told from its syntax, where
/// no form is refused. A tree has the numbers of events that are supplied to it, where these are as
/// many.
pub fn events_of_trees_are_written()
    ensures owners { WrittenOwnersAreTrees }
    ensures taken { SuppliedEventsAreTaken }
{}
