//! Laws of numbered trees. Each function does nothing: its clause is the law.

ghost use Rattle.lifted_numbers.specs.NumberLaws.{
  LiftedFunctionsAreRead,
  LiftedSyntaxIsOfTrees,
  LiftingKeepsBare,
  SitesAreNumbers,
  SourcesAreBare,
  SuppliedTreesAreBare,
  TreesAreSupplied,
};

/// A tree is its bare form with its own numbers supplied, where no list notation is empty. Its
/// numbers of sites are those of its sites.
pub fn trees_have_their_numbers()
    ensures supplied { TreesAreSupplied }
    ensures sites { SitesAreNumbers }
{}

/// Numbers are all that is supplied to a tree, and lifting leaves them to it: a program is lifted
/// with them as it is without.
pub fn lifting_keeps_numbers()
    ensures supplied { SuppliedTreesAreBare }
    ensures lifted { LiftingKeepsBare }
{}

/// Lifted functions are read as lifted trees, where they have the numbers of these, and no list
/// notation is empty: the lifted syntax of a program of which no form is refused is that of its
/// lifted trees.
pub fn lifted_functions_are_read()
    ensures sources { SourcesAreBare }
    ensures syntax_of_trees { LiftedSyntaxIsOfTrees }
    ensures read { LiftedFunctionsAreRead }
{}
