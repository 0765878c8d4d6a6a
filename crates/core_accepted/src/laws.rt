ghost use Rattle.std.specs.List.{All};
ghost use Rattle.hy_core.specs.Syntax.{Syntax};
ghost use Rattle.core_accepted.specs.AcceptedPrograms.{HasItsMain, HasItsSites, HasKnownTrees, OfAccepted, OfAcceptedModules};
ghost use Rattle.core_accepted.specs.WorkedPrograms.{BehavesAsWorked, HasThePrelude, RunsAsWorked, SameTrees, worked};

/// Of the trees of an accepted program all is known that later passes need: variables are bound,
/// what is called is there and takes as many arguments as it is given, each part gives as many
/// values as its place needs, guards are of the forms of guards, and no form is refused.
pub fn accepted_trees_are_known()
    ensures { OfAccepted HasKnownTrees }
{}

/// The sites of an accepted program's trees, in the order of the text, are those of its table of
/// sites: each with its number and its kind, and no others.
pub fn sites_of_trees_are_the_programs()
    ensures { OfAccepted HasItsSites }
{}

/// An accepted program of at least one module has a function with which it begins: `'main'/0` of
/// its first module.
pub fn accepted_programs_have_a_main()
    ensures { OfAcceptedModules HasItsMain }
{}

/// The small programs of the laws of runs have the prelude that each program has, whatever their
/// own bodies are: the same atoms, the same numbers of functions, and the same trees of the
/// prelude, numbers of events and sites aside. With the bodies that the laws give them all their
/// trees are the same, their processes behave the same, and their full runs are full runs of the
/// programs that are read.
pub fn worked_programs_have_the_prelude()
    ensures prelude { (main child : Syntax) → HasThePrelude main child }
    ensures trees { All SameTrees worked }
    ensures behaviour { All BehavesAsWorked worked }
    ensures runs { All RunsAsWorked worked }
{}
