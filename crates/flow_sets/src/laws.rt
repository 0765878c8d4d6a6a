//! Laws of the least sets. Each function does nothing: its clause is the law.

ghost use Rattle.std.specs.Prelude.{ℕ, List, Bool, IsTrue, Contains};
ghost use Rattle.flow_sets.specs.Least.{Flows, IsClosed};
ghost use Rattle.flow_sets.specs.declared.inclusion.FlowSet.{FlowSet as ASet};
ghost use Rattle.flow_sets.specs.declared.inclusion.Inclusion.{Inclusion as AnInclusion};

/// The least sets are closed under the inclusions, and contained in each family of sets that is.
pub fn flow_is_least()
    ensures closed { (rules : List AnInclusion)
        → IsClosed (Contains rules) (Flows (Contains rules)) }
    ensures least { (rules : List AnInclusion) (test : ASet → ℕ → Bool)
        → IsClosed (Contains rules) (λ X s. IsTrue (test X s))
        → (X : ASet) (s : ℕ) → Flows (Contains rules) X s → IsTrue (test X s) }
{}
