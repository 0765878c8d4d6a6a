//! Laws of the definitions. Each is the contract of a call that does nothing.
ghost use Rattle.std.specs.Prelude.{◌≡◌, ◌↔◌, ℕ, List, IsTrue, codes};
ghost use Rattle.std.specs.Cmp.{IsTotalOrder};
ghost use Rattle.std.specs.declared.cmp.Ordering.TheVariants.{Equal};
ghost use Rattle.hy_terms.specs.Examples.{some_atoms, mixed_tuple, ascending_terms, is_ascending, private_tuple};
ghost use Rattle.hy_terms.specs.Labelled.{Labelled, labelled_of, erase, shared, private_words, IsShared, IsLabelled};
ghost use Rattle.hy_terms.specs.TermOrder.{compare};
ghost use Rattle.hy_terms.specs.TermText.{term_text};
ghost use Rattle.hy_terms.specs.Term.{Term, term_of};
ghost use Rattle.hy_terms.specs.declared.term.Labelled.{Labelled as DeclaredLabelled};
ghost use Rattle.hy_terms.specs.declared.term.Term.{Term as DeclaredTerm};

/// The terms that definitions compute with are the declared ones.
pub fn terms_are_declared()
    ensures each { (term : Term) → (x : DeclaredTerm) × (term_of x ≡ term) }
    ensures once { (x y : DeclaredTerm) → term_of x ≡ term_of y → x ≡ y }
{}

/// The labelled terms that definitions compute with are the declared ones.
pub fn labelled_terms_are_declared()
    ensures each { (term : Labelled) → (x : DeclaredLabelled) × (labelled_of x ≡ term) }
    ensures once { (x y : DeclaredLabelled) → labelled_of x ≡ labelled_of y → x ≡ y }
{}

/// The order of terms is total, over each table of atoms.
pub fn order_is_total()
    ensures { (atoms : List (List ℕ)) → IsTotalOrder (compare atoms) }
{}

/// Two terms are equal exactly where they are the same tree.
pub fn equal_terms_are_the_same()
    ensures { (atoms : List (List ℕ)) (x y : Term) → (compare atoms x y ≡ Equal) ↔ (x ≡ y) }
{}

/// Terms of each kind ascend as they should.
pub fn terms_ascend()
    ensures { IsTrue (is_ascending ascending_terms) }
{}

/// A tuple of terms of each form prints as it should.
pub fn term_prints()
    ensures { term_text some_atoms mixed_tuple ≡ codes "{[1,2|3],[97,98],[],{},'it\\'s',<0.0.0>}" }
{}

/// Sharing changes labels alone, leaves no private word, and changes nothing where there is none.
pub fn sharing()
    ensures erased { (term : Labelled) → erase (shared term) ≡ erase term }
    ensures none_private { (term : Labelled) → private_words (shared term) ≡ 0 }
    ensures same { (term : Labelled) → private_words term ≡ 0 → shared term ≡ term }
    ensures all_shared { (term : Labelled) → IsShared (shared term) }
    ensures labelled { (term : Labelled) → IsLabelled (shared term) }
{}

/// Private words are counted for each occurrence.
pub fn private_words_count()
    ensures { private_words private_tuple ≡ 10 }
{}

/// Below a shared node nothing is private.
pub fn shared_nodes()
    ensures { (term : Labelled) → IsLabelled term → IsShared term → private_words term ≡ 0 }
{}
