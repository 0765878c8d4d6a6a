//! Laws of what words stand for. These functions only carry them.
ghost use Rattle.hy_words.specs.Laws.{ScalarsStand, SharedWordsAreValues, TermHeadersByTag, EntryHeadersByTag, HeadersAreMade, HeightsByFields, FieldsAreLower, SharedWordsName, PrivateWordsName};
ghost use Rattle.hy_words.specs.Laws.{GrowingKeepsTerms, OneWordOneTerm, AreaKeepsTerms, WordsStandForLabelled, TermsAreLow, WiderKindIsNamed, GrowingKeepsNames};

use crate::cell_kind::CellKind;

/// What a word stands for stays, whatever is appended to the heap and written into the area.
pub fn growing_keeps_terms()
    ensures { GrowingKeepsTerms }
{}

/// A word stands for one labelled term at most, over one heap and one area.
pub fn one_word_one_term()
    ensures { OneWordOneTerm }
{}

/// A word that isn't private stands for the same labelled term over the heap of each process.
pub fn area_keeps_terms()
    ensures { AreaKeepsTerms }
{}

/// No shared node of what a word stands for has a private child.
pub fn words_stand_for_labelled()
    ensures { WordsStandForLabelled }
{}

/// Each scalar stands for a term, and a word that isn't private and stands for one is a value.
pub fn scalars_stand()
    ensures scalars { ScalarsStand }
    ensures values { SharedWordsAreValues }
{}

/// The headers are those of tuples, of conses and of entries. Their tags tell which.
pub fn headers_by_tag()
    ensures made { HeadersAreMade }
    ensures terms { TermHeadersByTag }
    ensures entries { EntryHeadersByTag }
{}

/// A term is one higher than its highest field.
pub fn heights_by_fields()
    ensures height { HeightsByFields }
    ensures lower { FieldsAreLower }
{}

/// What a word stands for is no higher than one more than the places of the heap and the area.
pub fn terms_are_low()
    ensures { TermsAreLow }
{}

/// Which words name only cells of a kind, among those that stand for terms.
pub fn words_that_name<K: CellKind>()
    ensures shared { SharedWordsName K.is_cell }
    ensures private { PrivateWordsName K.is_cell }
{}

/// What names only cells of one kind names only cells of a wider kind.
pub fn wider_kind_is_named<K: CellKind, W: CellKind>()
    ensures { WiderKindIsNamed K.is_cell W.is_cell }
{}

/// A larger heap names no further cell.
pub fn growing_keeps_names<K: CellKind>()
    ensures { GrowingKeepsNames K.is_cell }
{}
