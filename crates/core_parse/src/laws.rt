//! Laws of texts and their verdicts. A function of these does nothing: its clause is the law.

ghost use Rattle.std.specs.List.{AllByRecursion};
ghost use Rattle.std.specs.Prelude.{◌≡◌, ◌≤◌, ◌^◌, ◌⊎◌, ℕ, List, length};
ghost use Rattle.hy_core.specs.Reading.{IsModuleText};
ghost use Rattle.hy_core.specs.Refusals.{IsRefusedText};
ghost use Rattle.hy_core.specs.declared.refusal.RefusalKind.{RefusalKind};
ghost use Rattle.hy_core.specs.declared.tree.Module.{Module};
ghost use Rattle.core_parse.specs.Answers.{IsSpace};
ghost use Rattle.hy_core.specs.declared.refusal.RefusalKind.TheVariants as kinds;

/// No text has two trees.
pub fn one_tree()
    ensures { (bytes : List ℕ) (y z : Module) → IsModuleText bytes y
        → IsModuleText bytes z → y ≡ z }
{}

/// No text both is a module and is refused, and none is refused in two ways.
pub fn one_verdict()
    ensures no_module_is_refused { (bytes : List ℕ) (z : Module) (kind : RefusalKind) (place : ℕ)
        → IsModuleText bytes z → IsRefusedText bytes kind place → ⊥ }
    ensures one_refusal { (bytes : List ℕ) (kind other : RefusalKind) (place there : ℕ)
        → IsRefusedText bytes kind place → IsRefusedText bytes other there
        → (kind ≡ other) × (place ≡ there) }
{}

/// Each text is a module or is refused.
pub fn some_verdict()
    ensures { (bytes : List ℕ) → ((z : Module) × IsModuleText bytes z)
        ⊎ ((kind : RefusalKind) × (place : ℕ) × IsRefusedText bytes kind place) }
{}

/// A text of spaces alone, an empty one too, ends where a module is to begin.
pub fn spaces_are_no_module()
    ensures { (bytes : List ℕ) → AllByRecursion IsSpace bytes → length bytes ≤ 2 ^ 20
        → IsRefusedText bytes kinds.Ended (length bytes) }
{}
