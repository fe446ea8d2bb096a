// A store that tells what it holds has one input.
ghost use Rattle.std.specs.Prelude.{◌≡◌, List, ℕ, Option, Some};
ghost use Rattle.th_outside.specs.Store.{NamedFile};
ghost use Rattle.th_input.specs.Input.{IsInput, Ends, IsFault};
ghost use Rattle.th_input.specs.Scripted.{IsScripted, EndsScripted};
ghost use Rattle.th_input.specs.declared.unread.Unread.{Unread};

/// Of a store that tells what it holds the words lead to one input, or one thing ends the reading where
/// no call fails, and not both.
pub fn one_input()
    ensures one { (files : List NamedFile) (list : Option (List ℕ)) (operands : List (List ℕ)) (read other : List NamedFile)
        → IsInput (Some files) list operands read → IsInput (Some files) list operands other → read ≡ other }
    ensures not_both { (files : List NamedFile) (list : Option (List ℕ)) (operands : List (List ℕ)) (read : List NamedFile) (unread : Unread)
        → IsInput (Some files) list operands read → Ends (Some files) list operands unread → IsFault unread }
    ensures one_end { (files : List NamedFile) (list : Option (List ℕ)) (operands : List (List ℕ)) (unread other : Unread)
        → Ends (Some files) list operands unread → Ends (Some files) list operands other → (IsFault unread → ⊥) → (IsFault other → ⊥) → unread ≡ other }
{}

/// The same where a script is named beside the class files.
pub fn one_scripted_input()
    ensures one_script { (files : List NamedFile) (script : List ℕ) (operands : List (List ℕ)) (bytes others : List ℕ) (read other : List NamedFile)
        → IsScripted (Some files) script operands bytes read → IsScripted (Some files) script operands others other → bytes ≡ others }
    ensures one { (files : List NamedFile) (script : List ℕ) (operands : List (List ℕ)) (bytes others : List ℕ) (read other : List NamedFile)
        → IsScripted (Some files) script operands bytes read → IsScripted (Some files) script operands others other → read ≡ other }
    ensures not_both { (files : List NamedFile) (script : List ℕ) (operands : List (List ℕ)) (bytes : List ℕ) (read : List NamedFile) (unread : Unread)
        → IsScripted (Some files) script operands bytes read → EndsScripted (Some files) script operands unread → IsFault unread }
    ensures one_end { (files : List NamedFile) (script : List ℕ) (operands : List (List ℕ)) (unread other : Unread)
        → EndsScripted (Some files) script operands unread → EndsScripted (Some files) script operands other → (IsFault unread → ⊥) → (IsFault other → ⊥)
        → unread ≡ other }
{}
