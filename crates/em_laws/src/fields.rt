//! What the shell's expansions make of texts: each function's contract is the law, and its body is
//! empty but where it cites another law.
ghost use Rattle.std.specs.Prelude.{
  ◌≡◌,
  ◌<◌,
  ◌++◌,
  ◌∷◌,
  [],
  All,
  ℕ,
  true,
  false,
  List,
  length,
  map,
  replicate,
  codes,
  Some,
  None,
};
ghost use Rattle.em_glob.specs.declared.glyph.Glyph.{Glyph};
ghost use Rattle.em_fields.specs.declared.part.Part.{Part};
ghost use Rattle.em_fields.specs.declared.part.Part.TheVariants.{Quotes};
ghost use Rattle.em_fields.specs.declared.cut.Cut.TheVariants.{
  ShortSuffix,
  LongSuffix,
  ShortPrefix,
  LongPrefix,
};
ghost use Rattle.em_fields.specs.declared.form.Form.TheVariants as forms;
ghost use Rattle.em_fields.specs.Parts.{fields, glyphs, glyph, marked, without_newlines};
ghost use Rattle.em_fields.specs.Cuts.{cut_off};
ghost use Rattle.em_fields.specs.Forms.{form_of, early_value};
ghost use Rattle.em_laws.specs.Expansions.{
  open_byte,
  IsSpace,
  IsKept,
  EndsOtherwise,
  IsWithoutFront,
  IsWithoutEnd,
  shorter,
  longer,
};

/// A space, a tab or a newline that isn't quoted parts fields; what has none of them is one field,
/// with its quoting, and where nothing stands there is none. A quoted text that is empty is a
/// field.
pub fn law_split()
    ensures parted { (ps qs : List Part) (b : ℕ) → IsSpace b
        → fields (ps ++ open_byte b ∷ qs) ≡ fields ps ++ fields qs }
    ensures one { (ps : List Part) → 0 < length ps → All IsKept ps
        → fields ps ≡ glyphs ps ∷ [] }
    ensures none { fields [] ≡ [] }
    ensures empty { fields (Quotes ∷ []) ≡ [] ∷ [] }
    ensures text { (quoted : _) (text : List ℕ)
        → glyphs (marked quoted text) ≡ map (glyph quoted) text }
{}

/// A command substitution loses all newlines at its end, and nothing else.
pub fn law_newlines()
    ensures { (text : List ℕ) (n : ℕ) → EndsOtherwise 10 text
        → without_newlines (text ++ replicate n 10) ≡ text }
{}

/// `%` and `%%` take the shortest and the longest part at the end that matches off a text, `#` and
/// `##` at the begin; where no part matches the text stays.
pub fn law_cut()
    ensures short_end { (pattern : List Glyph) (text : List ℕ)
        → IsWithoutEnd shorter pattern text (cut_off ShortSuffix pattern text) }
    ensures long_end { (pattern : List Glyph) (text : List ℕ)
        → IsWithoutEnd longer pattern text (cut_off LongSuffix pattern text) }
    ensures short_front { (pattern : List Glyph) (text : List ℕ)
        → IsWithoutFront shorter pattern text (cut_off ShortPrefix pattern text) }
    ensures long_front { (pattern : List Glyph) (text : List ℕ)
        → IsWithoutFront longer pattern text (cut_off LongPrefix pattern text) }
{
    em_glob::laws::law_fits();
}

/// How the forms are written.
pub fn law_forms()
    ensures default { (name : List ℕ)
        → form_of name (codes "-") true ≡ Some (forms.Default false) }
    ensures default_colon { (name : List ℕ)
        → form_of name (codes ":-") true ≡ Some (forms.Default true) }
    ensures assign { (name : List ℕ)
        → form_of name (codes "=") true ≡ Some (forms.Assign false) }
    ensures assign_colon { (name : List ℕ)
        → form_of name (codes ":=") true ≡ Some (forms.Assign true) }
    ensures error { (name : List ℕ)
        → form_of name (codes "?") true ≡ Some (forms.Error false) }
    ensures error_colon { (name : List ℕ)
        → form_of name (codes ":?") true ≡ Some (forms.Error true) }
    ensures other { (name : List ℕ)
        → form_of name (codes "+") true ≡ Some (forms.Alternative false) }
    ensures other_colon { (name : List ℕ)
        → form_of name (codes ":+") true ≡ Some (forms.Alternative true) }
    ensures short_end { (name : List ℕ)
        → form_of name (codes "%") true ≡ Some (forms.Cut ShortSuffix) }
    ensures long_end { (name : List ℕ)
        → form_of name (codes "%%") true ≡ Some (forms.Cut LongSuffix) }
    ensures short_front { (name : List ℕ)
        → form_of name (codes "#") true ≡ Some (forms.Cut ShortPrefix) }
    ensures long_front { (name : List ℕ)
        → form_of name (codes "##") true ≡ Some (forms.Cut LongPrefix) }
{}

/// The value of a form at a variable that has a text, that is empty, and that is unset: its text,
/// nothing, or (`None`) what is made of the word.
pub fn law_values()
    ensures default_colon { (b status : ℕ) (bs : List ℕ)
        → (early_value (forms.Default true) (Some (b ∷ bs)) status ≡ Some (b ∷ bs))
        × (early_value (forms.Default true) (Some []) status ≡ None)
        × (early_value (forms.Default true) None status ≡ None) }
    ensures default { (b status : ℕ) (bs : List ℕ)
        → (early_value (forms.Default false) (Some (b ∷ bs)) status ≡ Some (b ∷ bs))
        × (early_value (forms.Default false) (Some []) status ≡ Some [])
        × (early_value (forms.Default false) None status ≡ None) }
    ensures other_colon { (b status : ℕ) (bs : List ℕ)
        → (early_value (forms.Alternative true) (Some (b ∷ bs)) status ≡ None)
        × (early_value (forms.Alternative true) (Some []) status ≡ Some [])
        × (early_value (forms.Alternative true) None status ≡ Some []) }
    ensures other { (b status : ℕ) (bs : List ℕ)
        → (early_value (forms.Alternative false) (Some (b ∷ bs)) status ≡ None)
        × (early_value (forms.Alternative false) (Some []) status ≡ None)
        × (early_value (forms.Alternative false) None status ≡ Some []) }
{}
