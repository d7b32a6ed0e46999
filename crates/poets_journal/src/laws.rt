//! Laws of files and their texts, stated by functions that do nothing.
ghost use Rattle.std.specs.Prelude.{◌≡◌, ℕ};
ghost use Rattle.poets_journal.specs.Texts.{HoldsTexts, IsDamaged, Text, Texts};

/// A file holds one list of texts alone, and a damaged one holds none.
pub fn texts_of_a_file()
    ensures one { (file : Text) (texts others : Texts)
        → HoldsTexts file texts → HoldsTexts file others → texts ≡ others }
    ensures none { (file : Text) (number : ℕ) (texts : Texts) → IsDamaged file number → ¬ (HoldsTexts file texts) }
{}
